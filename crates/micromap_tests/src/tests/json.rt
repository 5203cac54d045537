//! Maps and sets as JSON: callers' proofs, values from outside, each fault with its code, and that ample memory never
//! returns `Memory`.
ghost use Rattle.std.specs.Prelude.{◌≡◌, ◌≤◌, length, IfOk, IfErr, MatchResult, string_bytes};
ghost use Rattle.std.specs.Ordering.{int_eq};
ghost use Rattle.std.specs.String.{string_eq};
ghost use Rattle.micromap.specs.Json.{HasPairs, IsFault, Pairs, pairs_for};
ghost use Rattle.micromap.specs.Same.{Same};
ghost use Rattle.micromap.specs.declared.json.JsonFault.TheVariants.{Memory};

use micromap::json::{JsonFault, map_from_json, map_to_json, set_from_json, set_to_json};
use micromap::{Map, Set, Text};
use std::alloc::{AllocError, Global};

// Reads at most 8 settings, and writes them back.
fn rewritten(alloc: Global, text: &str) -> Result<String, JsonFault>
    ensures same { IfOk result (λ written. (pairs : Pairs) × HasPairs 8 text.now pairs × HasPairs 8 (string_bytes written) pairs) }
    ensures fault { IfErr result (IsFault (pairs_for 8 text.now)) }
{
    let settings: Map<String, i64, 8> = map_from_json(alloc, text)?;
    map_to_json(alloc, &settings)
}

// The same map in another capacity, by way of its text.
fn map_by_text<const N: usize, const M: usize>(
    alloc: Global,
    map: &Map<String, i64, N>,
) -> Result<Map<String, i64, M>, JsonFault>
    requires { length map.now ≤ M }
    ensures { MatchResult result (λ new. Same string_eq int_eq map.now new) (λ fault. fault ≡ Memory) }
{
    let text = map_to_json(alloc, map)?;
    map_from_json(alloc, text.as_str())
}

// A map of these pairs, which all fit.
fn map_of<const N: usize>(
    alloc: Global,
    pairs: &[(&str, i64)],
) -> Result<Map<String, i64, N>, AllocError> {
    let mut map = Map::new();
    for (name, value) in pairs {
        map.checked_insert(String::from_str(alloc, *name)?, *value);
    }
    Ok(map)
}

// A set of these texts, which all fit.
fn set_of<const N: usize>(alloc: Global, texts: &[&str]) -> Result<Set<String, N>, AllocError> {
    let mut set = Set::new();
    for text in texts {
        set.checked_insert(String::from_str(alloc, *text)?);
    }
    Ok(set)
}

// Whether the map has just these pairs.
fn has<const N: usize>(map: &Map<String, i64, N>, pairs: &[(&str, i64)]) -> bool {
    map.len() == pairs.len()
        && pairs
            .iter()
            .all(|(name, value)| map.get_by(&Text(*name)) == Some(value))
}

// Whether the set has just these texts, from the front.
fn lists<const N: usize>(set: &Set<String, N>, texts: &[&str]) -> bool {
    set.len() == texts.len()
        && set
            .iter()
            .zip(texts)
            .all(|(stored, text)| stored.as_str() == *text)
}

// The code of the fault of a reading, or 0.
fn code<T: Drop>(read: Result<T, JsonFault>) -> u8 {
    match read {
        Ok(_) => 0,
        Err(fault) => fault.code(),
    }
}

// The code of the fault of a text as a map of at most two pairs, or 0.
fn map_code(alloc: Global, text: &str) -> u8 {
    code(map_from_json::<2>(alloc, text))
}

// The code of the fault of a text as a set of at most one text, or 0.
fn set_code(alloc: Global, text: &str) -> u8 {
    code(set_from_json::<1>(alloc, text))
}

#[test]
fn the_ends_of_the_numbers_are_read(rt: HostRuntime) -> Result<(), JsonFault> {
    let text = r#"{"a":9223372036854775807,"b":-9223372036854775808}"#;
    let ends = map_from_json::<2>(rt.alloc(), text)?;
    assert!(rt; has(&ends, &[("a", i64::MAX), ("b", i64::MIN)]));
    Ok(())
}

#[test]
fn nothing_is_read_in_every_capacity(rt: HostRuntime) -> Result<(), JsonFault> {
    let alloc = rt.alloc();
    assert!(rt; map_from_json::<0>(alloc, "{}")?.is_empty());
    assert!(rt; map_from_json::<7>(alloc, " { } ")?.is_empty());
    assert!(rt; set_from_json::<0>(alloc, "[]")?.is_empty());
    Ok(())
}

#[test]
fn of_a_repeated_name_the_last_value_is_read(rt: HostRuntime) -> Result<(), JsonFault> {
    let alloc = rt.alloc();
    let last = map_from_json::<1>(alloc, r#"{"a":"x","a":1}"#)?;
    assert!(rt; has(&last, &[("a", 1)]));
    let spelled = map_from_json::<1>(alloc, r#"{"a":2,"\u0061":1}"#)?;
    assert!(rt; has(&spelled, &[("a", 1)]));
    assert!(rt; map_code(alloc, r#"{"a":1,"a":"x"}"#) == 4);
    Ok(())
}

#[test]
fn each_fault_of_a_map_in_its_order(rt: HostRuntime) {
    let alloc = rt.alloc();
    for (text, code) in [
        ("", 1),
        (r#"{"a":"#, 1),
        (r#"{"a":1"#, 1),
        (r#"{"a":1}x"#, 1),
        ("{a:1}", 1),
        (r#"{"a":1e999}"#, 1),
        (r#"{"a":"\ud800"}"#, 1),
        ("null", 2),
        (r#""a""#, 2),
        ("[1]", 2),
        ("[]", 2),
        ("7", 2),
        (r#"{"a":1,"b":2,"c":"x"}"#, 4),
        (r#"{"a":1,"b":2,"c":3}"#, 6),
        (r#"{"a":1,"b":2,"a":3}"#, 0),
    ] {
        assert!(rt; map_code(alloc, text) == code);
    }
}

#[test]
fn other_values_are_not_whole(rt: HostRuntime) {
    let alloc = rt.alloc();
    for text in [
        r#"{"a":true}"#,
        r#"{"a":{}}"#,
        r#"{"a":"x"}"#,
        r#"{"a":9223372036854775808}"#,
        r#"{"a":-0}"#,
        r#"{"a":1.0}"#,
        r#"{"a":1e2}"#,
        r#"{"a":null}"#,
    ] {
        assert!(rt; map_code(alloc, text) == 4);
    }
}

#[test]
fn values_are_looked_at_before_the_room(rt: HostRuntime) {
    let alloc = rt.alloc();
    assert!(rt; code(map_from_json::<1>(alloc, r#"{"a":"x","b":1}"#)) == 4);
    assert!(rt; code(map_from_json::<0>(alloc, r#"{"a":1}"#)) == 6);
    assert!(rt; code(set_from_json::<0>(alloc, r#"["a"]"#)) == 6);
}

#[test]
fn too_deep_a_nesting_is_no_text(rt: HostRuntime) -> Result<(), AllocError> {
    let alloc = rt.alloc();
    let mut text = String::new(alloc);
    for bracket in ['[', ']'] {
        for _ in 0..200 {
            text.push(bracket)?;
        }
    }
    assert!(rt; set_code(alloc, text.as_str()) == 1);
    Ok(())
}

#[test]
fn arrays_are_read(rt: HostRuntime) -> Result<(), JsonFault> {
    let alloc = rt.alloc();
    let two = set_from_json::<2>(alloc, r#"["b","a","b"]"#)?;
    assert!(rt; lists(&two, &["b", "a"]));
    let one = set_from_json::<1>(alloc, r#"["a","a"]"#)?;
    assert!(rt; lists(&one, &["a"]));
    Ok(())
}

#[test]
fn each_fault_of_a_set_in_its_order(rt: HostRuntime) {
    let alloc = rt.alloc();
    for (text, code) in [
        ("", 1),
        (r#"["a""#, 1),
        (r#"["a",]"#, 1),
        ("['a']", 1),
        (r#"["\udc00"]"#, 1),
        (r#""a""#, 3),
        (r#"{"a":1}"#, 3),
        ("{}", 3),
        ("null", 3),
        ("[null]", 5),
        (r#"["a",1]"#, 5),
        (r#"["a","b",1]"#, 5),
        (r#"[["a"]]"#, 5),
        (r#"["a","b"]"#, 6),
        (r#"["b","a","b"]"#, 6),
        (r#"["a","a"]"#, 0),
    ] {
        assert!(rt; set_code(alloc, text) == code);
    }
}

#[test]
fn the_seven_faults(rt: HostRuntime) -> Result<(), AllocError> {
    let faults = [
        (JsonFault::BadText, "the text is not JSON"),
        (JsonFault::NotObject, "the text is not an object"),
        (JsonFault::NotArray, "the text is not an array"),
        (
            JsonFault::NotWhole,
            "a value is not a whole number of 64 bits",
        ),
        (JsonFault::NotText, "an element is not a text"),
        (
            JsonFault::TooMany,
            "there are more distinct texts than there is room for",
        ),
        (JsonFault::Memory, "a request for memory was refused"),
    ];
    for (index, (fault, text)) in faults.into_iter().enumerate() {
        assert!(rt; fault.code() as usize == index + 1);
        assert!(rt; fault.to_string(rt.alloc())?.as_str() == text);
    }
    Ok(())
}

#[test]
fn sets_are_written(rt: HostRuntime) -> Result<(), JsonFault> {
    let alloc = rt.alloc();
    let set = set_of::<3>(alloc, &["b", "a", "\"\n"])?;
    assert!(rt; set_to_json(alloc, &set)?.as_str() == r#"["b","a","\"\n"]"#);
    let none: Set<String, 3> = Set::new();
    assert!(rt; set_to_json(alloc, &none)?.as_str() == "[]");
    Ok(())
}

#[test]
fn settings_are_written_back(rt: HostRuntime) -> Result<(), JsonFault> {
    let text = rewritten(rt.alloc(), r#"{"width": 80, "depth": -3, "width": 72}"#)?;
    assert!(rt; text.as_str() == r#"{"depth":-3,"width":72}"#);
    Ok(())
}

#[test]
fn a_map_goes_to_another_capacity_by_its_text(rt: HostRuntime) -> Result<(), JsonFault> {
    let alloc = rt.alloc();
    let map = map_of::<4>(alloc, &[("b", 2), ("a", 1)])?;
    if map.len() > 2 {
        assert!(rt; false);
        return Ok(());
    }
    let other: Map<String, i64, 2> = map_by_text(alloc, &map)?;
    assert!(rt; other.eq_with(&map));
    Ok(())
}
