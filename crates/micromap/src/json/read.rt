//! Reading a map from an object, and a set from an array.
ghost use Rattle.std.specs.Prelude.{◌≡◌, ◌≢◌, ◌<◌, length, IfOk, IfErr, MatchResult, Ok, Err, ok_or, option_map, string_bytes};
ghost use Rattle.std.specs.Ordering.{int_eq};
ghost use Rattle.std.specs.Result.{result_map_both};
ghost use Rattle.std.specs.String.{string_eq};
ghost use Rattle.serde_json.specs.Find.{as_str};
ghost use Rattle.serde_json.specs.Read.{read as value_of};
ghost use Rattle.serde_json.specs.View.{view, items_view, members_view};
ghost use Rattle.micromap.specs.Json.{pairs_for, pairs_in, texts_for, texts_in, whole_number, Pairs, HasPairs, IsFault};
ghost use Rattle.micromap.specs.Items.{IsItems};
ghost use Rattle.micromap.specs.Pairs.{IsContent};
ghost use Rattle.micromap.specs.Same.{Same};
ghost use Rattle.micromap.specs.Texts.{item_texts, key_texts};
ghost use Rattle.micromap.specs.declared.json.JsonFault.TheVariants.{BadText, Memory};

use super::JsonFault;
use crate::{Map, Set};
use serde_json::Value;
use std::alloc::Global;

/// Creates a map of an object's members, or returns why there is none.
///
/// The pairs are in the order of their names, compared as bytes. Of a repeated name the last value is read. Allocates
/// memory for the values that are read, and never returns `Memory` for an empty text. Makes one scan for each member, up
/// to the first that doesn't fit.
///
/// ```
/// let ages: Map<String, i64, 2> = map_from_json(alloc, r#"{"Ada": 36, "Alan": 41}"#)?;
/// assert_eq!(rt; ages.get_by(&Text("Alan")), Some(&41));
/// let small = map_from_json::<1>(alloc, r#"{"Ada": 36, "Alan": 41}"#);
/// assert!(rt; matches!(small, Err(JsonFault::TooMany)));
/// ```
pub fn map_from_json<const N: usize>(
    alloc: Global,
    text: &str,
) -> Result<Map<String, i64, N>, JsonFault>
    ensures pairs { IfOk result (HasPairs N text.now) }
    ensures order { IfOk result (λ map. pairs_for N text.now ≡ Ok (key_texts map)) }
    ensures fault { IfErr result (IsFault (pairs_for N text.now)) }
    ensures memory { IfErr result (λ fault. fault ≡ Memory → 0 < length text.now) }
    ensures again { (pairs : Pairs) → HasPairs N text.now pairs
        → MatchResult result (λ map. Same string_eq int_eq pairs map) (λ fault. fault ≡ Memory) }
    ensures content { IfOk result (IsContent string_eq N) }
{
    match read(alloc, text)? {
        Value::Object(members) => map_of_members(members),
        _ => Err(JsonFault::NotObject),
    }
}

/// Creates a set of an array's texts, each distinct one as it first came, or returns why there is none.
///
/// Allocates memory as `map_from_json` does. Makes one scan for each text, up to the first that doesn't fit.
///
/// ```
/// let seen: Set<String, 2> = set_from_json(alloc, r#"["foo", "bar", "foo"]"#)?;
/// assert!(rt; seen.contains_by(&Text("bar")));
/// let wrong = set_from_json::<2>(alloc, r#"["foo", 1]"#);
/// assert!(rt; matches!(wrong, Err(JsonFault::NotText)));
/// ```
pub fn set_from_json<const N: usize>(alloc: Global, text: &str) -> Result<Set<String, N>, JsonFault>
    ensures texts { IfOk result (λ set. texts_for N text.now ≡ Ok (item_texts set)) }
    ensures fault { IfErr result (IsFault (texts_for N text.now)) }
    ensures memory { IfErr result (λ fault. fault ≡ Memory → 0 < length text.now) }
    ensures content { IfOk result (IsItems string_eq N) }
{
    match read(alloc, text)? {
        Value::Array(elements) => set_of_elements(elements),
        _ => Err(JsonFault::NotArray),
    }
}

// The value that the text writes.
fn read(alloc: Global, text: &str) -> Result<Value, JsonFault>
    ensures value { IfOk result (λ value. ok_or (value_of text.now) BadText ≡ Ok (view value)) }
    ensures fault { IfErr result (IsFault (ok_or (value_of text.now) BadText)) }
    ensures memory { IfErr result (λ fault. fault ≡ Memory → 0 < length text.now) }
{
    match Value::from_str(alloc, text) {
        Ok(value) => Ok(value),
        Err(error) if error.is_memory() => Err(JsonFault::Memory),
        Err(_) => Err(JsonFault::BadText),
    }
}

// Creates the map of these members. Each is inserted as it is looked at, until one doesn't fit. A value that is no whole
// number is the error at once. That a member didn't fit is the error only after the last.
fn map_of_members<const N: usize>(
    members: serde_json::Map<String, Value>,
) -> Result<Map<String, i64, N>, JsonFault>
    ensures answer { result_map_both key_texts (λ fault. fault) result
        ≡ pairs_in N (members_view members.entries) }
    ensures no_memory { IfErr result (λ fault. fault ≢ Memory) }
    ensures content { IfOk result (IsContent string_eq N) }
{
    let mut map = Map::new();
    let mut all_fit = true;
    for (name, value) in members {
        let Some(whole) = whole_of(value) else {
            return Err(JsonFault::NotWhole);
        };
        all_fit = all_fit && map.put(name, whole);
    }
    // What is true of the map, for the contract: `len` ensures it.
    let _known = map.len();
    if all_fit {
        Ok(map)
    } else {
        Err(JsonFault::TooMany)
    }
}

// The whole number that the value is, if it is one.
fn whole_of(value: Value) -> Option<i64>
    ensures { result ≡ whole_number (view value) }
{
    value.as_i64()
}

// Creates the set of these elements. Each is inserted as it is looked at, until one doesn't fit. An element that is no
// text is the error at once. That a text didn't fit is the error only after the last.
fn set_of_elements<const N: usize>(elements: Vec<Value>) -> Result<Set<String, N>, JsonFault>
    ensures texts { IfOk result (λ set. texts_in N (items_view elements.items) ≡ Ok (item_texts set)) }
    ensures fault { IfErr result (λ fault. texts_in N (items_view elements.items) ≡ Err fault) }
    ensures no_memory { IfErr result (λ fault. fault ≢ Memory) }
    ensures content { IfOk result (IsItems string_eq N) }
{
    let mut set = Set::new();
    let mut all_fit = true;
    for element in elements {
        let Some(text) = text_of(element) else {
            return Err(JsonFault::NotText);
        };
        all_fit = all_fit && set.put(text);
    }
    // What is true of the set, for the contract: `len` ensures it.
    let _known = set.len();
    if all_fit {
        Ok(set)
    } else {
        Err(JsonFault::TooMany)
    }
}

// The text that the value is, if it is one.
fn text_of(value: Value) -> Option<String>
    ensures { option_map (λ text. string_bytes text) result ≡ as_str (view value) }
{
    match value {
        Value::String(text) => Some(text),
        _ => None,
    }
}
