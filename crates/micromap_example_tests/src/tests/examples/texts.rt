//! The calls by probe, of a map and of a set; owned texts, maps and sets of them, and maps and sets as JSON.
use micromap::json::{JsonFault, map_from_json, map_to_json, set_from_json, set_to_json};
use micromap::{Map, Probe, Set, Text, TextBuf};
use std::alloc::AllocError;

#[test]
fn a_text_matches_a_key(rt: HostRuntime) {
    assert!(rt; Text("Ada").matches(&"Ada"));
    assert!(rt; !Text("Ada").matches(&"ada"));
}

#[test]
fn a_text_finds_a_key_of_another_lifetime(rt: HostRuntime) -> Result<(), AllocError> {
    let alloc = rt.alloc();
    let ages = Map::from([("Ada", 36), ("Alan", 41)]);
    let name = TextBuf::new(alloc, "Alan")?;
    assert_eq!(rt; ages.get_by(&Text(name.as_str())), Some(&41));
    Ok(())
}

#[test]
fn a_value_by_a_text(rt: HostRuntime) {
    {
        let mut ages = Map::from([("Ada", 36), ("Alan", 41)]);
        if let Some(age) = ages.get_mut_by(&Text("Ada")) {
            *age = 37;
        }
        assert_eq!(rt; ages.get(&"Ada"), Some(&37));
    }
    {
        let ages = Map::from([("Ada", 36), ("Alan", 41)]);
        assert_eq!(rt; ages.get_or_by(&Text("Ada"), 0), 36);
        assert_eq!(rt; ages.get_or_by(&Text("Grace"), 0), 0);
    }
}

#[test]
fn a_pair_by_a_text(rt: HostRuntime) {
    {
        let ages = Map::from([("Ada", 36), ("Alan", 41)]);
        assert_eq!(rt; ages.get_key_value_by(&Text("Ada")), Some((&"Ada", &36)));
        assert_eq!(rt; ages.get_key_value_by(&Text("Grace")), None);
    }
    {
        let ages = Map::from([("Ada", 36), ("Alan", 41)]);
        assert!(rt; ages.contains_key_by(&Text("Ada")));
        assert!(rt; !ages.contains_key_by(&Text("Grace")));
    }
}

#[test]
fn whether_a_text_fits(rt: HostRuntime) -> Result<(), AllocError> {
    let alloc = rt.alloc();
    let mut ages: Map<TextBuf, u8, 1> = Map::new();
    ages.put(TextBuf::new(alloc, "Ada")?, 36);
    assert!(rt; ages.fits_by(&Text("Ada")));
    assert!(rt; !ages.fits_by(&Text("Alan")));
    Ok(())
}

#[test]
fn a_value_at_a_stored_text(rt: HostRuntime) {
    {
        let ages = Map::from([("Ada", 36), ("Alan", 41)]);
        assert!(rt; ages.contains_key_by(&Text("Ada")));
        assert_eq!(rt; *ages.index_by(&Text("Ada")), 36);
    }
    {
        let mut ages = Map::from([("Ada", 36), ("Alan", 41)]);
        if ages.contains_key_by(&Text("Ada")) {
            *ages.index_mut_by(&Text("Ada")) = 37;
        }
        assert_eq!(rt; ages.get(&"Ada"), Some(&37));
    }
}

#[test]
fn a_pair_is_removed_by_a_text(rt: HostRuntime) {
    let mut ages = Map::from([("Ada", 36), ("Alan", 41)]);
    assert_eq!(rt; ages.remove_by(&Text("Ada")), Some(36));
    assert_eq!(rt; ages.remove_by(&Text("Ada")), None);
}

#[test]
fn an_owned_key_is_removed_by_a_text(rt: HostRuntime) -> Result<(), AllocError> {
    let alloc = rt.alloc();
    let mut ages: Map<TextBuf, u8, 4> = Map::new();
    ages.put(TextBuf::new(alloc, "Ada")?, 36);
    let removed = ages.remove_entry_by(&Text("Ada"));
    assert!(rt; removed.is_some_and(|(name, age)| name.is("Ada") && age == 36));
    Ok(())
}

#[test]
fn an_item_by_a_text(rt: HostRuntime) {
    {
        let seen = Set::from(["foo", "bar"]);
        assert_eq!(rt; seen.get_by(&Text("foo")), Some(&"foo"));
        assert_eq!(rt; seen.get_by(&Text("qux")), None);
    }
    {
        let seen = Set::from(["foo", "bar"]);
        assert!(rt; seen.contains_by(&Text("foo")));
        assert!(rt; !seen.contains_by(&Text("qux")));
    }
}

#[test]
fn whether_an_item_of_this_text_fits(rt: HostRuntime) -> Result<(), AllocError> {
    let alloc = rt.alloc();
    let mut seen: Set<TextBuf, 1> = Set::new();
    seen.put(TextBuf::new(alloc, "foo")?);
    assert!(rt; seen.fits_by(&Text("foo")));
    assert!(rt; !seen.fits_by(&Text("bar")));
    Ok(())
}

#[test]
fn an_owned_item_is_removed_by_a_text(rt: HostRuntime) -> Result<(), AllocError> {
    let alloc = rt.alloc();
    let mut seen: Set<TextBuf, 4> = Set::new();
    seen.put(TextBuf::new(alloc, "foo")?);
    let taken = seen.take_by(&Text("foo"));
    assert!(rt; taken.is_some_and(|word| word.is("foo")));
    assert!(rt; seen.take_by(&Text("foo")).is_none());
    Ok(())
}

#[test]
fn an_item_is_removed_by_a_text(rt: HostRuntime) {
    let mut seen = Set::from(["foo", "bar"]);
    assert!(rt; seen.remove_by(&Text("foo")));
    assert!(rt; !seen.remove_by(&Text("foo")));
}

#[test]
fn a_text_is_made(rt: HostRuntime) -> Result<(), AllocError> {
    let alloc = rt.alloc();
    {
        let name: TextBuf = String::from_str(alloc, "Ada")?.into();
        assert!(rt; name.is("Ada"));
    }
    {
        let name = TextBuf::new(alloc, "Ada")?;
        assert_eq!(rt; name.as_str(), "Ada");
    }
    {
        let name = TextBuf::new(alloc, "Ada")?.into_string();
        assert_eq!(rt; name.as_str(), "Ada");
    }
    Ok(())
}

#[test]
fn a_text_is_read(rt: HostRuntime) -> Result<(), AllocError> {
    let alloc = rt.alloc();
    {
        let name = TextBuf::new(alloc, "Ada")?;
        assert!(rt; name.as_str().starts_with("A"));
    }
    {
        let text = TextBuf::new(alloc, "été")?;
        assert_eq!(rt; text.len(), 5);
    }
    {
        assert!(rt; TextBuf::new(alloc, "")?.is_empty());
        assert!(rt; !TextBuf::new(alloc, "Ada")?.is_empty());
    }
    {
        let name = TextBuf::new(alloc, "Ada")?;
        assert!(rt; name.is("Ada"));
        assert!(rt; !name.is("ada"));
    }
    Ok(())
}

#[test]
fn a_map_of_strings(rt: HostRuntime) -> Result<(), AllocError> {
    let alloc = rt.alloc();
    let mut ages: Map<String, u8, 2> = Map::new();
    ages.put(String::from_str(alloc, "Ada")?, 36);
    let ages: Map<TextBuf, u8, 2> = ages.into_text_bufs();
    assert_eq!(rt; ages.get_by(&Text("Ada")), Some(&36));
    Ok(())
}

#[test]
fn a_map_of_texts(rt: HostRuntime) -> Result<(), AllocError> {
    let alloc = rt.alloc();
    let mut ages: Map<TextBuf, u8, 2> = Map::new();
    ages.put(TextBuf::new(alloc, "Ada")?, 36);
    let ages: Map<String, u8, 2> = ages.into_strings();
    assert_eq!(rt; ages.get_by(&Text("Ada")), Some(&36));
    Ok(())
}

#[test]
fn a_set_of_strings(rt: HostRuntime) -> Result<(), AllocError> {
    let alloc = rt.alloc();
    let mut seen: Set<String, 2> = Set::new();
    seen.put(String::from_str(alloc, "foo")?);
    let seen: Set<TextBuf, 2> = seen.into_text_bufs();
    assert!(rt; seen.contains_by(&Text("foo")));
    Ok(())
}

#[test]
fn a_set_of_texts(rt: HostRuntime) -> Result<(), AllocError> {
    let alloc = rt.alloc();
    let mut seen: Set<TextBuf, 2> = Set::new();
    seen.put(TextBuf::new(alloc, "foo")?);
    let seen: Set<String, 2> = seen.into_strings();
    assert!(rt; seen.contains_by(&Text("foo")));
    Ok(())
}

#[test]
fn a_map_is_read(rt: HostRuntime) -> Result<(), JsonFault> {
    let alloc = rt.alloc();
    let ages: Map<String, i64, 2> = map_from_json(alloc, r#"{"Ada": 36, "Alan": 41}"#)?;
    assert_eq!(rt; ages.get_by(&Text("Alan")), Some(&41));
    let small = map_from_json::<1>(alloc, r#"{"Ada": 36, "Alan": 41}"#);
    assert!(rt; matches!(small, Err(JsonFault::TooMany)));
    Ok(())
}

#[test]
fn a_set_is_read(rt: HostRuntime) -> Result<(), JsonFault> {
    let alloc = rt.alloc();
    let seen: Set<String, 2> = set_from_json(alloc, r#"["foo", "bar", "foo"]"#)?;
    assert!(rt; seen.contains_by(&Text("bar")));
    let wrong = set_from_json::<2>(alloc, r#"["foo", 1]"#);
    assert!(rt; matches!(wrong, Err(JsonFault::NotText)));
    Ok(())
}

#[test]
fn a_map_is_written(rt: HostRuntime) -> Result<(), JsonFault> {
    let alloc = rt.alloc();
    let mut ages: Map<String, i64, 2> = Map::new();
    ages.put(String::from_str(alloc, "Ada")?, 36);
    assert_eq!(rt; map_to_json(alloc, &ages)?.as_str(), r#"{"Ada":36}"#);
    Ok(())
}

#[test]
fn a_set_is_written(rt: HostRuntime) -> Result<(), JsonFault> {
    let alloc = rt.alloc();
    let mut seen: Set<String, 2> = Set::new();
    seen.put(String::from_str(alloc, "foo")?);
    assert_eq!(rt; set_to_json(alloc, &seen)?.as_str(), r#"["foo"]"#);
    Ok(())
}

#[test]
fn a_fault_has_a_number(rt: HostRuntime) {
    let alloc = rt.alloc();
    let read = set_from_json::<2>(alloc, "{}");
    assert!(rt; read.is_err_and(|fault| fault.code() == 3));
}
