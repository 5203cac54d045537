//! Owned texts, and maps and sets of them.
use micromap::{Map, Set, Text, TextBuf};
use std::alloc::AllocError;

#[test]
fn a_text_is_compared_and_ordered_by_its_bytes(rt: HostRuntime) -> Result<(), AllocError> {
    let text = TextBuf::new(rt.alloc(), "été")?;
    assert!(rt; text.len() == 5 && !text.is_empty() && text.as_str() == "été");
    assert!(rt; text.is("été") && !text.is("ét"));
    assert!(rt; text.clone()? == text);
    assert!(rt; TextBuf::new(rt.alloc(), "z")? < text);
    assert!(rt; TextBuf::new(rt.alloc(), "ét")? < text);
    assert!(rt; TextBuf::new(rt.alloc(), "")?.is_empty());
    Ok(())
}

#[test]
fn a_text_is_printed_as_a_string_is(rt: HostRuntime) -> Result<(), AllocError> {
    let text = TextBuf::new(rt.alloc(), "a\"b")?;
    assert!(rt;
        format!(in rt.alloc(); "{text}|{text:>5}|{text:?}")?.as_str() == "a\"b|  a\"b|\"a\\\"b\""
    );
    Ok(())
}

#[test]
fn the_keys_of_a_map_are_converted_in_their_order(rt: HostRuntime) -> Result<(), AllocError> {
    let mut ages: Map<String, u8, 3> = Map::new();
    ages.checked_insert(String::from_str(rt.alloc(), "Ada")?, 36);
    ages.checked_insert(String::from_str(rt.alloc(), "Alan")?, 41);
    let texts = ages.into_text_bufs();
    assert!(rt;
        texts
            .first()
            .is_some_and(|(name, age)| name.is("Ada") && *age == 36)
    );
    assert!(rt; texts.get_by(&Text("Alan")) == Some(&41));
    let strings = texts.into_strings();
    assert!(rt;
        strings
            .last()
            .is_some_and(|(name, age)| name.as_str() == "Alan" && *age == 41)
    );
    assert!(rt; strings.len() == 2);
    Ok(())
}

#[test]
fn the_items_of_a_set_are_converted_in_their_order(rt: HostRuntime) -> Result<(), AllocError> {
    let mut words: Set<TextBuf, 3> = Set::new();
    words.checked_insert(TextBuf::new(rt.alloc(), "b")?);
    words.checked_insert(TextBuf::from(String::from_str(rt.alloc(), "a")?));
    let strings = words.into_strings();
    assert!(rt; strings.first().is_some_and(|word| word.as_str() == "b"));
    let words = strings.into_text_bufs();
    assert!(rt; words.last().is_some_and(|word| word.is("a")) && words.len() == 2);
    Ok(())
}

#[test]
fn a_map_of_sets_of_texts_is_cloned(rt: HostRuntime) -> Result<(), AllocError> {
    let mut needs: Map<TextBuf, Set<TextBuf, 2>, 2> = Map::new();
    let mut tools: Set<TextBuf, 2> = Set::new();
    tools.checked_insert(TextBuf::new(rt.alloc(), "linker")?);
    needs.checked_insert(TextBuf::new(rt.alloc(), "app")?, tools);
    let copy = needs.clone()?;
    needs.clear();
    assert!(rt;
        copy.get_by(&Text("app"))
            .is_some_and(|tools| tools.contains_by(&Text("linker")))
    );
    Ok(())
}
