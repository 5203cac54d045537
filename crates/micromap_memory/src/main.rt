//! Calls that may lack memory, and what they do if a request for it is refused.
//!
//! Each line of the standard input has the name of a run and a number, as `a_map_is_cloned 3`. The program makes as many
//! requests for memory as the number says, performs the run, and writes whether it passed, was refused memory or was wrong.
//! `tools/refuse-memory` refuses one request, always the same of the program, so that the number says which of the run's
//! it is. Each run ends well, or by the refusal that its call names, and either way what was passed in must be unchanged.
#![tactic(auto)]

use micromap::{JsonFault, Map, Set, Text, map_from_json, map_to_json, set_from_json, set_to_json};
use std::alloc::{AllocError, Global};
use std::io::{self, Read, Write};
use std::process::ExitCode;

/// The most bytes that are read. They are read into an array, which needs no request for memory.
const MOST_BYTES: usize = 1024;

// Makes this many requests for memory.
fn request(alloc: Global, times: u8) -> Result<(), AllocError> {
    for number in 0..times {
        let _made = Box::new(alloc, number)?;
    }
    Ok(())
}

// How the run of a line ended, or `None` if the line names none, its requests before the run were refused, or the run
// ended by another fault than a refusal.
fn outcome(alloc: Global, line: &str) -> Option<&'static str> {
    let (name, times) = line.split_once(' ')?;
    request(alloc, times.parse().ok()?).ok()?;
    match perform(alloc, name)? {
        Ok(true) => Some("passed"),
        Ok(false) => Some("wrong"),
        Err(JsonFault::Memory) => Some("refused"),
        Err(_fault) => None,
    }
}

// Performs the run of each line, and writes how it ended. Returns whether each had an outcome.
fn run<R: Read, W: Write>(alloc: Global, input: &mut R, output: &mut W) -> io::Result<bool> {
    let mut bytes = [0; MOST_BYTES];
    let length = input.read(&mut bytes)?;
    let Some(text) = bytes
        .get(..length)
        .and_then(|read| str::from_utf8(read).ok())
    else {
        return Ok(false);
    };
    for line in text.split_terminator('\n') {
        match outcome(alloc, line) {
            Some(outcome) => writeln!(output, "{line}: {outcome}")?,
            None => return Ok(false),
        }
    }
    Ok(true)
}

// Returns whether the run of this name found what it must, or `None` if there is no such run.
fn perform(alloc: Global, name: &str) -> Option<Result<bool, JsonFault>> {
    let ended = match name {
        "a_map_is_cloned" => a_map_is_cloned(alloc),
        "a_set_is_cloned" => a_set_is_cloned(alloc),
        "what_is_in_both_sets_is_cloned" => what_is_in_both_sets_is_cloned(alloc),
        "what_is_in_one_set_alone_is_cloned" => what_is_in_one_set_alone_is_cloned(alloc),
        "a_map_is_printed" => a_map_is_printed(alloc),
        "a_set_is_printed" => a_set_is_printed(alloc),
        "a_map_is_written_as_json" => a_map_is_written_as_json(alloc),
        "a_set_is_written_as_json" => a_set_is_written_as_json(alloc),
        "a_map_is_read_from_json" => a_map_is_read_from_json(alloc),
        "a_set_is_read_from_json" => a_set_is_read_from_json(alloc),
        _ => return None,
    };
    Some(ended)
}

// A map of three texts.
fn map_of_texts(alloc: Global) -> Result<Map<String, String, 3>, AllocError> {
    let mut map = Map::new();
    for text in ["a", "b", "c"] {
        map.checked_insert(
            String::from_str(alloc, text)?,
            String::from_str(alloc, text)?,
        );
    }
    Ok(map)
}

// Whether it has the three texts.
fn is_whole(map: &Map<String, String, 3>) -> bool {
    map.len() == 3
        && ["a", "b", "c"].iter().all(|text| map
            .get_by(&Text(*text))
            .is_some_and(|value| value.as_str() == *text))
}

// A set of three texts.
fn set_of_texts(alloc: Global, texts: [&str; 3]) -> Result<Set<String, 3>, AllocError> {
    let mut set = Set::new();
    for text in texts {
        set.checked_insert(String::from_str(alloc, text)?);
    }
    Ok(set)
}

// Whether the set has just these texts, from the front.
fn lists<const N: usize>(set: &Set<String, N>, texts: &[&str]) -> bool {
    set.len() == texts.len()
        && set
            .iter()
            .zip(texts)
            .all(|(stored, text)| stored.as_str() == *text)
}

// A map of two texts with numbers.
fn map_of_numbers(alloc: Global) -> Result<Map<String, i64, 3>, AllocError> {
    let mut map = Map::new();
    map.checked_insert(String::from_str(alloc, "a")?, 1);
    map.checked_insert(String::from_str(alloc, "b")?, 2);
    Ok(map)
}

// Whether it has the two.
fn has_both<const N: usize>(map: &Map<String, i64, N>) -> bool {
    map.len() == 2 && map.get_by(&Text("a")) == Some(&1) && map.get_by(&Text("b")) == Some(&2)
}

fn a_map_is_cloned(alloc: Global) -> Result<bool, JsonFault> {
    let map = map_of_texts(alloc)?;
    let clone = map.clone();
    Ok(is_whole(&map) && is_whole(&clone?))
}

fn a_set_is_cloned(alloc: Global) -> Result<bool, JsonFault> {
    let set = set_of_texts(alloc, ["a", "b", "c"])?;
    let clone = set.clone();
    Ok(lists(&set, &["a", "b", "c"]) && lists(&clone?, &["a", "b", "c"]))
}

fn what_is_in_both_sets_is_cloned(alloc: Global) -> Result<bool, JsonFault> {
    let first = set_of_texts(alloc, ["a", "b", "c"])?;
    let second = set_of_texts(alloc, ["c", "d", "b"])?;
    let both = first.bitand(&second);
    Ok(
        lists(&first, &["a", "b", "c"])
            && lists(&second, &["c", "d", "b"])
            && lists(&both?, &["b", "c"]),
    )
}

fn what_is_in_one_set_alone_is_cloned(alloc: Global) -> Result<bool, JsonFault> {
    let first = set_of_texts(alloc, ["a", "b", "c"])?;
    let second = set_of_texts(alloc, ["c", "d", "e"])?;
    let rest = first.sub(&second);
    Ok(
        lists(&first, &["a", "b", "c"])
            && lists(&second, &["c", "d", "e"])
            && lists(&rest?, &["a", "b"]),
    )
}

fn a_map_is_printed(alloc: Global) -> Result<bool, JsonFault> {
    let map = map_of_texts(alloc)?;
    let text = map.to_string(alloc);
    Ok(is_whole(&map) && text?.as_str() == "{a: a, b: b, c: c}")
}

fn a_set_is_printed(alloc: Global) -> Result<bool, JsonFault> {
    let set = set_of_texts(alloc, ["b", "a", "c"])?;
    let text = set.to_string(alloc);
    Ok(lists(&set, &["b", "a", "c"]) && text?.as_str() == "{b, a, c}")
}

fn a_map_is_written_as_json(alloc: Global) -> Result<bool, JsonFault> {
    let map = map_of_numbers(alloc)?;
    let text = map_to_json(alloc, &map);
    Ok(has_both(&map) && text?.as_str() == r#"{"a":1,"b":2}"#)
}

fn a_set_is_written_as_json(alloc: Global) -> Result<bool, JsonFault> {
    let set = set_of_texts(alloc, ["b", "a", "c"])?;
    let text = set_to_json(alloc, &set);
    Ok(lists(&set, &["b", "a", "c"]) && text?.as_str() == r#"["b","a","c"]"#)
}

fn a_map_is_read_from_json(alloc: Global) -> Result<bool, JsonFault> {
    let map = map_from_json::<2>(alloc, r#"{"a":1,"b":2}"#)?;
    Ok(has_both(&map))
}

fn a_set_is_read_from_json(alloc: Global) -> Result<bool, JsonFault> {
    let set = set_from_json::<2>(alloc, r#"["b","a","b"]"#)?;
    Ok(lists(&set, &["b", "a"]))
}

fn main(rt: HostRuntime) -> ExitCode {
    let ended = run(rt.alloc(), &mut rt.reader(), &mut io::writer(&rt));
    if ended.is_ok_and(|all| all) {
        ExitCode::SUCCESS
    } else {
        ExitCode::FAILURE
    }
}
