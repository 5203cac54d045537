//! Writing a map as an object, and a set as an array.
ghost use Rattle.std.specs.Prelude.{◌≡◌, ℕ, ◌≤◌, length, IfOk, IfErr, Ok, Some, string_bytes};
ghost use Rattle.serde_json.specs.Data.{array, number, object};
ghost use Rattle.serde_json.specs.Find.{of_integer};
ghost use Rattle.serde_json.specs.Read.{read};
ghost use Rattle.serde_json.specs.View.{view};
ghost use Rattle.serde_json.specs.Written.{compact_text};
ghost use Rattle.micromap.specs.Json.{HasPairs, elements, members, texts_for, whole_number};
ghost use Rattle.micromap.specs.Texts.{item_texts};
ghost use Rattle.micromap.specs.declared.json.JsonFault.TheVariants.{Memory};

use super::JsonFault;
use crate::{Map, Set};
use serde_json::Value;
use std::alloc::Global;

/// Returns the object of the map's pairs as text, with no white space between its parts.
///
/// The members are in the order of their names, compared as bytes. Allocates memory for a copy of each key and for the
/// text.
///
/// ```
/// let mut ages: Map<String, i64, 2> = Map::new();
/// ages.put(String::from_str(alloc, "Ada")?, 36);
/// assert_eq!(rt; map_to_json(alloc, &ages)?.as_str(), r#"{"Ada":36}"#);
/// ```
pub fn map_to_json<const N: usize>(
    alloc: Global,
    map: &Map<String, i64, N>,
) -> Result<String, JsonFault>
    ensures object { IfOk result (λ text. (M : ℕ) → length map.now ≤ M
        → HasPairs M (string_bytes text) map.now) }
    ensures text { IfOk result (λ text. string_bytes text ≡ compact_text (object (members map.now))) }
    ensures fault { IfErr result (λ fault. fault ≡ Memory) }
{
    let mut members = serde_json::Map::new(alloc);
    for (name, value) in map {
        serde_json::put(&mut members, alloc, name.as_str(), value_of(*value))?;
    }
    Ok(Value::Object(members).to_string(alloc)?)
}

/// Returns the array of the set's items as text, from front to end, with no white space between its parts.
///
/// Allocates memory for a copy of each item and for the text.
///
/// ```
/// let mut seen: Set<String, 2> = Set::new();
/// seen.put(String::from_str(alloc, "foo")?);
/// assert_eq!(rt; set_to_json(alloc, &seen)?.as_str(), r#"["foo"]"#);
/// ```
pub fn set_to_json<const N: usize>(alloc: Global, set: &Set<String, N>) -> Result<String, JsonFault>
    ensures array { IfOk result (λ text. read (string_bytes text) ≡ Some (array (elements set.now))) }
    ensures again { IfOk result (λ text. (M : ℕ) → length set.now ≤ M
        → texts_for M (string_bytes text) ≡ Ok (item_texts set.now)) }
    ensures text { IfOk result (λ text. string_bytes text ≡ compact_text (array (elements set.now))) }
    ensures fault { IfErr result (λ fault. fault ≡ Memory) }
{
    let mut elements = Vec::new(alloc);
    for text in set {
        serde_json::push(&mut elements, Value::try_from_str(alloc, text.as_str())?)?;
    }
    Ok(Value::Array(elements).to_string(alloc)?)
}

// The whole number as a value.
fn value_of(n: i64) -> Value
    ensures value { view result ≡ number (of_integer n) }
    ensures whole { whole_number (view result) ≡ Some n }
{
    Value::from(n)
}
