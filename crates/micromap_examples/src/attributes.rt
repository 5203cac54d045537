//! The attributes of an element: names with their values, in the order in which they came.
//!
//! A contract sees the list by the bytes of its texts.
ghost use Rattle.std.specs.Prelude.{◌≡◌, if◌then◌else◌, IfErr, IfOk, Some};
ghost use Rattle.std.specs.Option.{option_map_or, unwrap_or};
ghost use Rattle.std.specs.String.{string_bytes};
ghost use Rattle.micromap.specs.Pairs.{at, fits, has, put, take_out};
ghost use Rattle.micromap.specs.Print.{map_text};
ghost use Rattle.std.specs.Str.{bytes_eq};
ghost use Rattle.micromap.specs.Texts.{texts};

use micromap::{Map, Text};
use std::alloc::{AllocError, Global};

/// The attributes of one element.
pub type Attributes<const N: usize> = Map<String, String, N>;

/// Sets an attribute, at its index or at the end, and returns whether there was room for it.
pub fn set<const N: usize>(
    alloc: Global,
    list: &mut Attributes<N>,
    name: &str,
    value: &str,
) -> Result<bool, AllocError>
    ensures answer { IfOk result (λ fit. fit ≡ fits bytes_eq N (texts list.old) name.now) }
    ensures list { IfOk result (λ fit. texts list.new ≡ (if fit then put bytes_eq (texts list.old) name.now value.now else texts list.old)) }
    ensures unchanged { IfErr result (λ _. list.new ≡ list.old) }
{
    let name = String::from_str(alloc, name)?;
    let value = String::from_str(alloc, value)?;
    Ok(list.put(name, value))
}

/// Returns the value of an attribute, or the default.
pub fn value_or<'a, const N: usize>(
    list: &'a Attributes<N>,
    name: &str,
    default: &'a str,
) -> &'a str
    ensures { result.now ≡ unwrap_or (at bytes_eq (texts list.now) name.now) default.now }
{
    match list.get_by(&Text(name)) {
        Some(value) => value.as_str(),
        None => default,
    }
}

/// Moves the value of one attribute to another name, which stands at its index or at the end, and returns whether there
/// was such a value.
pub fn rename<const N: usize>(list: &mut Attributes<N>, from: &str, to: String) -> bool
    ensures answer { result ≡ has bytes_eq (texts list.old) from.now }
    ensures list { texts list.new ≡ option_map_or (put bytes_eq (take_out bytes_eq (texts list.old) from.now) (string_bytes to)) (at bytes_eq (texts list.old) from.now) (texts list.old) }
{
    match list.remove_by(&Text(from)) {
        Some(value) => {
            list.insert(to, value);
            true
        }
        None => false,
    }
}

/// Removes an attribute, and returns whether it was there.
pub fn remove<const N: usize>(list: &mut Attributes<N>, name: &str) -> bool
    ensures answer { result ≡ has bytes_eq (texts list.old) name.now }
    ensures list { texts list.new ≡ take_out bytes_eq (texts list.old) name.now }
{
    list.remove_by(&Text(name)).is_some()
}

/// Returns the text of the list, as `{name: value, name: value}`.
pub fn text<const N: usize>(alloc: Global, list: &Attributes<N>) -> Result<String, AllocError>
    ensures { IfOk result (λ text. map_text (λ name. Some name) (λ value. Some value) (texts list.now) ≡ Some (string_bytes text)) }
{
    format!(in alloc; "{list}")
}
