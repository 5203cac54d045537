//! Texts as keys, items or values: owned ones (`TextBuf`, `String`), borrowed ones (`&str`), JSON and printing.
#![tactic(auto, using(micromap::proofs::Rules::caller))]

ghost use Rattle.std.specs.Prelude.{◌≡◌, ◌↔◌, ◌+◌, ◌-◌, ◌<◌, ◌^◌, [], ℕ, ℤ, IfErr, IfOk, IsFalse, IsNone, List, None, Ok, OnErr, Some, drop, filter, fold, length, map, min, not, string_bytes, unwrap_or};
ghost use Rattle.std.proofs.lemmas.Cmp.{nat_list_eq_equiv};
ghost use Rattle.std.specs.Bool.{OnTrue};
ghost use Rattle.std.specs.Borrow.{Bor};
ghost use Rattle.std.specs.Fmt.{decimal};
ghost use Rattle.std.specs.Iterator.{Drains};
ghost use Rattle.std.specs.List.{find, list_all, slice_get};
ghost use Rattle.std.specs.Map.{lookup, values_of};
ghost use Rattle.std.specs.Option.{IfSome, is_some, option_and_then, option_copied, option_map};
ghost use Rattle.std.specs.Ordering.{int_eq};
ghost use Rattle.std.specs.Set.{distinct_count};
ghost use Rattle.std.specs.Str.{bytes_eq, str_to_ascii_lowercase};
ghost use Rattle.std.specs.Str.Iter.{split_whitespace_rest, split_whitespace_steps};
ghost use Rattle.micromap.specs.Build.{counts, counts_or_refuse, put_all};
ghost use Rattle.micromap.specs.Extend.{put_all_items};
ghost use Rattle.micromap.specs.Json.{IsFault, pairs_for};
ghost use Rattle.micromap.specs.Pairs.{at, fits, has, put_if_fits, take_out};
ghost use Rattle.micromap.specs.Print.{map_text};
ghost use Rattle.micromap.specs.Probe.{alike, equal, is_str};
ghost use Rattle.micromap.specs.Same.{Same};
ghost use Rattle.micromap.specs.Texts.{key_strs, key_texts, str_eq};
ghost use Rattle.micromap.specs.declared.json.JsonFault.TheVariants.{Memory};

use micromap::json::{JsonFault, map_from_json, map_to_json};
use micromap::{Map, Probe, Set, Text, TextBuf};
use std::alloc::{AllocError, Global};

/// Sets the value at an owned text, if it fits, and returns whether it did.
/// The text is copied before it is known whether it fits. `fits_by` asks without a copy. `ages.get_by(&Text(name)).copied()`
/// reads it, and is `at bytes_eq ages.now name.now`.
pub fn set_age(
    alloc: Global,
    ages: &mut Map<TextBuf, u8, 16>,
    name: &str,
    age: u8,
) -> Result<bool, AllocError>
    ensures set { IfOk result (λ fit. (fit ≡ fits bytes_eq 16 ages.old name.now) × (ages.new ≡ put_if_fits bytes_eq 16 ages.old name.now age)) }
    ensures unchanged { OnErr result (ages.new ≡ ages.old) }
{
    let name = TextBuf::new(alloc, name)?;
    Ok(ages.put(name, age))
}

/// Removes the pair of a text, which isn't found then.
/// Of `&str` keys this is `lookup (is_str name.now) ages.new ≡ None`.
pub fn forget(ages: &mut Map<TextBuf, u8, 16>, name: &str) -> Option<u8>
    ensures old { result ≡ at bytes_eq ages.old name.now }
    ensures ages { ages.new ≡ take_out bytes_eq ages.old name.now }
    ensures gone { at bytes_eq ages.new name.now ≡ None }
{
    ages.remove_by(&Text(name))
}

/// Finds a text's value in the first of several maps with it, as of layers of settings or of scopes, the innermost first.
/// It returns `None` if no map has the text.
pub fn first_age<'a>(layers: &'a [Map<TextBuf, u32, 16>], name: &str) -> Option<&'a u32>
    ensures { option_copied result ≡ option_and_then (λ m. at bytes_eq m name.now) (find (λ m. has bytes_eq m name.now) layers.now) }
{
    for layer in layers {
        if let Some(age) = layer.get_by(&Text(name)) {
            return Some(age);
        }
    }
    None
}

/// Copies settings with others put over them, by a loop that clones each text, or returns `Ok(None)` exactly if
/// they don't all fit.
pub fn merged_settings(
    settings: &Map<TextBuf, TextBuf, 32>,
    other: &Map<TextBuf, TextBuf, 16>,
) -> Result<Option<Map<TextBuf, TextBuf, 32>>, AllocError>
    ensures merged { IfOk result (λ answer. IfSome answer (λ new. new ≡ put_all bytes_eq settings.now other.now)) }
    ensures refused { IfOk result (λ answer. IsNone answer ↔ (32 < length (put_all bytes_eq settings.now other.now))) }
{
    let mut merged = settings.clone()?;
    for (name, value) in other {
        if !merged.put(name.clone()?, value.clone()?) {
            return Ok(None);
        }
    }
    Ok(Some(merged))
}

/// Copies the texts of a list into a set, or returns `Ok(None)` exactly if more than 16 are distinct.
pub fn names_of(alloc: Global, list: &[&str]) -> Result<Option<Set<TextBuf, 16>>, AllocError>
    ensures made { IfOk result (λ answer. IfSome answer (λ new. new ≡ put_all_items bytes_eq [] (map (λ name. name.now) list.now))) }
    ensures refused { IfOk result (λ answer. IsNone answer ↔ (16 < length (put_all_items bytes_eq [] (map (λ name. name.now) list.now)))) }
{
    let mut names = Set::new();
    for name in list {
        if !names.put(TextBuf::new(alloc, *name)?) {
            return Ok(None);
        }
    }
    Ok(Some(names))
}

/// Removes the texts of a list from a map.
pub fn remove_each(ages: &mut Map<TextBuf, u8, 16>, names: &[&str])
    ensures { ages.new ≡ fold (λ m (name : Bor (List ℕ)). take_out bytes_eq m name.now) ages.old names.now }
{
    for name in names {
        ages.remove_by(&Text(*name));
    }
}

/// Counts a `&str` key, up to the greatest number, if it fits.
/// The kit's borrow checker doesn't cover an entry of a map with `&str` keys.
pub fn count_word<'a>(counts: &mut Map<&'a str, u32, 8>, word: &'a str) -> bool
    ensures answer { result ≡ fits str_eq 8 counts.old word.entry }
    ensures counts { counts.new ≡ put_if_fits str_eq 8 counts.old word.entry (min (unwrap_or (at str_eq counts.old word.entry) 0 + 1) (2 ^ 32 - 1)) }
{
    match counts.get_mut(&word) {
        Some(count) => {
            *count = count.saturating_add(1);
            true
        }
        None => counts.put(word, 1),
    }
}

// What `count_words` returns, in the word of `counts_of`.
fn all_counts<'a>(words: &[&'a str]) -> Option<Map<&'a str, usize, 64>>
    ensures { result ≡ counts_or_refuse str_eq 64 words.now }
{
    Map::counts_of(words.iter().map(|word| *word))
}

/// Counts how often each word of a list comes, or returns `None` exactly if there are more than 64 distinct ones.
pub fn count_words<'a>(words: &[&'a str]) -> Option<Map<&'a str, usize, 64>>
    ensures counted { IfSome result (λ m. m ≡ counts str_eq words.now) }
    ensures refused { IsNone result ↔ (64 < distinct_count str_eq words.now) }
{
    all_counts(words)
}

/// Counts how often each word of a text comes, or returns `None` if there are more than 64 distinct ones.
/// The words are those that `split_whitespace` yields.
pub fn count_words_in<'a>(text: &'a str) -> Option<Map<&'a str, usize, 64>>
    ensures { (split : _) × (words : _) × (split_whitespace_rest split ≡ text.now) × Drains split_whitespace_steps split words × (result ≡ counts_or_refuse str_eq 64 words) }
{
    Map::counts_of(text.split_whitespace())
}

// Returns whether all of these words are keys.
fn are_keys(needs: &Map<&str, Set<&str, 2>, 32>, words: &Set<&str, 2>) -> bool
    ensures { result ≡ list_all (λ word. is_some (lookup (is_str word.now) needs.now)) words.now }
{
    words.iter().all(|word| needs.contains_key_by(&Text(*word)))
}

/// Returns whether all words of a map's sets are its keys.
/// The inner of the two chains is a function. The type is written out, with its lifetimes left out.
pub fn names_its_keys(needs: &Map<&str, Set<&str, 2>, 32>) -> bool
    ensures { result ≡ list_all (list_all (λ word. is_some (lookup (is_str word.now) needs.now))) (values_of needs.now) }
{
    needs.values().all(|words| are_keys(needs, words))
}

/// Puts a map with `&str` keys over another, all or nothing.
/// It returns `false`, and nothing changes, exactly if they don't all fit.
pub fn overlay<'a>(settings: &mut Map<&'a str, u32, 32>, other: &Map<&'a str, u32, 16>) -> bool
    ensures put { OnTrue result (key_strs settings.new ≡ put_all bytes_eq (key_strs settings.old) (key_strs other.now)) }
    ensures unchanged { IsFalse result → settings.new ≡ settings.old }
    ensures refused { IsFalse result ↔ (32 < length (put_all bytes_eq (key_strs settings.old) (key_strs other.now))) }
{
    settings.try_extend_from(other).is_ok()
}

/// Removes the `String` keys that are in a list.
/// The closure has a chain of its own, so it says what it returns.
pub fn drop_named(settings: &mut Map<String, String, 32>, names: &[&str])
    ensures { settings.new ≡ filter (λ p. list_all (λ name. not (bytes_eq name.now (string_bytes p.0))) names.now) settings.old }
{
    settings.retain(
        |key: &String, value: &mut String| -> bool
            ensures answer { result ≡ list_all (λ name. not (bytes_eq name.now (string_bytes key.now))) names.entry.now }
            ensures same { value.new ≡ value.old }
        { names.iter().all(|name| *name != key.as_str()) },
    );
}

/// Numbers by name, which can be cloned.
/// A map with `String` keys hasn't the trait `Clone`, so this impl isn't derived.
#[derive(Drop)]
pub struct Layer {
    /// The numbers by name.
    pub numbers: Map<String, i64, 16>,
}

/// The clone has the same names, by their bytes, with the same numbers, in the same order.
impl Clone for Layer {
    ghost is_clone = { λ layer new. key_texts new.numbers ≡ key_texts layer.numbers };

    fn clone(&self) -> Result<Layer, AllocError> {
        let numbers = self.numbers.clone()?;
        Ok(Layer { numbers })
    }
}

/// Removes the first of the `String` keys, as of a queue, and returns its value.
pub fn next_number(numbers: &mut Map<String, i64, 16>) -> Option<i64>
    ensures number { result ≡ option_map (λ p. p.1) (slice_get (key_texts numbers.old) 0) }
    ensures rest { key_texts numbers.new ≡ drop 1 (key_texts numbers.old) }
{
    let (_, number) = numbers.pop_first()?;
    Some(number)
}

/// Reads a map with owned texts as keys from JSON, or says what is wrong with it.
pub fn numbers_from_json(alloc: Global, text: &str) -> Result<Map<TextBuf, i64, 16>, JsonFault>
    ensures numbers { IfOk result (λ numbers. pairs_for 16 text.now ≡ Ok numbers) }
    ensures fault { IfErr result (IsFault (pairs_for 16 text.now)) }
{
    let numbers: Map<String, i64, 16> = map_from_json(alloc, text)?;
    Ok(numbers.into_text_bufs())
}

/// Writes a map with owned texts as keys as JSON, which is read back as the same map.
pub fn numbers_to_json(alloc: Global, numbers: Map<TextBuf, i64, 16>) -> Result<String, JsonFault>
    ensures text { IfOk result (λ text. (read : List (List ℕ × ℤ)) × (pairs_for 16 (string_bytes text) ≡ Ok read) × Same bytes_eq int_eq read numbers) }
    ensures fault { IfErr result (λ fault. fault ≡ Memory) }
{
    let numbers = numbers.into_strings();
    map_to_json(alloc, &numbers)
}

/// Prints a map of numbers into a text.
pub fn text_of_amounts(alloc: Global, amounts: &Map<u8, u8, 16>) -> Result<String, AllocError>
    ensures { IfOk result (λ text. map_text (λ key. Some (decimal key)) (λ value. Some (decimal value)) amounts.now ≡ Some (string_bytes text)) }
{
    format!(in alloc; "{amounts}")
}

/// Matches the key that is this text in lowercase.
/// Two keys that match one probe must be equal. So the keys are in lowercase, and the probe folds only its text.
#[derive(Clone, Copy)]
pub struct AnyCase<'a>(pub &'a str);

impl<'a> Probe<TextBuf> for AnyCase<'a> {
    ghost matches = { λ p. bytes_eq (str_to_ascii_lowercase p.0.now) };

    ghost equal_keys_match_alike = { λ p x y. alike nat_list_eq_equiv (str_to_ascii_lowercase p.0.now) x y };

    ghost matching_keys_are_equal = { λ p x y. equal nat_list_eq_equiv (str_to_ascii_lowercase p.0.now) x y };

    fn matches(&self, key: &TextBuf) -> bool {
        is_folded(self.0.as_bytes(), key.as_str().as_bytes())
    }
}

// Whether the second text is the first in lowercase. By `eq` of two chains the search finds no proof.
fn is_folded(text: &[u8], folded: &[u8]) -> bool
    ensures { result ≡ bytes_eq (str_to_ascii_lowercase text.now) folded.now }
{
    match (text, folded) {
        ([], []) => true,
        ([byte, text @ ..], [small, folded @ ..]) => {
            byte.to_ascii_lowercase() == *small && is_folded(text, folded)
        }
        _ => false,
    }
}

/// Finds a value by a text in any case, as of a header, where keys are in lowercase.
pub fn age_of(ages: &Map<TextBuf, u8, 16>, name: &str) -> Option<u8>
    ensures { result ≡ at bytes_eq ages.now (str_to_ascii_lowercase name.now) }
{
    ages.get_by(&AnyCase(name)).copied()
}
