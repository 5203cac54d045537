//! Words of a text as a set: by a loop that takes one after the other off its front, and by `split_whitespace`.
#![tactic(auto, using(micromap::proofs::Rules::caller))]

ghost use Rattle.std.specs.Prelude.{◌≡◌, ◌↔◌, ◌<◌, ◌∷◌, IfSome, IsNone, length, if◌then◌else◌, nat_lt};
ghost use Rattle.std.specs.Iterator.{Drains};
ghost use Rattle.std.specs.Str.{bytes_eq};
ghost use Rattle.std.specs.Str.Iter.{split_whitespace_rest, split_whitespace_steps};
ghost use Rattle.micromap.specs.Extend.{distinct, distinct_or_refuse};
ghost use Rattle.micromap.specs.Texts.{item_strs, str_eq};
ghost use Rattle.micromap_uses.specs.Words.{words};

use micromap::Set;

// Cuts a text at its first space: gives what is before it, which may be empty, and what is behind it.
#[tactic(auto, using(crate::proofs::WordLaws::words_none))]
fn cut<'a>(text: &'a str) -> (&'a str, &'a str)
    ensures words { words text.now ≡ (if nat_lt 0 (length result.0.now) then result.0.now ∷ words result.1.now else words result.1.now) }
    ensures shorter { 0 < length text.now → length result.1.now < length text.now }
{
    match text.split_once(' ') {
        Some((word, rest)) => (word, rest),
        None => (text, ""),
    }
}

/// Collects the words of a text into a set, by a loop that takes one after the other off its front.
/// It returns `None` exactly if more than 16 are distinct. The words are what stands between spaces.
#[tactic(auto, using(crate::proofs::WordLaws::set_of_words))]
pub fn words_of<'a>(text: &'a str) -> Option<Set<&'a str, 16>>
    ensures made { IfSome result (λ s. item_strs s ≡ distinct bytes_eq (words text.now)) }
    ensures refused { IsNone result ↔ (16 < length (distinct bytes_eq (words text.now))) }
{
    let mut found = Set::new();
    let mut rest = text;
    while !rest.is_empty() {
        let (word, after) = cut(rest);
        if !word.is_empty() && !found.put(word) {
            return None;
        }
        rest = after;
    }
    Some(found)
}

/// Collects the words of a text into a set, or returns `None` exactly if more than 16 are distinct.
/// The words are those that `split_whitespace` yields, which the contract names by its relation. `count_words_in` counts
/// them.
pub fn distinct_words_in<'a>(text: &'a str) -> Option<Set<&'a str, 16>>
    ensures { (split : _) × (words : _) × (split_whitespace_rest split ≡ text.now) × Drains split_whitespace_steps split words × (result ≡ distinct_or_refuse str_eq 16 words) }
{
    Set::from_all(text.split_whitespace())
}
