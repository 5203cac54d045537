//! An owned text that a contract sees as its bytes.
ghost use mathlib.Core.Path.{refl};
ghost use Rattle.std.specs.Prelude.{◌≡◌, ◌==◌, IfOk, Some, length};
ghost use Rattle.std.specs.Cmp.{partial_equiv_from_equiv};
ghost use Rattle.std.specs.Cmp.Lexicographic.{nat_list_cmp_total, nat_list_eq_equiv, slice_cmp, texts_po, texts_ties};
ghost use Rattle.std.specs.Fmt.{debug_str, styled_text};
ghost use Rattle.std.specs.Ordering.{nat_cmp};
ghost use Rattle.std.specs.Str.{bytes_eq};
ghost use Rattle.std.specs.String.{string_bytes};
ghost use Rattle.micromap_core.specs.Probe.{alike, equal};

use crate::probe::{Probe, Text};
use std::alloc::{AllocError, Global};
use std::cmp::Ordering;
use std::fmt;
use std::marker::Model;

/// An owned text, for a key, a value or an item, which a call by probe finds by `&Text(..)`. A contract sees it as its
/// bytes.
///
/// Its clone is the same value, so a map or a set of texts has the contracts of one of numbers.
///
/// ```
/// let name: TextBuf = String::from_str(alloc, "Ada")?.into();
/// assert!(rt; name.is("Ada"));
/// ```
#[derive(Drop)]
pub struct TextBuf {
    text: String,
}

impl Model for TextBuf {
    ghost use Rattle.std.specs.Prelude.{List, ℕ};
    ghost use Rattle.std.specs.String.{string_bytes};

    ghost Value = { List ℕ };

    ghost view = { λ it. string_bytes it.text };
}

impl TextBuf {
    /// Returns a copy of a text, or `Err` if memory is refused.
    pub fn new(alloc: Global, text: &str) -> Result<TextBuf, AllocError>
        ensures { IfOk result (λ new. new ≡ text.now) }
    {
        let text = String::from_str(alloc, text)?;
        Ok(TextBuf { text })
    }

    /// Returns the text as a `&str`.
    pub fn as_str(&self) -> &str
        ensures { result.now ≡ self.now }
    {
        self.text.as_str()
    }

    /// Returns the text as a `String`, without a copy.
    pub fn into_string(self) -> String
        ensures { string_bytes result ≡ self }
    {
        let TextBuf { text } = self;
        text
    }

    /// Returns the number of bytes.
    ///
    /// ```
    /// let text = TextBuf::new(alloc, "été")?;
    /// assert_eq!(rt; text.len(), 5);
    /// ```
    pub fn len(&self) -> usize
        ensures { result ≡ length self.now }
    {
        self.text.len()
    }

    /// Returns `true` if the text is empty.
    pub fn is_empty(&self) -> bool
        ensures { result ≡ (length self.now == 0) }
    {
        self.text.is_empty()
    }

    /// Returns `true` if this is the text.
    pub fn is(&self, text: &str) -> bool
        ensures { result ≡ bytes_eq self.now text.now }
    {
        self.as_str() == text
    }
}

/// The text of a `String`, without a copy.
impl From<String> for TextBuf {
    ghost from_gives = { λ text new. new ≡ string_bytes text };

    fn from(text: String) -> TextBuf {
        TextBuf { text }
    }
}

/// The text as a `String`, without a copy.
impl From<TextBuf> for String {
    ghost from_gives = { λ it text. string_bytes text ≡ it };

    fn from(it: TextBuf) -> String {
        it.into_string()
    }
}

impl Clone for TextBuf {
    ghost is_clone = { λ it new. new ≡ it };

    fn clone(&self) -> Result<TextBuf, AllocError> {
        let text = self.text.clone()?;
        Ok(TextBuf { text })
    }
}

impl PartialEq for TextBuf {
    ghost eq = { bytes_eq };

    ghost laws = { partial_equiv_from_equiv nat_list_eq_equiv };

    fn eq(&self, other: &TextBuf) -> bool {
        self.text == other.text
    }
}

impl Eq for TextBuf {
    ghost laws = { nat_list_eq_equiv };
}

/// The order of the bytes, as that of `String`.
impl PartialOrd for TextBuf {
    ghost partial_cmp = { λ x y. Some (slice_cmp nat_cmp x y) };

    ghost laws = { texts_po };

    fn partial_cmp(&self, other: &TextBuf) -> Option<Ordering> {
        Some(self.cmp(other))
    }
}

impl Ord for TextBuf {
    ghost cmp = { slice_cmp nat_cmp };

    ghost total = { nat_list_cmp_total };

    ghost matches_partial_cmp = { λ x y. refl };

    ghost matches_eq = { λ x y. texts_ties x y };

    fn cmp(&self, other: &TextBuf) -> Ordering {
        self.as_str().cmp(other.as_str())
    }
}

impl fmt::Display for TextBuf {
    ghost output = { λ it. Some it };

    ghost styled_output = { λ it style. Some (styled_text style it) };

    fn fmt<W: fmt::Write>(&self, f: &mut fmt::Formatter<W>) -> fmt::Result {
        f.pad(self.as_str())
    }
}

impl fmt::Debug for TextBuf {
    ghost debug_output = { λ it. debug_str it };

    fn fmt<W: fmt::Write>(&self, f: &mut fmt::Formatter<W>) -> fmt::Result {
        let text = self.as_str();
        fmt::Debug::fmt(&text, f)
    }
}

impl<'a> Probe<TextBuf> for Text<'a> {
    ghost matches = { λ p. bytes_eq p.0.now };

    ghost equal_keys_match_alike = { λ p x y. alike nat_list_eq_equiv p.0.now x y };

    ghost matching_keys_are_equal = { λ p x y. equal nat_list_eq_equiv p.0.now x y };

    fn matches(&self, key: &TextBuf) -> bool {
        *self.0 == *key.as_str()
    }
}
