//! Sets of owned texts: from `String` to [`TextBuf`] and back.
ghost use Rattle.std.specs.Prelude.{◌≡◌};
ghost use Rattle.std.specs.Str.{bytes_eq};
ghost use Rattle.std.specs.String.{string_eq};
ghost use Rattle.micromap.specs.Items.{IsItems};
ghost use Rattle.micromap.specs.Texts.{item_texts};

use super::Set;
use micromap_core::TextBuf;

impl<const N: usize> Set<String, N> {
    /// Returns this set with each item as a `TextBuf`, in the same order. Moves each item once, and takes no memory.
    pub fn into_text_bufs(self) -> Set<TextBuf, N>
        ensures answer { result ≡ item_texts self.entry }
        ensures content { IsItems bytes_eq N result }
    {
        let Set { map } = self;
        Set {
            map: map.into_text_bufs(),
        }
    }
}

impl<const N: usize> Set<TextBuf, N> {
    /// Returns this set with each item as a `String`, in the same order. Moves each item once, and takes no memory.
    pub fn into_strings(self) -> Set<String, N>
        ensures answer { item_texts result ≡ self.entry }
        ensures content { IsItems string_eq N result }
    {
        let Set { map } = self;
        Set {
            map: map.into_strings(),
        }
    }
}
