//! Maps whose keys are owned texts: from `String` to [`TextBuf`] and back.
ghost use Rattle.std.specs.Prelude.{◌≡◌};
ghost use Rattle.std.specs.Str.{bytes_eq};
ghost use Rattle.std.specs.String.{string_eq};
ghost use Rattle.micromap_core.specs.Pairs.{IsContent};
ghost use Rattle.micromap_core.specs.Texts.{key_texts};

use super::Map;
use crate::text_buf::TextBuf;

impl<V: Drop, const N: usize> Map<String, V, N> {
    /// Returns this map with each key as a `TextBuf`, in the same order. Moves each key once, and takes no memory.
    ///
    /// ```
    /// let mut ages: Map<String, u8, 2> = Map::new();
    /// ages.put(String::from_str(alloc, "Ada")?, 36);
    /// let ages: Map<TextBuf, u8, 2> = ages.into_text_bufs();
    /// assert_eq!(rt; ages.get_by(&Text("Ada")), Some(&36));
    /// ```
    pub fn into_text_bufs(self) -> Map<TextBuf, V, N>
        ensures answer { result ≡ key_texts self }
        ensures content { IsContent bytes_eq N result }
    {
        let Map { pairs: strings } = self;
        Map {
            pairs: strings.converted_keys(),
        }
    }
}

impl<V: Drop, const N: usize> Map<TextBuf, V, N> {
    /// Returns this map with each key as a `String`, in the same order. Moves each key once, and takes no memory.
    pub fn into_strings(self) -> Map<String, V, N>
        ensures answer { key_texts result ≡ self }
        ensures content { IsContent string_eq N result }
    {
        let Map { pairs: texts } = self;
        Map {
            pairs: texts.converted_keys(),
        }
    }
}
