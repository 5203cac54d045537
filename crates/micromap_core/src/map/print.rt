//! Printing a map.
ghost use Rattle.micromap_core.specs.Print.{map_text};

use super::Map;
use std::fmt;
use std::fmt::Write;

/// Prints `{k: v, k: v}`, from the front. Ignores width and other flags. Ends at an error of the writer, and returns it.
impl<K: Eq + fmt::Display, V: fmt::Display, const N: usize> fmt::Display for Map<K, V, N> {
    ghost output = { map_text K.output V.output };

    ghost styled_output = { λ pairs _. map_text K.output V.output pairs };

    fn fmt<W: fmt::Write>(&self, f: &mut fmt::Formatter<W>) -> fmt::Result {
        let mut lead = "";
        f.write_str("{")?;
        for (key, value) in self {
            let mut out = Unstyled { f: &mut *f };
            write!(out, "{lead}{key}: {value}")?;
            lead = ", ";
        }
        f.write_str("}")
    }
}

// A formatter as a plain writer, which hides the formatter's options from the texts that are written to it.
#[derive(Drop)]
struct Unstyled<'a, W: fmt::Write> {
    f: &'a mut fmt::Formatter<W>,
}

impl<'a, W: fmt::Write> fmt::Write for Unstyled<'a, W> {
    ghost use Rattle.std.specs.Prelude.{◌≡◌, Ok};
    ghost use Rattle.std.specs.Fmt.{WritesStyledOnOk};

    ghost write_str_gives = { λ old text new. WritesStyledOnOk W.write_str_gives old.f.now (Ok tt) text new.f.now × (new.f.ghost_name ≡ old.f.ghost_name) };

    fn write_str(&mut self, text: &str) -> fmt::Result {
        self.f.write_str(text)
    }
}

/// The form in which Rust prints a map, from the front.
impl<K: Eq + fmt::Debug, V: fmt::Debug, const N: usize> fmt::Debug for Map<K, V, N> {
    fn fmt<W: fmt::Write>(&self, f: &mut fmt::Formatter<W>) -> fmt::Result {
        let mut out = f.debug_map();
        for (key, value) in self {
            out.entry(key, value);
        }
        out.finish()
    }
}
