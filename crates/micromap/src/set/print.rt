//! Printing a set.
ghost use Rattle.micromap.specs.Print.{set_text};

use super::Set;
use std::fmt;

/// Prints `{a, b}`, from the front. Passes width and other flags to the items. Ends at an error of the writer, and
/// returns it.
impl<T: Eq + fmt::Display, const N: usize> fmt::Display for Set<T, N> {
    ghost output = { set_text T.output };

    ghost styled_output = { λ items spec. set_text (λ x. T.styled_output x spec) items };

    fn fmt<W: fmt::Write>(&self, f: &mut fmt::Formatter<W>) -> fmt::Result {
        let mut lead = "";
        f.write_str("{")?;
        for item in self {
            f.write_str(lead)?;
            item.fmt(f)?;
            lead = ", ";
        }
        f.write_str("}")
    }
}

/// The form in which Rust prints a set, from the front.
impl<T: Eq + fmt::Debug, const N: usize> fmt::Debug for Set<T, N> {
    fn fmt<W: fmt::Write>(&self, f: &mut fmt::Formatter<W>) -> fmt::Result {
        f.debug_set().entries(self).finish()
    }
}
