//! A key whose `==` reads one of its two fields, and two probes for it.
ghost use Rattle.std.specs.Prelude.{◌==◌, ◌+◌, nat_eq};
ghost use Rattle.std.specs.Ordering.{on};
ghost use Rattle.std.specs.Cmp.Rules.{comparing};
ghost use Rattle.std.proofs.Common.{rules};
ghost use Rattle.std.proofs.lemmas.Cmp.{nat_eq_equiv};
ghost use Rattle.micromap.specs.Probe.{alike, equal};

use micromap::Probe;
use std::fmt;

/// Equal by `id`; the mark tells which of two equal keys it is.
#[derive(Debug, Clone, Copy)]
pub struct Marked {
    pub id: u8,
    pub mark: char,
}

impl Marked {
    pub fn new(id: u8, mark: char) -> Self {
        Marked { id, mark }
    }

    // Both fields, which `==` of pairs tells apart.
    pub fn fields(&self) -> (u8, char) {
        (self.id, self.mark)
    }
}

impl PartialEq for Marked {
    ghost eq = { on (λ k. k.id) nat_eq };

    ghost laws = { Prim.search (comparing, rules) };

    fn eq(&self, other: &Marked) -> bool {
        self.id == other.id
    }
}

impl Eq for Marked {
    ghost laws = { Prim.search (comparing, rules) };
}

/// The id and the mark, as `3x`.
impl fmt::Display for Marked {
    fn fmt<W: fmt::Write>(&self, f: &mut fmt::Formatter<W>) -> fmt::Result {
        let Marked { id, mark } = *self;
        write!(f, "{id}{mark}")
    }
}

/// Matches the key with this id.
#[derive(Clone, Copy)]
pub struct Id(pub u8);

impl Probe<Marked> for Id {
    ghost matches = { λ p k. p.0 == k.id };

    ghost equal_keys_match_alike = { λ p x y. alike nat_eq_equiv p.0 x.id y.id };

    ghost matching_keys_are_equal = { λ p x y. equal nat_eq_equiv p.0 x.id y.id };

    fn matches(&self, key: &Marked) -> bool {
        self.0 == key.id
    }
}

/// Matches the key whose id this decimal digit stands for.
#[derive(Clone, Copy)]
pub struct Digit(pub char);

impl Probe<Marked> for Digit {
    ghost matches = { λ p k. p.0 == 48 + k.id };

    ghost equal_keys_match_alike = { Prim.search rules };

    ghost matching_keys_are_equal = { Prim.search rules };

    fn matches(&self, key: &Marked) -> bool {
        u32::from(self.0) == 48 + u32::from(key.id)
    }
}
