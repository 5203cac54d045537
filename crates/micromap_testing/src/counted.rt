//! Elements that count their comparisons, clones and drops, and the clone of one of which fails.
ghost use Rattle.std.specs.Prelude.{◌≡◌, nat_eq};
ghost use Rattle.std.specs.Cmp.Rules.{comparing};
ghost use Rattle.std.specs.Iterator.{IsFinite};
ghost use Rattle.std.specs.Ordering.{on};
ghost use Rattle.std.proofs.Common.{rules};

use micromap::{Map, Set};
use std::alloc::AllocError;
use std::cell::Cell;

/// What was done with the elements that refer to it.
#[derive(Drop)]
pub struct Counts {
    pub comparisons: Cell<u32>,
    pub clones: Cell<u32>,
    pub drops: Cell<u32>,
    failing: Option<u8>,
}

impl Counts {
    pub fn new() -> Self {
        Counts {
            comparisons: Cell::new(0),
            clones: Cell::new(0),
            drops: Cell::new(0),
            failing: None,
        }
    }

    /// The clone of an element with this id fails.
    pub fn with_failing(id: u8) -> Self {
        Counts {
            comparisons: Cell::new(0),
            clones: Cell::new(0),
            drops: Cell::new(0),
            failing: Some(id),
        }
    }
}

/// Equal by `id`.
pub struct Counted<'a> {
    pub id: u8,
    counts: &'a Counts,
}

impl<'a> Counted<'a> {
    pub fn new(id: u8, counts: &'a Counts) -> Self {
        Counted { id, counts }
    }
}

impl Drop for Counted<'_> {
    fn drop(self) {
        let Self { id: _id, counts } = self;
        count(&counts.drops);
    }
}

impl PartialEq for Counted<'_> {
    ghost eq = { on (λ k. k.id) nat_eq };

    ghost laws = { Prim.search (comparing, rules) };

    fn eq(&self, other: &Counted<'_>) -> bool {
        count(&self.counts.comparisons);
        self.id == other.id
    }
}

impl Eq for Counted<'_> {
    ghost laws = { Prim.search (comparing, rules) };
}

impl Clone for Counted<'_> {
    ghost is_clone = { λ x y. y ≡ x };

    fn clone(&self) -> Result<Self, AllocError> {
        if self.counts.failing == Some(self.id) {
            return Err(AllocError);
        }
        count(&self.counts.clones);
        Ok(Counted {
            id: self.id,
            counts: self.counts,
        })
    }
}

fn count(number: &Cell<u32>) {
    number.set(number.get().wrapping_add(1));
}

/// A set of these ids.
pub fn counted_set<const N: usize>(ids: [u8; N], counts: &Counts) -> Set<Counted<'_>, N> {
    let mut set = Set::new();
    for id in ids {
        set.checked_insert(Counted::new(id, counts));
    }
    set
}

/// A map of these ids, each its own value.
pub fn counted_map<const N: usize>(
    ids: [u8; N],
    counts: &Counts,
) -> Map<Counted<'_>, Counted<'_>, N> {
    let mut map = Map::new();
    for id in ids {
        map.checked_insert(Counted::new(id, counts), Counted::new(id, counts));
    }
    map
}

/// Whether the iterator yields as many items as these are, but at most three, and this many elements have been dropped
/// with it and with its items.
pub fn drops_all<I: Iterator>(iterator: I, items: usize, counts: &Counts, drops: u32) -> bool
where
    I::Item: Drop,
    requires can { I.can_next iterator }
    requires ends { IsFinite (I.remaining iterator) }
{
    taken(iterator, items) == items.min(3) && counts.drops.replace(0) == drops
}

// Takes the first items, and returns how many there were.
fn taken<I: Iterator>(mut walk: I, items: usize) -> usize
where
    I::Item: Drop,
    requires can { I.can_next walk }
    requires ends { IsFinite (I.remaining walk) }
{
    for number in 0..items {
        if walk.next().is_none() {
            return number;
        }
    }
    items
}
