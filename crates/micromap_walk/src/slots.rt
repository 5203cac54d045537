//! The slots in which a map keeps its keys, and those in which it keeps its values. A slot is an `Option`, and each is
//! filled.
#![tactic(auto, using(crate::proofs::Opened::opened_slots))]

ghost use Rattle.std.specs.Prelude.{◌≡◌, ◌-◌, ◌<◌, ◌≤◌, [], ◌∷◌, ◌++◌, length, take, Some, slice_get, slice_index_or};
ghost use Rattle.std.specs.Borrow.{sem};
ghost use Rattle.std.specs.List.{remove, swap, AllZip};
ghost use Rattle.micromap_walk.specs.Lends.{lends_item_at};
ghost use Rattle.micromap_walk.specs.Filled.{items_of, AreFilled};

mod columns;

use crate::hint;
use crate::slot::{into_item, item_of, item_of_mut};
use arrayvec::ArrayVec;
pub use columns::Columns;
use std::marker::Model;
use std::mem;

/// A list of at most `N` items. A contract sees it as that list, from front to end.
#[derive(Drop)]
pub(crate) struct Slots<T, const N: usize> {
    slots: ArrayVec<Option<T>, N>,
}

impl<T, const N: usize> Model for Slots<T, N> {
    ghost use Rattle.std.specs.Prelude.{List};
    ghost use Rattle.micromap_walk.specs.Filled.{items_of, AreFilled};

    ghost Value = { List T };

    ghost view = { λ s. items_of s.slots.items };

    ghost invariant = { λ s. AreFilled s.slots.items };
}

impl<T, const N: usize> Slots<T, N> {
    /// Returns the number of items.
    #[inline]
    pub(crate) fn len(&self) -> usize
        ensures answer { result ≡ length self.now }
        ensures bounded { length self.now ≤ N }
    {
        self.slots.len()
    }

    /// Returns the slots, all of which are filled.
    #[inline]
    pub(crate) fn as_slice(&self) -> &[Option<T>]
        ensures filled { AreFilled result.now }
        ensures items { items_of result.now ≡ self.now }
    {
        self.slots.as_slice()
    }

    /// Returns the slots by value, all of which are filled.
    #[inline]
    pub(crate) fn into_array_vec(self) -> ArrayVec<Option<T>, N>
        ensures filled { AreFilled result.items }
        ensures items { items_of result.items ≡ self }
    {
        let Slots { slots } = self;
        slots
    }

    /// Returns a reference to the item at `index`.
    #[inline]
    pub(crate) fn item_at(&self, index: usize) -> &T
        requires { index < length self.now }
        ensures { slice_get self.now index ≡ Some result.now }
    {
        item_of(&self.slots.as_slice()[index])
    }

    /// Returns a mutable reference to the item at `index`.
    #[inline]
    pub(crate) fn item_at_mut(&mut self, index: usize) -> &mut T
        requires { index < length self.old }
        ensures* writes_back { sem 𝓛 (lends_item_at T.row N.row self.entry index result) }
        ensures answer { slice_get self.old index ≡ Some result.now }
    {
        match self.slots.get_mut(index) {
            Some(slot) => item_of_mut(slot),
            None => unreachable!(),
        }
    }

    /// Swaps two items.
    #[inline]
    pub(crate) fn swap(&mut self, a: usize, b: usize)
        requires a_in_bounds { a < length self.old }
        requires b_in_bounds { b < length self.old }
        ensures { self.new ≡ swap self.old a b }
    {
        self.slots.as_mut_slice().swap(a, b);
    }
}

impl<T: Copy, const N: usize> Slots<T, N> {
    /// Returns the same items in slots of their own. The list must be full: its slots are copied as one array.
    #[inline]
    pub(crate) fn copied_full(&self) -> Self
        requires { length self.now ≡ N }
        ensures { result ≡ self.now }
    {
        match self.slots.as_slice().as_array::<N>().copied() {
            Some(array) => Slots {
                slots: ArrayVec::from(array),
            },
            None => unreachable!(),
        }
    }
}

impl<T: Drop, const N: usize> Slots<T, N> {
    /// Removes and drops the last item.
    #[inline]
    pub(crate) fn drop_last(&mut self)
        requires { 0 < length self.old }
        ensures { self.new ≡ take (length self.old - 1) self.old }
    {
        let _last = into_item(self.slots.pop());
    }

    /// Returns the same items in `M` slots. Moves each once.
    #[inline]
    pub(crate) fn into_capacity<const M: usize>(self) -> Slots<T, M>
        requires { length self ≤ M }
        ensures { result ≡ self }
    {
        let mut filled = self.into_array_vec();
        let mut slots = ArrayVec::new();
        for slot in filled.drain(..) {
            slots.push(slot);
        }
        Slots { slots }
    }

    /// Returns what each item is converted into, in the same order.
    #[inline]
    pub(crate) fn converted<U: From<T> + Drop>(self) -> Slots<U, N>
        ensures { AllZip U.from_gives self result }
    {
        // There are at most `N` items, for the contract: `len` ensures it.
        let _known = self.len();
        let mut filled = self.into_array_vec();
        let mut slots = ArrayVec::new();
        for slot in filled.drain(..) {
            slots.push(Some(U::from(into_item(slot))));
        }
        Slots { slots }
    }

    /// Inserts an item last.
    #[inline]
    pub(crate) fn push(&mut self, item: T)
        requires { length self.old < N }
        ensures { self.new ≡ self.old ++ item ∷ [] }
    {
        hint::below(self.slots.len(), N);
        self.slots.push(Some(item));
    }

    /// Removes and returns the item at `index`. Those behind it move up by one.
    #[inline]
    pub(crate) fn remove(&mut self, index: usize) -> T
        requires { index < length self.old }
        ensures answer { slice_get self.old index ≡ Some result }
        ensures items { self.new ≡ remove self.old index }
    {
        into_item(remove_slot(&mut self.slots, index))
    }

    /// Removes and drops every item.
    #[inline]
    pub(crate) fn clear(&mut self)
        ensures { self.new ≡ [] }
    {
        self.slots.clear();
    }
}

// Removes and returns the slot at `index`. Those behind it move up by one: the last is carried from the back to the gap.
#[inline]
fn remove_slot<T: Drop, const N: usize>(
    slots: &mut ArrayVec<Option<T>, N>,
    index: usize,
) -> Option<T>
    requires { index < length slots.old.items }
    ensures value { result ≡ slice_index_or slots.old.items index result }
    ensures items { slots.new.items ≡ remove slots.old.items index }
{
    let mut carried = into_item(slots.pop());
    let rest = slots.as_mut_slice();
    for at in (index..rest.len()).rev() {
        mem::swap(&mut rest[at], &mut carried);
    }
    carried
}
