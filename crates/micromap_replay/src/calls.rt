//! The calls of the language, on one map, on two, and on two sets, and how they are read from a line.
//!
//! A line has the name of a call and then the fields of its variant, as `get_mut 3x 10`. A call on one of two maps or
//! sets has `a` or `b` before its name, and one on both is that of `a` with `b`. Sums and products wrap around.
ghost use Rattle.std.specs.Prelude.{◌<◌};

use crate::words::{Fault, Words};
use micromap_testing::Marked;
use std::alloc::Global;

/// One of the two maps or sets of a case.
#[derive(Clone, Copy)]
pub enum Side {
    A,
    B,
}

impl Side {
    // The side of this name.
    fn named(name: &str) -> Option<Side> {
        match name {
            "a" => Some(Side::A),
            "b" => Some(Side::B),
            _ => None,
        }
    }
}

/// The ids that leave one rest by one modulus, which isn't 0.
#[derive(Clone, Copy)]
pub struct Residue {
    modulus: u32,
    rest: u32,
    ghost divides: { 0 < modulus },
}

impl Residue {
    /// Whether the id is one of them.
    pub fn contains(&self, id: u8) -> bool {
        u32::from(id) % self.modulus == self.rest
    }

    // Reads the modulus and the rest.
    fn read(words: &mut Words<'_>) -> Result<Residue, Fault> {
        let (modulus, rest) = (words.read()?, words.read()?);
        if modulus == 0 {
            return Err(Fault::Unreadable);
        }
        Ok(Residue { modulus, rest })
    }
}

/// A call on a map.
#[derive(Drop)]
pub enum MapCall {
    Keyed(KeyedCall),
    Entry(EntryCall),
    Whole(WholeCall),
}

/// A call that names its key.
#[derive(Clone, Copy)]
pub enum KeyedCall {
    Insert(Marked, i32),
    InsertKeyValue(Marked, i32),
    CheckedInsert(Marked, i32),
    Get(Marked),
    GetKeyValue(Marked),
    ContainsKey(Marked),
    /// Adds the amount to the value, and answers the new value, if any.
    GetMut(Marked, i32),
    Remove(Marked),
    RemoveEntry(Marked),
    Index(Marked),
}

/// A call of the entry of its key.
///
/// Those of an occupied or a vacant entry answer `vacant` or `occupied` at an entry of the other kind, and change nothing.
#[derive(Clone, Copy)]
pub enum EntryCall {
    /// Answers the value that is stored then.
    OrInsert(Marked, i32),
    /// Adds the amount to a stored value, and then is `or_insert`.
    AndModifyOrInsert(Marked, i32, i32),
    /// Answers the pair that is stored then.
    InsertEntry(Marked, i32),
    OccupiedInsert(Marked, i32),
    OccupiedRemove(Marked),
    OccupiedRemoveEntry(Marked),
    VacantInsert(Marked, i32),
    VacantIntoKey(Marked),
}

/// A call on all pairs, or on several. Those from `Iter` to `Drain` answer the list of what the iterator yields.
#[derive(Drop)]
pub enum WholeCall {
    Len,
    IsEmpty,
    Clear,
    /// Keeps the ids that leave this rest by this modulus.
    RetainId(Residue),
    /// Keeps the values that are at least this.
    RetainValue(i32),
    DoubleAll,
    /// Adds the amount to the first key's value, twice the amount to the second's, and three times the amount to the
    /// third's. Answers for each key whether it is stored.
    AddDisjoint(i32, [Marked; 3]),
    Iter,
    Keys,
    Values,
    /// Is called on a clone.
    IntoIter,
    Drain,
    /// Answers `ok`. The clone takes the map's place.
    Clone,
    /// Prints the map in its order. The recorded calls print none of more than one pair.
    Display,
    /// Answers `ok`. The new map takes the old one's place.
    FromIter(Vec<(Marked, i32)>),
}

/// A call on two maps. On one of them only `insert` and `remove` are read.
#[derive(Clone, Copy)]
pub enum MapsCall {
    One(Side, KeyedCall),
    Eq,
}

impl MapCall {
    /// Reads a call on a map.
    pub fn read(alloc: Global, line: &str) -> Result<MapCall, Fault> {
        let (name, mut words) = Words::after_name(line);
        let call = if let Some(call) = KeyedCall::read(name, &mut words)? {
            MapCall::Keyed(call)
        } else if let Some(call) = EntryCall::read(name, &mut words)? {
            MapCall::Entry(call)
        } else {
            MapCall::Whole(WholeCall::read(alloc, name, &mut words)?)
        };
        words.end()?;
        Ok(call)
    }
}

impl KeyedCall {
    // Reads the keyed call of this name, or returns `None` if there is none.
    fn read(name: &str, words: &mut Words<'_>) -> Result<Option<KeyedCall>, Fault> {
        Ok(Some(match name {
            "insert" => KeyedCall::Insert(words.read()?, words.read()?),
            "insert_key_value" => KeyedCall::InsertKeyValue(words.read()?, words.read()?),
            "checked_insert" => KeyedCall::CheckedInsert(words.read()?, words.read()?),
            "get" => KeyedCall::Get(words.read()?),
            "get_key_value" => KeyedCall::GetKeyValue(words.read()?),
            "contains_key" => KeyedCall::ContainsKey(words.read()?),
            "get_mut" => KeyedCall::GetMut(words.read()?, words.read()?),
            "remove" => KeyedCall::Remove(words.read()?),
            "remove_entry" => KeyedCall::RemoveEntry(words.read()?),
            "index" => KeyedCall::Index(words.read()?),
            _ => return Ok(None),
        }))
    }
}

impl EntryCall {
    // Reads the entry's call of this name, or returns `None` if there is none.
    fn read(name: &str, words: &mut Words<'_>) -> Result<Option<EntryCall>, Fault> {
        Ok(Some(match name {
            "or_insert" => EntryCall::OrInsert(words.read()?, words.read()?),
            "and_modify_or_insert" => {
                EntryCall::AndModifyOrInsert(words.read()?, words.read()?, words.read()?)
            }
            "insert_entry" => EntryCall::InsertEntry(words.read()?, words.read()?),
            "occupied_insert" => EntryCall::OccupiedInsert(words.read()?, words.read()?),
            "occupied_remove" => EntryCall::OccupiedRemove(words.read()?),
            "occupied_remove_entry" => EntryCall::OccupiedRemoveEntry(words.read()?),
            "vacant_insert" => EntryCall::VacantInsert(words.read()?, words.read()?),
            "vacant_into_key" => EntryCall::VacantIntoKey(words.read()?),
            _ => return Ok(None),
        }))
    }
}

impl WholeCall {
    // Reads the call of this name on all pairs, or on several.
    fn read(alloc: Global, name: &str, words: &mut Words<'_>) -> Result<WholeCall, Fault> {
        Ok(match name {
            "len" => WholeCall::Len,
            "is_empty" => WholeCall::IsEmpty,
            "clear" => WholeCall::Clear,
            "retain_id" => WholeCall::RetainId(Residue::read(words)?),
            "retain_value" => WholeCall::RetainValue(words.read()?),
            "double_all" => WholeCall::DoubleAll,
            "add_disjoint" => {
                let amount = words.read()?;
                WholeCall::AddDisjoint(amount, [words.read()?, words.read()?, words.read()?])
            }
            "iter" => WholeCall::Iter,
            "keys" => WholeCall::Keys,
            "values" => WholeCall::Values,
            "into_iter" => WholeCall::IntoIter,
            "drain" => WholeCall::Drain,
            "clone" => WholeCall::Clone,
            "display" => WholeCall::Display,
            "from_iter" => WholeCall::FromIter(words.read_all(alloc)?),
            _ => return Err(Fault::Unreadable),
        })
    }
}

impl MapsCall {
    /// Reads a call on two maps.
    pub fn read(line: &str) -> Result<MapsCall, Fault> {
        let (name, mut words) = Words::after_name(line);
        let call = match Side::named(name) {
            Some(side) => match words.next()? {
                "insert" => { MapsCall::One(side, KeyedCall::Insert(words.read()?, words.read()?)) }
                "remove" => MapsCall::One(side, KeyedCall::Remove(words.read()?)),
                _ => return Err(Fault::Unreadable),
            },
            None if name == "eq" => MapsCall::Eq,
            None => return Err(Fault::Unreadable),
        };
        words.end()?;
        Ok(call)
    }
}

/// A call on two sets.
#[derive(Drop)]
pub enum SetsCall {
    One(Side, SetCall),
    Both(BothCall),
}

/// A call that has both sets, and changes none.
///
/// An operation answers the list of its members. If both sets have an item, `union` has that of `b`, and `intersection` and
/// `bitand` that of `a`.
#[derive(Clone, Copy)]
pub enum BothCall {
    IsSubset,
    IsSuperset,
    IsDisjoint,
    Eq,
    Difference,
    Intersection,
    Union,
    SymmetricDifference,
    BitAnd,
    Sub,
}

/// A call on one set.
#[derive(Drop)]
pub enum SetCall {
    Insert(Marked),
    CheckedInsert(Marked),
    Replace(Marked),
    Contains(Marked),
    Get(Marked),
    Take(Marked),
    Remove(Marked),
    RetainId(Residue),
    Len,
    /// Answers `ok`.
    Extend(Vec<Marked>),
}

impl SetsCall {
    /// Reads a call on two sets.
    pub fn read(alloc: Global, line: &str) -> Result<SetsCall, Fault> {
        let (name, mut words) = Words::after_name(line);
        let call = match Side::named(name) {
            Some(side) => SetsCall::One(side, SetCall::read(alloc, &mut words)?),
            None => SetsCall::Both(BothCall::named(name).ok_or(Fault::Unreadable)?),
        };
        words.end()?;
        Ok(call)
    }
}

impl BothCall {
    // The call of this name.
    fn named(name: &str) -> Option<BothCall> {
        Some(match name {
            "is_subset" => BothCall::IsSubset,
            "is_superset" => BothCall::IsSuperset,
            "is_disjoint" => BothCall::IsDisjoint,
            "eq" => BothCall::Eq,
            "difference" => BothCall::Difference,
            "intersection" => BothCall::Intersection,
            "union" => BothCall::Union,
            "symmetric_difference" => BothCall::SymmetricDifference,
            "bitand" => BothCall::BitAnd,
            "sub" => BothCall::Sub,
            _ => return None,
        })
    }
}

impl SetCall {
    // Reads a call on one set.
    fn read(alloc: Global, words: &mut Words<'_>) -> Result<SetCall, Fault> {
        Ok(match words.next()? {
            "insert" => SetCall::Insert(words.read()?),
            "checked_insert" => SetCall::CheckedInsert(words.read()?),
            "replace" => SetCall::Replace(words.read()?),
            "contains" => SetCall::Contains(words.read()?),
            "get" => SetCall::Get(words.read()?),
            "take" => SetCall::Take(words.read()?),
            "remove" => SetCall::Remove(words.read()?),
            "retain_id" => SetCall::RetainId(Residue::read(words)?),
            "len" => SetCall::Len,
            "extend" => SetCall::Extend(words.read_all(alloc)?),
            _ => return Err(Fault::Unreadable),
        })
    }
}
