//! Performs calls on maps and sets of the library. A call whose precondition isn't met is refused, and changes nothing.
ghost use Rattle.std.specs.Prelude.{◌≡◌, ◌≤◌};
ghost use Rattle.micromap_replay.specs.KeyedCalls.{after_keyed, answer_keyed};

mod entry;

use crate::answer::{Answer, List, Pair};
use crate::calls::{BothCall, KeyedCall, MapCall, SetCall, WholeCall};
use entry::perform_entry;
use micromap::{Map, Set};
use micromap_testing::Marked;
use std::alloc::{AllocError, Global};

/// A map of a case.
pub type Numbers<const N: usize> = Map<Marked, i32, N>;

/// A set of a case.
pub type Keys<const N: usize> = Set<Marked, N>;

/// The largest capacity of a case.
pub const LARGEST: usize = 8;

/// Performs the call on the map.
pub fn perform_keyed<const N: usize>(map: &mut Numbers<N>, call: &KeyedCall) -> Answer
    ensures answer { result ≡ answer_keyed N map.old call.now }
    ensures map { map.new ≡ after_keyed N map.old call.now }
{
    match *call {
        KeyedCall::Insert(key, value) => {
            if map.fits(&key) {
                Answer::MaybeValue(map.insert(key, value))
            } else {
                Answer::Refused
            }
        }
        KeyedCall::InsertKeyValue(key, value) => {
            if map.fits(&key) {
                Answer::MaybePair(map.insert_key_value(key, value).map(Pair::from))
            } else {
                Answer::Refused
            }
        }
        KeyedCall::CheckedInsert(key, value) => Answer::Checked(map.checked_insert(key, value)),
        KeyedCall::Get(key) => Answer::MaybeValue(map.get(&key).copied()),
        KeyedCall::GetKeyValue(key) => {
            let pair = map.get_key_value(&key);
            Answer::MaybePair(pair.map(|(key, value)| Pair(*key, *value)))
        }
        KeyedCall::ContainsKey(key) => Answer::Truth(map.contains_key(&key)),
        KeyedCall::GetMut(key, amount) => match map.get_mut(&key) {
            Some(value) => {
                *value = value.wrapping_add(amount);
                Answer::MaybeValue(Some(*value))
            }
            None => Answer::MaybeValue(None),
        },
        KeyedCall::Remove(key) => Answer::MaybeValue(map.remove(&key)),
        KeyedCall::RemoveEntry(key) => Answer::MaybePair(map.remove_entry(&key).map(Pair::from)),
        KeyedCall::Index(key) => {
            if map.contains_key(&key) {
                Answer::Value(*map.index(&key))
            } else {
                Answer::Refused
            }
        }
    }
}

/// Performs the call on the map.
pub fn perform_map<const N: usize>(
    alloc: Global,
    map: &mut Numbers<N>,
    call: MapCall,
) -> Result<Answer, AllocError>
    requires { N ≤ LARGEST }
{
    match call {
        MapCall::Keyed(call) => Ok(perform_keyed(map, &call)),
        MapCall::Entry(call) => Ok(perform_entry(map, &call)),
        MapCall::Whole(call) => perform_whole(alloc, map, call),
    }
}

/// The pairs of the map.
pub fn pairs<const N: usize>(alloc: Global, map: &Numbers<N>) -> Result<List<Pair>, AllocError> {
    let pairs = map.iter().map(|(key, value)| Pair(*key, *value));
    Ok(List::of(pairs.collect(alloc)?))
}

fn perform_whole<const N: usize>(
    alloc: Global,
    map: &mut Numbers<N>,
    call: WholeCall,
) -> Result<Answer, AllocError>
    requires { N ≤ LARGEST }
{
    match call {
        WholeCall::Len => return Ok(Answer::Number(map.len())),
        WholeCall::IsEmpty => return Ok(Answer::Truth(map.is_empty())),
        WholeCall::Clear => map.clear(),
        WholeCall::RetainId(residue) => map.retain(|key, _| residue.contains(key.id)),
        WholeCall::RetainValue(least) => map.retain(|_, value| *value >= least),
        WholeCall::DoubleAll => map.update_all(|_, value| *value = value.wrapping_mul(2)),
        WholeCall::AddDisjoint(amount, keys) => return Ok(add_disjoint(map, amount, keys)),
        WholeCall::Iter => return Ok(Answer::Pairs(pairs(alloc, map)?)),
        WholeCall::Keys => {
            return Ok(Answer::Keys(List::of(map.keys().copied().collect(alloc)?)));
        }
        WholeCall::Values => {
            return Ok(Answer::Values(List::of(map.values().copied().collect(alloc)?)));
        }
        WholeCall::IntoIter => return Ok(Answer::Pairs(given_away(alloc, map)?)),
        WholeCall::Drain => return Ok(Answer::Pairs(drained(alloc, map)?)),
        WholeCall::Clone => *map = map.clone()?,
        WholeCall::Display => return Ok(Answer::Text(map.to_string(alloc)?)),
        WholeCall::FromIter(pairs) => match Numbers::try_from_iter(pairs.into_iter()) {
            Ok(made) => *map = made,
            Err(_) => return Ok(Answer::Refused),
        },
    }
    Ok(Answer::Done)
}

// Adds the amount to the value of the first key, twice the amount to that of the second, and three times to that of the
// third.
fn add_disjoint<const N: usize>(map: &mut Numbers<N>, amount: i32, keys: [Marked; 3]) -> Answer {
    let [first, second, third] = keys;
    if first == second || first == third || second == third {
        return Answer::Refused;
    }
    let found = map.update_disjoint(&[first, second, third], |position, value| {
        let times = match position {
            0 => 1,
            1 => 2,
            _ => 3,
        };
        *value = value.wrapping_add(amount.wrapping_mul(times));
    });
    Answer::Truths(found)
}

// The pairs that a clone of the map yields by value.
fn given_away<const N: usize>(alloc: Global, map: &Numbers<N>) -> Result<List<Pair>, AllocError>
    // An iterator by value is larger than its map, and must have a size too.
    requires { N ≤ LARGEST }
{
    let pairs = map.clone()?.into_iter().map(Pair::from);
    Ok(List::of(pairs.collect(alloc)?))
}

// The pairs, which are taken out.
fn drained<const N: usize>(alloc: Global, map: &mut Numbers<N>) -> Result<List<Pair>, AllocError>
    requires { N ≤ LARGEST }
{
    let pairs = map.drain().map(Pair::from);
    Ok(List::of(pairs.collect(alloc)?))
}

/// Performs the call on the set.
pub fn perform_set<const N: usize>(set: &mut Keys<N>, call: SetCall) -> Result<Answer, AllocError> {
    Ok(match call {
        SetCall::Insert(item) => {
            if set.fits(&item) {
                Answer::Truth(set.insert(item))
            } else {
                Answer::Refused
            }
        }
        SetCall::CheckedInsert(item) => Answer::MaybeKey(set.checked_insert(item)),
        SetCall::Replace(item) => {
            if set.fits(&item) {
                Answer::MaybeKey(set.replace(item))
            } else {
                Answer::Refused
            }
        }
        SetCall::Contains(item) => Answer::Truth(set.contains(&item)),
        SetCall::Get(item) => Answer::MaybeKey(set.get(&item).copied()),
        SetCall::Take(item) => Answer::MaybeKey(set.take(&item)),
        SetCall::Remove(item) => Answer::Truth(set.remove(&item)),
        SetCall::RetainId(residue) => {
            set.retain(|item| residue.contains(item.id));
            Answer::Done
        }
        SetCall::Len => Answer::Number(set.len()),
        SetCall::Extend(items) => extend(set, items)?,
    })
}

// Puts all items, or none where one doesn't fit.
fn extend<const N: usize>(set: &mut Keys<N>, items: Vec<Marked>) -> Result<Answer, AllocError> {
    let mut extended = set.clone()?;
    Ok(match extended.try_extend(items.into_iter()) {
        Ok(()) => {
            *set = extended;
            Answer::Done
        }
        Err(_) => Answer::Refused,
    })
}

/// Performs the call on the two sets.
pub fn perform_sets<const N: usize, const M: usize>(
    alloc: Global,
    a: &Keys<N>,
    b: &Keys<M>,
    call: &BothCall,
) -> Result<Answer, AllocError> {
    let members = match call {
        BothCall::IsSubset => return Ok(Answer::Truth(a.is_subset(b))),
        BothCall::IsSuperset => return Ok(Answer::Truth(a.is_superset(b))),
        BothCall::IsDisjoint => return Ok(Answer::Truth(a.is_disjoint(b))),
        BothCall::Eq => return Ok(Answer::Truth(a.eq_with(b))),
        BothCall::Difference => List::of(a.difference(b).copied().collect(alloc)?),
        BothCall::Intersection => List::of(a.intersection(b).copied().collect(alloc)?),
        BothCall::Union => List::of(a.union(b).copied().collect(alloc)?),
        BothCall::SymmetricDifference => {
            List::of(a.symmetric_difference(b).copied().collect(alloc)?)
        }
        BothCall::BitAnd => items(alloc, &a.bitand(b)?)?,
        BothCall::Sub => items(alloc, &a.sub(b)?)?,
    };
    Ok(Answer::Keys(members))
}

/// The items of the set.
pub fn items<const N: usize>(alloc: Global, set: &Keys<N>) -> Result<List<Marked>, AllocError> {
    Ok(List::of(set.iter().copied().collect(alloc)?))
}
