//! Performs the calls of entries.
ghost use Rattle.std.specs.Prelude.{◌≡◌, if◌then◌else◌};
ghost use Rattle.std.specs.Option.{unwrap_or};
ghost use Rattle.micromap.specs.Entry.{IsEntryOf};
ghost use Rattle.micromap.specs.Pairs.{at, has, put_if_fits};
ghost use Rattle.micromap_replay.specs.declared.calls.EntryCall.TheVariants.{OrInsert, AndModifyOrInsert, InsertEntry, VacantInsert};
ghost use Rattle.micromap_replay.specs.KeyedCalls.{after_entry, answer_entry, raised, same_id};

use super::Numbers;
use crate::answer::{Answer, Pair};
use crate::calls::EntryCall;
use micromap::map::Entry;
use micromap_testing::Marked;

// Performs the call on the entry of its key.
pub(super) fn perform_entry<const N: usize>(map: &mut Numbers<N>, call: &EntryCall) -> Answer
    ensures answer { result ≡ answer_entry N map.old call.now }
    ensures map { map.new ≡ after_entry N map.old call.now }
{
    match *call {
        EntryCall::OrInsert(key, value) => or_insert(map, key, value),
        EntryCall::AndModifyOrInsert(key, amount, value) => {
            and_modify_or_insert(map, key, amount, value)
        }
        EntryCall::InsertEntry(key, value) => insert_entry(map, key, value),
        EntryCall::OccupiedInsert(key, value) => match map.entry(key) {
            Entry::Occupied(mut entry) => Answer::Value(entry.insert(value)),
            Entry::Vacant(_entry) => Answer::Vacant,
        },
        EntryCall::OccupiedRemove(key) => match map.entry(key) {
            Entry::Occupied(entry) => Answer::Value(entry.remove()),
            Entry::Vacant(_entry) => Answer::Vacant,
        },
        EntryCall::OccupiedRemoveEntry(key) => match map.entry(key) {
            Entry::Occupied(entry) => Answer::Pair(Pair::from(entry.remove_entry())),
            Entry::Vacant(_entry) => Answer::Vacant,
        },
        EntryCall::VacantInsert(key, value) => vacant_insert(map, key, value),
        EntryCall::VacantIntoKey(key) => match map.entry(key) {
            Entry::Occupied(_entry) => Answer::Occupied,
            Entry::Vacant(entry) => Answer::Key(entry.into_key()),
        },
    }
}

fn or_insert<const N: usize>(map: &mut Numbers<N>, key: Marked, value: i32) -> Answer
    ensures answer { result ≡ answer_entry N map.old (OrInsert key value) }
    ensures map { map.new ≡ put_if_fits same_id N map.old key (unwrap_or (at same_id map.old key) value) }
{
    let entry = map.entry(key);
    if entry.has_room() {
        Answer::Value(*entry.or_insert(value))
    } else {
        Answer::Refused
    }
}

// Returns the entry of the key.
fn entry_of<const N: usize>(map: &mut Numbers<N>, key: Marked) -> Entry<'_, Marked, i32, N>
    ensures { IsEntryOf same_id map.entry key result }
{
    map.entry(key)
}

fn and_modify_or_insert<const N: usize>(
    map: &mut Numbers<N>,
    key: Marked,
    amount: i32,
    value: i32,
) -> Answer
    ensures answer { result ≡ answer_entry N map.old (AndModifyOrInsert key amount value) }
    ensures map { map.new ≡ (if has same_id map.old key then raised N map.old key amount else put_if_fits same_id N map.old key value) }
{
    let entry = entry_of(map, key).and_modify(|stored| *stored = stored.wrapping_add(amount));
    if entry.has_room() {
        Answer::Value(*entry.or_insert(value))
    } else {
        Answer::Refused
    }
}

fn insert_entry<const N: usize>(map: &mut Numbers<N>, key: Marked, value: i32) -> Answer
    ensures answer { result ≡ answer_entry N map.old (InsertEntry key value) }
    ensures map { map.new ≡ put_if_fits same_id N map.old key value }
{
    let entry = map.entry(key);
    if entry.has_room() {
        let entry = entry.insert_entry(value);
        Answer::Pair(Pair(*entry.key(), *entry.get()))
    } else {
        Answer::Refused
    }
}

fn vacant_insert<const N: usize>(map: &mut Numbers<N>, key: Marked, value: i32) -> Answer
    ensures answer { result ≡ answer_entry N map.old (VacantInsert key value) }
    ensures map { map.new ≡ (if has same_id map.old key then map.old else put_if_fits same_id N map.old key value) }
{
    match map.entry(key) {
        Entry::Occupied(_entry) => Answer::Occupied,
        Entry::Vacant(entry) => {
            if entry.has_room() {
                Answer::Value(*entry.insert(value))
            } else {
                Answer::Refused
            }
        }
    }
}
