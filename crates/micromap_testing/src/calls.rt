//! Two maps under one list of keyed calls.
ghost use Rattle.std.specs.Prelude.{◌≡◌, ◌↔◌, map, IsTrue};
ghost use Rattle.micromap.specs.Calls.{answer, after, run, agree};
ghost use Rattle.micromap.specs.Fair.{AnswersAgree, IsFair};
ghost use Rattle.micromap.specs.Same.{Same};
ghost use Rattle.micromap_testing.specs.Lockstep.{call_of, answer_of};

use micromap::Map;

/// A call that reads or changes a map by its keys.
#[derive(Debug, Clone, Copy, PartialEq, Eq)]
pub enum Call<K, V> {
    Insert(K, V),
    InsertKeyValue(K, V),
    Get(K),
    GetKeyValue(K),
    Contains(K),
    Remove(K),
    RemoveEntry(K),
    Len,
    IsEmpty,
    Clear,
}

// What a call returns.
#[derive(Clone, Copy)]
enum Answer<K, V> {
    Value(Option<V>),
    Entry(Option<(K, V)>),
    Truth(bool),
    Number(usize),
    Done,
    Refused,
}

/// Runs every call on both maps, even after a difference, and returns whether all results agreed.
///
/// An insertion that doesn't fit changes nothing and is refused. A refusal agrees with a refusal alone. On two maps
/// that are the same, calls that are fair to both have results that agree, and leave the two the same.
pub fn lockstep<K: Eq + Copy, V: Eq + Copy, const N: usize, const M: usize>(
    first: &mut Map<K, V, N>,
    second: &mut Map<K, V, M>,
    calls: &[Call<K, V>],
) -> bool
    ensures first { first.new ≡ (run K.eq N first.old (map call_of calls.now)).1 }
    ensures second { second.new ≡ (run K.eq M second.old (map call_of calls.now)).1 }
    ensures answer { IsTrue result ↔ AnswersAgree K.eq V.eq N M first.old second.old (map call_of calls.now) }
    ensures keeps_same { Same K.eq V.eq first.old second.old
        → IsFair K.eq N M first.old second.old (map call_of calls.now)
        → IsTrue result × Same K.eq V.eq first.new second.new }
{
    // `len` ensures what is true of each map's content.
    let _known = (first.len(), second.len());
    let mut agreed = true;
    for call in calls {
        let one = perform(first, call);
        let other = perform(second, call);
        agreed &= agrees(&one, &other);
    }
    agreed
}

// Makes the call.
fn perform<K: Eq + Copy, V: Copy, const N: usize>(
    pairs: &mut Map<K, V, N>,
    call: &Call<K, V>,
) -> Answer<K, V>
    ensures answer { answer_of result ≡ answer K.eq N pairs.old (call_of call.now) }
    ensures after { pairs.new ≡ after K.eq N pairs.old (call_of call.now) }
{
    match *call {
        Call::Insert(key, value) => {
            if pairs.fits(&key) {
                Answer::Value(pairs.insert(key, value))
            } else {
                Answer::Refused
            }
        }
        Call::InsertKeyValue(key, value) => {
            if pairs.fits(&key) {
                Answer::Entry(pairs.insert_key_value(key, value))
            } else {
                Answer::Refused
            }
        }
        Call::Get(key) => Answer::Value(pairs.get(&key).copied()),
        Call::GetKeyValue(key) => match pairs.get_key_value(&key) {
            Some((stored, value)) => Answer::Entry(Some((*stored, *value))),
            None => Answer::Entry(None),
        },
        Call::Contains(key) => Answer::Truth(pairs.contains_key(&key)),
        Call::Remove(key) => Answer::Value(pairs.remove(&key)),
        Call::RemoveEntry(key) => Answer::Entry(pairs.remove_entry(&key)),
        Call::Len => Answer::Number(pairs.len()),
        Call::IsEmpty => Answer::Truth(pairs.is_empty()),
        Call::Clear => {
            pairs.clear();
            Answer::Done
        }
    }
}

// Returns whether two results agree.
fn agrees<K: Eq, V: Eq>(one: &Answer<K, V>, other: &Answer<K, V>) -> bool
    ensures { result ≡ agree K.eq V.eq (answer_of one.now) (answer_of other.now) }
{
    match (one, other) {
        (Answer::Value(x), Answer::Value(y)) => *x == *y,
        (Answer::Entry(x), Answer::Entry(y)) => *x == *y,
        (Answer::Truth(x), Answer::Truth(y)) => *x == *y,
        (Answer::Number(x), Answer::Number(y)) => *x == *y,
        (Answer::Done, Answer::Done) => true,
        (Answer::Refused, Answer::Refused) => true,
        _ => false,
    }
}
