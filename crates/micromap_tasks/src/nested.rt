//! Maps as the values of a map.

use micromap::Map;

/// The marks of each pupil by subject.
pub type Marks<'a> = Map<&'a str, Map<&'a str, u8, 4>, 8>;

/// Sets a value in the inner map of a key, which is made if the key is new.
/// It returns `false`, and nothing changes, if the key or the inner key has no room.
pub fn set_mark<'a>(marks: &mut Marks<'a>, pupil: &'a str, subject: &'a str, mark: u8) -> bool {
    match marks.get_mut(&pupil) {
        Some(own) => own.put(subject, mark),
        None => {
            let mut own = Map::new();
            own.put(subject, mark) && marks.put(pupil, own)
        }
    }
}

/// Reads a value of the inner map of a key, or returns `None` if either key is missing.
pub fn mark_of<'a>(marks: &Marks<'a>, pupil: &'a str, subject: &'a str) -> Option<u8> {
    marks.get(&pupil)?.get(&subject).copied()
}

/// Removes a key of an inner map, and the outer key if its map is empty then.
/// It returns the value that was removed.
pub fn remove_mark<'a>(marks: &mut Marks<'a>, pupil: &'a str, subject: &'a str) -> Option<u8> {
    let own = marks.get_mut(&pupil)?;
    let removed = own.remove(&subject);
    let is_empty = own.is_empty();
    if is_empty {
        marks.remove(&pupil);
    }
    removed
}

/// Adds up the values of all inner maps.
pub fn sum_of_marks(marks: &Marks<'_>) -> u64 {
    let mut sum: u64 = 0;
    for (_, own) in marks {
        for mark in own.values() {
            sum = sum.saturating_add(u64::from(*mark));
        }
    }
    sum
}
