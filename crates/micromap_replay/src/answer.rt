//! The answers to calls, the content after them, and their texts.
ghost use Rattle.std.specs.Prelude.{◌≡◌};

use micromap_testing::Marked;
use std::fmt;
use std::fmt::Write;

/// An item of a list.
pub trait Listed: fmt::Display {
    /// What lists are sorted by.
    fn rank(&self) -> i32;
}

impl Listed for Marked {
    fn rank(&self) -> i32 {
        i32::from(self.id)
    }
}

impl Listed for i32 {
    fn rank(&self) -> i32 {
        *self
    }
}

/// A pair of a map, as `3x:10`.
#[derive(Clone, Copy)]
pub struct Pair(pub Marked, pub i32);

impl From<(Marked, i32)> for Pair {
    ghost from_gives = { λ p pair. pair ≡ record { 0 = p.0; 1 = p.1 } };

    fn from((key, value): (Marked, i32)) -> Pair {
        Pair(key, value)
    }
}

impl fmt::Display for Pair {
    fn fmt<W: fmt::Write>(&self, f: &mut fmt::Formatter<W>) -> fmt::Result {
        let Pair(key, value) = *self;
        write!(f, "{key}:{value}")
    }
}

impl Listed for Pair {
    fn rank(&self) -> i32 {
        self.0.rank()
    }
}

/// A sorted list, as `1a 3x`, or `-` where it is empty.
#[derive(Drop)]
pub struct List<T> {
    items: Vec<T>,
}

impl<T: Listed> List<T> {
    /// The list of these items.
    pub fn of(mut items: Vec<T>) -> Self {
        items.sort_unstable_by_key(|item| item.rank());
        List { items }
    }
}

impl<T: Listed> fmt::Display for List<T> {
    fn fmt<W: fmt::Write>(&self, f: &mut fmt::Formatter<W>) -> fmt::Result {
        if self.items.is_empty() {
            return f.write_str("-");
        }
        let mut lead = "";
        for item in &self.items {
            write!(f, "{lead}{item}")?;
            lead = " ";
        }
        Ok(())
    }
}

/// The answer to a call.
#[derive(Drop)]
pub enum Answer {
    Done,
    Refused,
    Vacant,
    Occupied,
    Truth(bool),
    Truths([bool; 3]),
    Number(usize),
    Value(i32),
    Key(Marked),
    Pair(Pair),
    MaybeValue(Option<i32>),
    MaybeKey(Option<Marked>),
    MaybePair(Option<Pair>),
    /// An old value or none, or that there was no room.
    Checked(Option<Option<i32>>),
    Values(List<i32>),
    Keys(List<Marked>),
    Pairs(List<Pair>),
    Text(String),
}

impl fmt::Display for Answer {
    fn fmt<W: fmt::Write>(&self, f: &mut fmt::Formatter<W>) -> fmt::Result {
        match self {
            Answer::Done => f.write_str("ok"),
            Answer::Refused => f.write_str("refused"),
            Answer::Vacant => f.write_str("vacant"),
            Answer::Occupied => f.write_str("occupied"),
            Answer::Truth(truth) => write!(f, "{truth}"),
            Answer::Truths([first, second, third]) => write!(f, "{first} {second} {third}"),
            Answer::Number(number) => write!(f, "{number}"),
            Answer::Value(value) => write!(f, "{value}"),
            Answer::Key(key) => write!(f, "{key}"),
            Answer::Pair(pair) => write!(f, "{pair}"),
            Answer::MaybeValue(value) => write_optional(f, value),
            Answer::MaybeKey(key) => write_optional(f, key),
            Answer::MaybePair(pair) => write_optional(f, pair),
            Answer::Checked(Some(old)) => {
                f.write_str("some ")?;
                write_optional(f, old)
            }
            Answer::Checked(None) => f.write_str("none"),
            Answer::Values(list) => write!(f, "{list}"),
            Answer::Keys(list) => write!(f, "{list}"),
            Answer::Pairs(list) => write!(f, "{list}"),
            Answer::Text(text) => f.write_str(text.as_str()),
        }
    }
}

// Writes `none`, or `some` with what there is.
fn write_optional<T: fmt::Display, W: fmt::Write>(
    f: &mut fmt::Formatter<W>,
    optional: &Option<T>,
) -> fmt::Result {
    match optional {
        Some(item) => write!(f, "some {item}"),
        None => f.write_str("none"),
    }
}

/// The answer to a line, and after it what the maps or sets of the case hold.
#[derive(Drop)]
pub enum Reply {
    Map(Answer, List<Pair>),
    Maps(Answer, List<Pair>, List<Pair>),
    Sets(Answer, List<Marked>, List<Marked>),
}

impl fmt::Display for Reply {
    fn fmt<W: fmt::Write>(&self, f: &mut fmt::Formatter<W>) -> fmt::Result {
        match self {
            Reply::Map(answer, map) => write!(f, "{answer} | {map}"),
            Reply::Maps(answer, a, b) => write!(f, "{answer} | {a} | {b}"),
            Reply::Sets(answer, a, b) => write!(f, "{answer} | {a} | {b}"),
        }
    }
}
