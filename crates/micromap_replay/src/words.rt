//! The words of a line, and what they stand for.
use micromap_testing::Marked;
use std::alloc::{AllocError, Global};
use std::str::FromStr;

/// Why a line has no answer.
#[derive(Clone, Copy)]
pub enum Fault {
    /// The line isn't of the language.
    Unreadable,
    /// A request for memory was refused.
    Memory,
}

impl From<AllocError> for Fault {
    fn from(_error: AllocError) -> Fault {
        Fault::Memory
    }
}

/// What one word can stand for.
pub trait Word: Drop {
    /// What the word stands for, or `None` where it is no such word.
    fn of(word: &str) -> Option<Self>;
}

/// A number is written without a `+`, and without a 0 before its digits.
fn number<T: FromStr>(word: &str) -> Option<T>
where
    T::Err: Drop,
{
    let digits = word.strip_prefix('-').unwrap_or(word);
    if word == "0" || digits.starts_with(|digit| matches!(digit, '1'..='9')) {
        word.parse().ok()
    } else {
        None
    }
}

/// A value or an amount.
impl Word for i32 {
    fn of(word: &str) -> Option<i32> {
        number(word)
    }
}

/// A modulus or a rest.
impl Word for u32 {
    fn of(word: &str) -> Option<u32> {
        number(word)
    }
}

/// A key is an id, from 0 to 255, and a mark, a lower-case letter, as `3x`.
impl Word for Marked {
    fn of(word: &str) -> Option<Marked> {
        let mark = word.chars().next_back()?;
        if !mark.is_ascii_lowercase() {
            return None;
        }
        let id = number(word.strip_suffix(mark)?)?;
        Some(Marked::new(id, mark))
    }
}

/// A pair is a key and a value, as `3x:10`.
impl Word for (Marked, i32) {
    fn of(word: &str) -> Option<(Marked, i32)> {
        let (key, value) = word.split_once(':')?;
        Some((Marked::of(key)?, number(value)?))
    }
}

/// The words of a line that aren't read yet.
#[derive(Drop)]
pub struct Words<'a> {
    rest: Option<&'a str>,
}

impl<'a> Words<'a> {
    /// The first word of a line, and the words after it. One space stands between two words.
    pub fn after_name(line: &'a str) -> (&'a str, Self) {
        match line.split_once(' ') {
            Some((name, rest)) => (name, Words { rest: Some(rest) }),
            None => (line, Words { rest: None }),
        }
    }

    /// Reads the next word.
    pub fn next(&mut self) -> Result<&'a str, Fault> {
        let line = self.rest.ok_or(Fault::Unreadable)?;
        let (word, words) = Words::after_name(line);
        *self = words;
        Ok(word)
    }

    /// Reads the next word as what it stands for.
    pub fn read<T: Word>(&mut self) -> Result<T, Fault> {
        T::of(self.next()?).ok_or(Fault::Unreadable)
    }

    /// Reads all words that are left, of which there may be none.
    pub fn read_all<T: Word>(&mut self, alloc: Global) -> Result<Vec<T>, Fault> {
        let mut items = Vec::new(alloc);
        if let Some(rest) = self.rest.take() {
            for word in rest.split(' ') {
                let item = T::of(word).ok_or(Fault::Unreadable)?;
                items.push(item).map_err(AllocError::from)?;
            }
        }
        Ok(items)
    }

    /// Reads the end of the line.
    pub fn end(&self) -> Result<(), Fault> {
        match self.rest {
            Some(_) => Err(Fault::Unreadable),
            None => Ok(()),
        }
    }
}
