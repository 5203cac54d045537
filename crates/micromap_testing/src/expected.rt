//! Whether an iterator, a set or a printed text is what is expected. A text isn't if a request for memory is refused.
use micromap::Set;
use std::alloc::Global;
use std::fmt::{Debug, Display};
use std::iter::FusedIterator;

/// Whether the set has just these items, from the front.
pub fn holds<T: Eq, const N: usize>(set: &Set<T, N>, items: &[T]) -> bool {
    set.len() == items.len() && set.iter().eq(items)
}

/// Whether the iterator yields just these items in this order, says before each how many are left, and stays at its
/// end.
pub fn gives<I: FusedIterator>(mut iterator: I, items: &[I::Item]) -> bool
where
    I::Item: PartialEq + Drop,
    requires { (left : I) → I.can_next left }
{
    for (given, item) in items.iter().enumerate() {
        let left = items.len() - given;
        if iterator.size_hint() != (left, Some(left)) {
            return false;
        }
        match iterator.next() {
            Some(next) if next == *item => {}
            _ => return false,
        }
    }
    for _ in 0..3 {
        if iterator.size_hint() != (0, Some(0)) || iterator.next().is_some() {
            return false;
        }
    }
    true
}

/// Whether `Display` prints just this text.
pub fn displays<T: Display>(alloc: Global, value: &T, text: &str) -> bool {
    format!(in alloc; "{value}").is_ok_and(|printed| printed.as_str() == text)
}

/// Whether `Debug` prints just this text.
pub fn debugs<T: Debug>(alloc: Global, value: &T, text: &str) -> bool {
    format!(in alloc; "{value:?}").is_ok_and(|printed| printed.as_str() == text)
}
