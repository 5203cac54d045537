//! `Debug` of each iterator, as the list of the items left.
#![tactic(auto, using(crate::proofs::Opened::opened))]

use crate::{IntoIter, IntoKeys, IntoValues, Iter, Keys, Values};
use std::fmt;

impl<'a, K: fmt::Debug, V: fmt::Debug> fmt::Debug for Iter<'a, K, V> {
    fn fmt<W: fmt::Write>(&self, f: &mut fmt::Formatter<W>) -> fmt::Result {
        f.debug_list().entries(self.as_iter()).finish()
    }
}

impl<'a, K: fmt::Debug, V> fmt::Debug for Keys<'a, K, V> {
    fn fmt<W: fmt::Write>(&self, f: &mut fmt::Formatter<W>) -> fmt::Result {
        f.debug_list().entries(self.keys.as_iter()).finish()
    }
}

impl<'a, K, V: fmt::Debug> fmt::Debug for Values<'a, K, V> {
    fn fmt<W: fmt::Write>(&self, f: &mut fmt::Formatter<W>) -> fmt::Result {
        f.debug_list().entries(self.values.as_iter()).finish()
    }
}

impl<K: fmt::Debug, V: fmt::Debug, const N: usize> fmt::Debug for IntoIter<K, V, N> {
    fn fmt<W: fmt::Write>(&self, f: &mut fmt::Formatter<W>) -> fmt::Result {
        f.debug_list().entries(self.as_iter()).finish()
    }
}

impl<K: fmt::Debug, V, const N: usize> fmt::Debug for IntoKeys<K, V, N> {
    fn fmt<W: fmt::Write>(&self, f: &mut fmt::Formatter<W>) -> fmt::Result {
        f.debug_list()
            .entries(self.pairs.as_iter().map(|(key, _)| key))
            .finish()
    }
}

impl<K, V: fmt::Debug, const N: usize> fmt::Debug for IntoValues<K, V, N> {
    fn fmt<W: fmt::Write>(&self, f: &mut fmt::Formatter<W>) -> fmt::Result {
        f.debug_list()
            .entries(self.pairs.as_iter().map(|(_, value)| value))
            .finish()
    }
}
