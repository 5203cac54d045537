//! A sink that stores the pairs that it takes.
ghost use Rattle.std.specs.Prelude.{◌≡◌, [], None};

use super::EntrySink;
use std::alloc::{AllocError, Global};
use std::marker::Model;

/// A sink that stores copies of the pairs in a `Vec`. Its errors are refused requests for memory.
#[derive(Drop)]
pub struct VecSink<K, V> {
    entries: Vec<(K, V)>,
    faults: u128,
    last_fault: Option<AllocError>,
}

impl<K, V> Model for VecSink<K, V> {
    ghost use Rattle.std.specs.declared.alloc.AllocError.{AllocError};
    ghost use Rattle.micromap_core.specs.Stream.{Stream};

    ghost Value = { Stream (K × V) AllocError };

    ghost view = { λ s. record { entries = s.entries.items; faults = s.faults; last_fault = s.last_fault } };
}

impl<K, V> VecSink<K, V> {
    /// Creates a sink that has taken nothing.
    pub fn new(alloc: Global) -> Self
        ensures entries { result.entries ≡ [] }
        ensures faults { result.faults ≡ 0 }
        ensures last_fault { result.last_fault ≡ None }
    {
        VecSink {
            entries: Vec::new(alloc),
            faults: 0,
            last_fault: None,
        }
    }

    /// Returns the pairs taken, in the order in which they came.
    pub fn entries(&self) -> &[(K, V)]
        ensures { result.now ≡ self.now.entries }
    {
        &self.entries
    }

    /// Returns the pairs taken, by value.
    pub fn into_entries(self) -> Vec<(K, V)>
        ensures { result.items ≡ self.entries }
    {
        self.entries
    }
}

impl<K: Copy, V: Copy> EntrySink<K, V> for VecSink<K, V> {
    type Error = AllocError;

    ghost taken = { λ s. s.entries };

    ghost faults = { λ s. s.faults };

    ghost last_fault = { λ s. s.last_fault };

    fn faults(&self) -> u128 {
        self.faults
    }

    fn entry(&mut self, key: &K, value: &V) -> Result<(), AllocError> {
        match self.entries.push((*key, *value)) {
            Ok(()) => Ok(()),
            Err(_) => {
                self.faults += 1;
                self.last_fault = Some(AllocError);
                Err(AllocError)
            }
        }
    }
}
