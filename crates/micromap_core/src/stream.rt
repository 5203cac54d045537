//! Streams of entries: a sink takes pairs one after the other, and a source yields them.
//!
//! Both count the errors that they have returned in `faults`, and have the last of them, or `None`, in `last_fault`. So
//! a caller can tell an error of this call from an older one.
ghost use Rattle.std.specs.Prelude.{◌≡◌, ℕ, ◌<◌, ◌++◌, ◌∷◌, [], List, Option, IfOk, OnOk, IfErr, OnErr};
ghost use Rattle.std.specs.Map.Iter.{TakesFirst};
ghost use Rattle.micromap_core.specs.Print.{read_fault_text};
ghost use Rattle.micromap_core.specs.Stream.{most_faults, Faultless, Faults};

mod slice_source;
mod vec_sink;

pub use slice_source::SliceSource;
use std::error::Error;
use std::fmt;
pub use vec_sink::VecSink;

/// A type to which pairs can be written.
pub trait EntrySink<K, V> {
    /// The error of `entry`.
    type Error: Copy;

    /// The pairs taken, in the order in which they came.
    ghost taken: { Self → List (K × V) };

    ghost faults: { Self → ℕ };

    ghost last_fault: { Self → Option Self.Error };

    /// Returns the number of errors that the sink has returned.
    fn faults(&self) -> u128
        ensures { result ≡ faults self.now };

    /// Takes a pair, or returns an error and takes nothing. Requires `faults() < u128::MAX`.
    fn entry(&mut self, key: &K, value: &V) -> Result<(), Self::Error>
        requires { faults self.old < most_faults }
        ensures taken { OnOk result (taken self.new ≡ taken self.old ++ (key.now, value.now) ∷ []) }
        ensures faultless { OnOk result (Faultless faults last_fault self.old self.new) }
        ensures kept { OnErr result (taken self.new ≡ taken self.old) }
        ensures fault { IfErr result (Faults faults last_fault self.old self.new) };
}

/// A type from which pairs can be read.
pub trait EntrySource<K, V> {
    /// The error of `next_entry`.
    type Error: Copy;

    /// The pairs left, in the order in which they come.
    ghost left: { Self → List (K × V) };

    ghost faults: { Self → ℕ };

    ghost last_fault: { Self → Option Self.Error };

    /// Returns the number of errors that the source has returned.
    fn faults(&self) -> u128
        ensures { result ≡ faults self.now };

    /// Yields the next pair, or `None` if none is left, or returns an error and yields nothing. Requires
    /// `faults() < u128::MAX`.
    fn next_entry(&mut self) -> Result<Option<(K, V)>, Self::Error>
        requires { faults self.old < most_faults }
        ensures gave { IfOk result (λ entry. TakesFirst (λ p. p) (left self.old) entry (left self.new)) }
        ensures faultless { OnOk result (Faultless faults last_fault self.old self.new) }
        ensures kept { OnErr result (left self.new ≡ left self.old) }
        ensures fault { IfErr result (Faults faults last_fault self.old self.new) };
}

/// The error of `read_entries`.
#[derive(Debug, Clone, Copy, PartialEq, Eq, Drop)]
pub enum ReadFault<E> {
    /// The source returned this error.
    Source(E),
    /// A pair had a new key, and there was no room for it.
    TooMany,
}

impl<E: fmt::Display> fmt::Display for ReadFault<E> {
    ghost output = { read_fault_text E.output };

    fn fmt<W: fmt::Write>(&self, f: &mut fmt::Formatter<W>) -> fmt::Result {
        match self {
            ReadFault::Source(fault) => write!(f, "the source failed: {fault}"),
            ReadFault::TooMany => f.write_str("a pair has a new key, and there is no room for it"),
        }
    }
}

impl<E: Error> Error for ReadFault<E> {}
