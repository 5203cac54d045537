//! Why no head was written.
ghost use Rattle.std.specs.Prelude.{◌≡◌};
ghost use Rattle.micromap_examples.specs.declared.request.fault.RunFault.TheVariants.{Head, Memory};

use super::head::HeadFault;
use std::alloc::AllocError;
use std::error::Error;
use std::{fmt, io};

/// Why no head was written, or only the beginning of one.
#[derive(Debug, Drop)]
pub enum RunFault {
    /// The input can't be read.
    Input(io::Error),
    /// What was read is no head to be written.
    Head(HeadFault),
    /// A request for memory was refused.
    Memory,
    /// The output can't be written.
    Output(io::Error),
}

impl fmt::Display for RunFault {
    fn fmt<W: fmt::Write>(&self, f: &mut fmt::Formatter<W>) -> fmt::Result {
        match self {
            RunFault::Input(error) => write!(f, "the input can't be read: {error}"),
            RunFault::Head(fault) => write!(f, "{fault}"),
            RunFault::Memory => f.write_str("a request for memory was refused"),
            RunFault::Output(error) => write!(f, "the output can't be written: {error}"),
        }
    }
}

impl Error for RunFault {}

impl From<HeadFault> for RunFault {
    ghost from_gives = { λ fault run_fault. run_fault ≡ Head fault };

    fn from(fault: HeadFault) -> Self {
        RunFault::Head(fault)
    }
}

impl From<AllocError> for RunFault {
    ghost from_gives = { λ _ fault. fault ≡ Memory };

    fn from(_refused: AllocError) -> Self {
        RunFault::Memory
    }
}
