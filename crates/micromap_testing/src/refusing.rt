//! A writer that refuses one of its writes.
use std::{fmt, io};

/// Counts the writes, and refuses the one that this many came before.
#[derive(Drop)]
pub struct Refusing {
    pub refused: usize,
    pub writes: usize,
}

impl Refusing {
    pub fn new(refused: usize) -> Self {
        Refusing { refused, writes: 0 }
    }

    // Counts one more, and returns whether it is the one to refuse.
    fn refuses(&mut self) -> bool {
        let number = self.writes;
        self.writes = number.saturating_add(1);
        number == self.refused
    }
}

impl io::Write for Refusing {
    fn write(&mut self, buf: &[u8]) -> io::Result<usize> {
        if self.refuses() {
            return Err(io::Error::from(io::ErrorKind::BrokenPipe));
        }
        Ok(buf.len())
    }

    fn flush(&mut self) -> io::Result<()> {
        Ok(())
    }
}

impl fmt::Write for Refusing {
    fn write_str(&mut self, _text: &str) -> fmt::Result {
        if self.refuses() {
            return Err(fmt::Error);
        }
        Ok(())
    }
}
