//! Errors of one's own.

use micromap::Map;
use std::error::Error;
use std::fmt;

/// Why a guest isn't seated.
#[derive(Debug, Clone, Copy, PartialEq, Eq)]
pub enum SeatFault {
    /// There is no room for another guest.
    Full,
    /// The guest has a seat already.
    Seated,
    /// The number isn't that of a seat.
    NoSuchSeat,
}

impl fmt::Display for SeatFault {
    fn fmt<W: fmt::Write>(&self, f: &mut fmt::Formatter<W>) -> fmt::Result {
        f.write_str(match self {
            SeatFault::Full => "there is no room for another guest",
            SeatFault::Seated => "the guest has a seat already",
            SeatFault::NoSuchSeat => "there is no such seat",
        })
    }
}

impl Error for SeatFault {}

/// Inserts a pair, or returns an error of one's own if there is no room.
pub fn seat(seats: &mut Map<u16, u8, 8>, guest: u16, number: u8) -> Result<(), SeatFault> {
    seats.checked_insert(guest, number).ok_or(SeatFault::Full)?;
    Ok(())
}

/// Inserts a pair whose key is new, or returns an error of one's own that says why it didn't.
pub fn seat_once(seats: &mut Map<u16, u8, 8>, guest: u16, number: u8) -> Result<(), SeatFault> {
    if seats.contains_key(&guest) {
        return Err(SeatFault::Seated);
    }
    seat(seats, guest, number)
}

/// Inserts several pairs, and passes the first error on by `?`.
/// What was inserted before the error stays.
pub fn seat_all(seats: &mut Map<u16, u8, 8>, guests: &[u16], first: u8) -> Result<(), SeatFault> {
    let mut number = first;
    for guest in guests {
        seat_once(seats, *guest, number)?;
        number = number.checked_add(1).ok_or(SeatFault::NoSuchSeat)?;
    }
    Ok(())
}
