//! Calls that require something, and sums that may overflow.

ghost use Rattle.std.specs.Prelude.{◌≡◌, ◌↔◌, ◌≤◌, IfSome, IsErr, IsFalse, nat_eq, unwrap_or};
ghost use Rattle.micromap.specs.Memory.{MapFits};
ghost use Rattle.micromap.specs.Pairs.{at, fits, put_if_fits};

use micromap::Map;

/// Sets an age if there is room, and returns whether it did.
pub fn insert_when_full(ages: &mut Map<u32, u32, 8>, number: u32, age: u32) -> bool
    ensures answer { result ≡ fits nat_eq 8 ages.old number }
    ensures ages { ages.new ≡ put_if_fits nat_eq 8 ages.old number age }
{
    ages.put(number, age)
}

/// Returns an age, or 0 if there is none.
pub fn index_missing(ages: &Map<u32, u32, 8>, number: u32) -> u32
    ensures { result ≡ unwrap_or (at nat_eq ages.now number) 0 }
{
    ages.get_or(&number, 0)
}

/// Counts one more if there is room, and returns whether it did.
pub fn count_overflows(counts: &mut Map<u32, u32, 8>, number: u32) -> bool
    ensures { result ≡ fits nat_eq 8 counts.old number }
{
    let count = counts.get_or(&number, 0);
    counts.put(number, count.saturating_add(1))
}

/// Counts the distinct keys of a list, or returns `None` if there are more than `N`.
pub fn map_in_generic<K: Eq + Copy, V: Copy, const N: usize>(pairs: &[(K, V)]) -> Option<usize>
    requires { MapFits K.row V.row N.row K.eq }
    ensures { IfSome result (λ count. count ≤ N) }
{
    let mut seen: Map<K, V, N> = Map::new();
    for (key, value) in pairs {
        seen.checked_insert(*key, *value)?;
    }
    Some(seen.len())
}

/// Why a guest isn't seated.
#[derive(Clone, Copy)]
pub enum SeatFault {
    /// There is no room for another guest.
    Full,
}

/// Gives a guest a seat, or returns an error exactly if there is no room.
pub fn error_when_full(seats: &mut Map<u32, u8, 8>, guest: u32, seat: u8) -> Result<(), SeatFault>
    ensures full { IsErr result ↔ IsFalse (fits nat_eq 8 seats.old guest) }
{
    seats.checked_insert(guest, seat).ok_or(SeatFault::Full)?;
    Ok(())
}
