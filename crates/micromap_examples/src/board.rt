//! The pieces on a board, by their squares: a map whose keys are structs of two numbers with a derived `==`.
ghost use Rattle.std.specs.Prelude.{◌≡◌, IsFalse, None, Some, if◌then◌else◌};
ghost use Rattle.std.specs.Bool.{OnTrue};
ghost use Rattle.std.specs.Option.{option_map_or};
ghost use Rattle.micromap.specs.Pairs.{at, fits, has, put, put_if_fits, take_out};

use micromap::Map;

/// A square of the board.
#[derive(Debug, Clone, Copy, PartialEq, Eq)]
pub struct Square {
    /// Its row.
    pub row: u8,
    /// Its column.
    pub column: u8,
}

/// A board with at most `N` pieces.
pub type Board<const N: usize> = Map<Square, char, N>;

/// Puts a piece on a square, in the place of one that stands there, and returns what stands there now, or `None` if
/// there is no room for another piece.
pub fn put_piece<const N: usize>(board: &mut Board<N>, to: Square, piece: char) -> Option<char>
    ensures answer { result ≡ (if fits ⟦<Square as PartialEq>⟧.eq N board.old to then Some piece else None) }
    ensures board { board.new ≡ put_if_fits ⟦<Square as PartialEq>⟧.eq N board.old to piece }
{
    board.checked_insert(to, piece)?;
    board.get(&to).copied()
}

/// Moves the piece on a square to another, where it takes the place of one that stands there, and returns whether there
/// was a piece to move.
pub fn move_piece<const N: usize>(board: &mut Board<N>, from: Square, to: Square) -> bool
    ensures answer { result ≡ has ⟦<Square as PartialEq>⟧.eq board.old from }
    ensures board { board.new ≡ option_map_or (put ⟦<Square as PartialEq>⟧.eq (take_out ⟦<Square as PartialEq>⟧.eq board.old from) to) (at ⟦<Square as PartialEq>⟧.eq board.old from) board.old }
    ensures arrived { OnTrue result (at ⟦<Square as PartialEq>⟧.eq board.new to ≡ at ⟦<Square as PartialEq>⟧.eq board.old from) }
    ensures left { OnTrue result (IsFalse (⟦<Square as PartialEq>⟧.eq to from) → at ⟦<Square as PartialEq>⟧.eq board.new from ≡ None) }
{
    match board.remove(&from) {
        Some(piece) => {
            board.insert(to, piece);
            true
        }
        None => false,
    }
}
