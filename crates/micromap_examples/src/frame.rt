//! The variables of an interpreter's frame, and the value of an expression over them.
//!
//! A number names a variable, as in an interpreter that has read its source once. A frame keeps at most `N` variables,
//! in the order in which they came.
ghost use Rattle.std.specs.Prelude.{◌≡◌, nat_eq, if◌then◌else◌, is_some, Ok};
ghost use Rattle.micromap.specs.Pairs.{at, fits, has, put, put_if_fits};
ghost use Rattle.micromap_examples.specs.Frame.{value};

use micromap::Map;
use std::alloc::AllocError;

/// The variables of one scope.
pub type Frame<const N: usize> = Map<u32, i64, N>;

/// Gives a variable a value, and returns whether it has that value now. A new variable gets one only if there is room.
pub fn assign<const N: usize>(frame: &mut Frame<N>, name: u32, value: i64) -> bool
    ensures answer { result ≡ fits nat_eq N frame.old name }
    ensures frame { frame.new ≡ put_if_fits nat_eq N frame.old name value }
{
    frame.put(name, value)
}

/// Gives a variable that is there another value, and returns whether it is there.
pub fn update<const N: usize>(frame: &mut Frame<N>, name: u32, value: i64) -> bool
    ensures answer { result ≡ has nat_eq frame.old name }
    ensures frame { frame.new ≡ (if has nat_eq frame.old name then put nat_eq frame.old name value else frame.old) }
{
    match frame.get_mut(&name) {
        Some(stored) => {
            *stored = value;
            true
        }
        None => false,
    }
}

/// Creates the frame of an inner scope. It begins as a copy, and what is assigned there isn't seen outside.
pub fn inner<const N: usize>(frame: &Frame<N>) -> Result<Frame<N>, AllocError>
    ensures { result ≡ Ok frame.now }
{
    frame.clone()
}

/// An expression over variables. Sums and products wrap around at 64 bits.
#[derive(Drop)]
pub enum Expression {
    Number(i64),
    Variable(u32),
    Sum(Box<Expression>, Box<Expression>),
    Product(Box<Expression>, Box<Expression>),
    /// The value of the last expression in an inner scope, in which the variable has the value of the first.
    Let(u32, Box<Expression>, Box<Expression>),
}

impl Expression {
    /// Returns the value of the expression, or `None` if a variable has no value or a scope has no room for a new one.
    pub fn value<const N: usize>(&self, frame: &Frame<N>) -> Option<i64>
        ensures { result ≡ value N frame.now self.now }
    {
        match self {
            Expression::Number(number) => Some(*number),
            Expression::Variable(name) => frame.get(name).copied(),
            Expression::Sum(left, right) => {
                let left = left.value(frame)?;
                Some(left.wrapping_add(right.value(frame)?))
            }
            Expression::Product(left, right) => {
                let left = left.value(frame)?;
                Some(left.wrapping_mul(right.value(frame)?))
            }
            Expression::Let(name, bound, body) => {
                let bound = bound.value(frame)?;
                let mut scope = inner(frame).ok()?;
                if assign(&mut scope, *name, bound) {
                    body.value(&scope)
                } else {
                    None
                }
            }
        }
    }
}
