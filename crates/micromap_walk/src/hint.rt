//! Hints that tell the compiler what it doesn't see by itself. Each requires that what it tells is so.
ghost use Rattle.std.specs.Prelude.{◌≡◌, ◌<◌, ◌≤◌};

// A list with nothing at index 1.
pub(crate) const NOTHING_AT_1: [usize; 1] = [0];

// Stands where control never comes. `unreachable!()` alone is compiled to a test and a stop, in every turn of every
// loop. A loop up to what lies past the end of a list tells the compiler that it can leave the test out. A function in
// the place of this macro would require what no call can meet, and `rt ci` refuses such a function.
macro_rules! never {
    () => {{
        for _ in 0..$crate::hint::NOTHING_AT_1[1] {}
        unreachable!()
    }};
}

pub(crate) use never;

/// Tells the compiler that two numbers are equal, such as the lengths of two columns, so that it can read the one for
/// the other. They must be equal.
#[inline]
pub(crate) fn equal(left: usize, right: usize)
    requires { left ≡ right }
{
    if left != right {
        never!()
    }
}

/// Tells the compiler that a number is below another, such as an index below a length, so that it can leave out a test of
/// it. It must be below.
#[inline]
pub(crate) fn below(number: usize, bound: usize)
    requires { number < bound }
{
    if number >= bound {
        never!()
    }
}

/// Tells the compiler that a number is at most another, such as a length and the capacity, so that it knows how many turns
/// a loop has at most. It must be at most that.
#[inline]
pub(crate) fn at_most(number: usize, bound: usize)
    requires { number ≤ bound }
{
    if number > bound {
        never!()
    }
}
