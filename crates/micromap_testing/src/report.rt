//! The lines that say of each row whether it is ok.
ghost use Rattle.std.specs.Prelude.{◌≡◌, ◌≤◌};
ghost use Rattle.std.specs.Io.KnownBytes.{Appends};
ghost use Rattle.std.specs.List.{flat_map};
ghost use Rattle.micromap_testing.specs.Rows.{ok_line};

use std::io::Write;

/// Performs the rows of these numbers in their order, and writes `row <n>: ok` or `row <n>: wrong` for each.
///
/// The result is 0 if all are ok and every line was written, else 1. The first failed write ends the run.
pub fn write_rows<W: Write, F: Fn(usize) -> bool>(out: &mut W, numbers: &[usize], is_ok: F) -> u8
    requires { F.IsAlwaysCallable is_ok }
    ensures bound { result ≤ 1 }
    ensures lines { result ≡ 0 → Appends (W.contents out.old) (W.contents out.new) (flat_map ok_line numbers.now) }
{
    let mut all_ok = true;
    for number in numbers {
        let ok = is_ok(*number);
        let outcome = if ok { "ok" } else { "wrong" };
        if writeln!(out, "row {number}: {outcome}").is_err() {
            return 1;
        }
        all_ok &= ok;
    }
    u8::from(!all_ok)
}
