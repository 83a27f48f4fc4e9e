// A row times a digit, from part to part.
ghost use Rattle.std.specs.Prelude.{◌+◌, ◌≤◌, ◌<◌, length};
ghost use Rattle.cells.specs.Digit.{mul3};
ghost use Rattle.rows.specs.Row.{of1, Made, Readable};

use super::make::pair;
use super::words::store;
use cells::scaling::scale;

// The row at x of out becomes d times the row at y of a.
pub fn scaling(out: &mut [u64], a: &[u64], q: usize, x: usize, y: usize, d: u64)
    requires { (d < 3) × (x + (q + q) ≤ length out.old) × Readable q q y a.now }
    ensures { Made (of1 (λ a. mul3 a d) q a.now y) x q q out.old out.new }
{
    // Tried as `make` with this rule: a row of 8 pairs takes 14 instructions more.
    for p in 0..q {
        store(out, q, x + p, scale(pair(a, q, y, p), d));
    }
}
