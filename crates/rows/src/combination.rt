// A row plus a digit times another, from part to part.
ghost use Rattle.std.specs.Prelude.{◌+◌, ◌≤◌, ◌<◌, length};
ghost use Rattle.cells.specs.Digit.{combine};
ghost use Rattle.cells.specs.Pair.{Is};
ghost use Rattle.rows.specs.Row.{of2, Made, Readable};

use super::make::{make, make_one, pair};
use cells::Cells;

// The row at x of out becomes the row at y of a plus d times the row at z of b.
pub fn combination(
    out: &mut [u64],
    a: &[u64],
    b: &[u64],
    q: usize,
    x: usize,
    y: usize,
    z: usize,
    d: u64,
)
    requires { (x + (q + q) ≤ length out.old) × Readable q q y a.now × Readable q q z b.now × (d < 3) }
    ensures { Made (of2 (combine d) q a.now y b.now z) x q q out.old out.new }
{
    let combined = |p: usize| -> Cells
        requires { Readable q q y a.now × Readable q q z b.now × (p < q) × (d < 3) }
        ensures { Is (of2 (combine d) q a.exit.now y b.exit.now z p) result }
    { cells::combination::combination(pair(a, q, y, p), pair(b, q, z, p), d) };
    // A row of one pair pays for nothing that the loop prepares.
    if q == 1 {
        make_one(out, q, x, 0, &combined);
    } else {
        make(out, q, x, &combined);
    }
}
