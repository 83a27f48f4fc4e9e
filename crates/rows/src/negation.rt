// A row negated, from part to part.
ghost use Rattle.std.specs.Prelude.{◌+◌, ◌≤◌, ◌<◌, length};
ghost use Rattle.cells.specs.Digit.{neg3};
ghost use Rattle.cells.specs.Pair.{Is};
ghost use Rattle.rows.specs.Row.{of1, Made, Readable};

use super::make::{make, pair};
use cells::Cells;

// The row at x of out becomes the negative of the row at y of a.
pub fn negation(out: &mut [u64], a: &[u64], q: usize, x: usize, y: usize)
    requires { (x + (q + q) ≤ length out.old) × Readable q q y a.now }
    ensures { Made (of1 neg3 q a.now y) x q q out.old out.new }
{
    let negative = |p: usize| -> Cells
        requires { Readable q q y a.now × (p < q) }
        ensures { Is (of1 neg3 q a.exit.now y p) result }
    { cells::negation::negation(pair(a, q, y, p)) };
    make(out, q, x, &negative);
}
