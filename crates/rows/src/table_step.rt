// A table step: the row at x becomes the row at y, before it in the same slice, plus the row at z of b. The part that is lent holds both
// rows, so that no row is copied.
ghost use Rattle.std.specs.Prelude.{◌+◌, ◌≤◌, length};
ghost use Rattle.cells.specs.Digit.{combine};
ghost use Rattle.rows.specs.Row.{of2, Made, Readable};

use super::accumulate::accumulate_row;
use super::in_place::one;

pub fn table_step(t: &mut [u64], b: &[u64], q: usize, x: usize, y: usize, z: usize)
    requires { (y + (q + q) ≤ x) × (x + (q + q) ≤ length t.old) × Readable q q y t.old × Readable q q z b.now }
    ensures { Made (of2 (combine 1) q t.old y b.now z) x q q t.old t.new }
{
    let e = x + 2 * q;
    let at = x - y;
    // A row of one pair pays for nothing that longer rows need.
    if q == 1 {
        one::<1>(&mut t[y..e], b, q, at, 0, z);
    } else {
        accumulate_row::<1>(&mut t[y..e], b, q, at, 0, z);
    }
}
