// D times a row is added to a row, in place: the row is added by the digit 1 and subtracted by 2. The digit is known wherever pairs are made.
// A const parameter is an integer or a bool, and no type can say of it that it is below 3.
ghost use Rattle.std.specs.Prelude.{◌≤◌, ◌<◌};
ghost use Rattle.cells.specs.Digit.{combine};
ghost use Rattle.rows.specs.Row.{of2, Made, Readable, InPlace};

use super::in_place::{four, one, three, two};

// The last pairs, fewer than four: no loop, which would be tested for overlap.
fn accumulate_rest<const D: u64>(
    t: &mut [u64],
    b: &[u64],
    q: usize,
    n: usize,
    x: usize,
    y: usize,
    z: usize,
)
    requires { (n ≤ 3) × InPlace q n x y z t.old b.now × (D < 3) }
    ensures { Made (of2 (combine D) q t.old y b.now z) x q n t.old t.new }
{
    if n == 0 {
        return;
    }
    if n == 1 {
        one::<D>(t, b, q, x, y, z);
    } else if n == 2 {
        two::<D>(t, b, q, x, y, z);
    } else {
        three::<D>(t, b, q, x, y, z);
    }
}

// A whole row of at most four pairs. Where their number is known, so is the distance of the planes, and the code is straight. Three pairs are not
// tested for by equality: of four such tests, as of a match, the back end makes a jump through a table, which costs more.
fn accumulate_short<const D: u64>(t: &mut [u64], b: &[u64], q: usize, x: usize, y: usize, z: usize)
    requires { (q ≤ 4) × InPlace q q x y z t.old b.now × (D < 3) }
    ensures { Made (of2 (combine D) q t.old y b.now z) x q q t.old t.new }
{
    if q == 4 {
        four::<D>(t, b, q, x, y, z);
    } else if q == 2 {
        two::<D>(t, b, q, x, y, z);
    } else if q > 2 {
        // The number, since the back end does not know q for it.
        three::<D>(t, b, 3, x, y, z);
    } else if q == 1 {
        one::<D>(t, b, q, x, y, z);
    }
}

// A whole row, four pairs at a time.
fn accumulate_long<const D: u64>(t: &mut [u64], b: &[u64], q: usize, x: usize, y: usize, z: usize)
    requires { InPlace q q x y z t.old b.now × (D < 3) }
    ensures { Made (of2 (combine D) q t.old y b.now z) x q q t.old t.new }
{
    let end = q - q % 4;
    let mut j = 0;
    // Tried as `for i in 0..q / 4`: a row of 8 pairs takes 12 instructions more.
    while j < end {
        four::<D>(t, b, q, x + j, y + j, z + j);
        j += 4;
    }
    accumulate_rest::<D>(t, b, q, q - j, x + j, y + j, z + j);
}

// The row at x of t becomes what is made of the row at y of t and the row at z of b.
pub fn accumulate_row<const D: u64>(
    t: &mut [u64],
    b: &[u64],
    q: usize,
    x: usize,
    y: usize,
    z: usize,
)
    requires { InPlace q q x y z t.old b.now × (D < 3) }
    ensures { Made (of2 (combine D) q t.old y b.now z) x q q t.old t.new }
{
    // A short row pays for nothing that the loop prepares.
    if q <= 4 {
        accumulate_short::<D>(t, b, q, x, y, z);
    } else {
        accumulate_long::<D>(t, b, q, x, y, z);
    }
}

// The row at x of d, lent as a part that starts mid-slice, and the row at y of s.
#[inline(always)]
pub fn accumulate<const D: u64>(d: &mut [u64], s: &[u64], q: usize, x: usize, y: usize)
    requires { Readable q q x d.old × Readable q q y s.now × (D < 3) }
    ensures { Made (of2 (combine D) q d.old x s.now y) x q q d.old d.new }
{
    let e = x + 2 * q;
    // A row of one pair pays for nothing that longer rows need.
    if q == 1 {
        one::<D>(&mut d[x..e], s, q, 0, 0, y);
    } else {
        accumulate_row::<D>(&mut d[x..e], s, q, 0, 0, y);
    }
}
