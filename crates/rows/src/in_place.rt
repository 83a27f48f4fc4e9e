// The first pairs of a row are made in place, a function for each number of them up to 4: the pairs at x of t become those at y of t plus D times those
// at z of b. Straight-line bodies load two words of a plane before they store: the back end makes vector code of them with no test of overlap. It puts
// them where they are called, and the digit is known wherever it compiles them, so that its masks are gone.
ghost use Rattle.std.specs.Prelude.{◌<◌};
ghost use Rattle.cells.specs.Digit.{combine};
ghost use Rattle.rows.specs.Row.{of2, Made, InPlace};

use super::words::{load_at, store, store_two};
use cells::combination::combination;

pub fn one<const D: u64>(t: &mut [u64], b: &[u64], q: usize, x: usize, y: usize, z: usize)
    requires { InPlace q 1 x y z t.old b.now × (D < 3) }
    ensures { Made (of2 (combine D) q t.old y b.now z) x q 1 t.old t.new }
{
    let v = combination(load_at(t, y, y + q), load_at(b, z, z + q), D);
    store(t, q, x, v);
}

pub fn two<const D: u64>(t: &mut [u64], b: &[u64], q: usize, x: usize, y: usize, z: usize)
    requires { InPlace q 2 x y z t.old b.now × (D < 3) }
    ensures { Made (of2 (combine D) q t.old y b.now z) x q 2 t.old t.new }
{
    let s = y + q;
    let r = z + q;
    let v = combination(load_at(t, y, s), load_at(b, z, r), D);
    let w = combination(load_at(t, y + 1, s + 1), load_at(b, z + 1, r + 1), D);
    store_two(t, q, x, v, w);
}

pub fn three<const D: u64>(t: &mut [u64], b: &[u64], q: usize, x: usize, y: usize, z: usize)
    requires { InPlace q 3 x y z t.old b.now × (D < 3) }
    ensures { Made (of2 (combine D) q t.old y b.now z) x q 3 t.old t.new }
{
    two::<D>(t, b, q, x, y, z);
    one::<D>(t, b, q, x + 2, y + 2, z + 2);
}

pub fn four<const D: u64>(t: &mut [u64], b: &[u64], q: usize, x: usize, y: usize, z: usize)
    requires { InPlace q 4 x y z t.old b.now × (D < 3) }
    ensures { Made (of2 (combine D) q t.old y b.now z) x q 4 t.old t.new }
{
    two::<D>(t, b, q, x, y, z);
    two::<D>(t, b, q, x + 2, y + 2, z + 2);
}
