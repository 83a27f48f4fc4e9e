// The faults of a pair of words of which the lowest n places are real columns.
ghost use Rattle.std.specs.Prelude.{◌≡◌, ◌<◌, ◌≤◌, true};
ghost use Rattle.cells.specs.Bit.{bit};
ghost use Rattle.cells.specs.Pair.{at};
ghost use Rattle.cells.specs.Fault.{stray_in, padded_in, stray_first, padded_first};

use crate::Cells;
use crate::lowest::lowest;
use crate::mask::low;

// A real place holds sign without unit.
pub fn stray(x: Cells, n: u64) -> bool
    requires { (0 < n) × (n ≤ 64) }
    ensures { result ≡ stray_in (bit x.unit) (bit x.sign) n }
{
    let bad = x.sign & (x.sign ^ x.unit);
    bad & low(n) != 0
}

// A place from n on, padding, holds a bit.
pub fn padded(x: Cells, n: u64) -> bool
    requires { n < 64 }
    ensures { result ≡ padded_in (at x) n 64 }
{
    (x.unit | x.sign) >> n != 0
}

// The first place of a pair that has sign without unit.
pub fn first_stray(x: Cells) -> u64
    requires { stray_in (bit x.unit) (bit x.sign) 64 ≡ true }
    ensures { result ≡ stray_first (bit x.unit) (bit x.sign) 64 }
{
    u64::from(lowest(x.sign & (x.sign ^ x.unit)).at)
}

// The first place from n on of a pair that has a bit there.
pub fn first_padded(x: Cells, n: u64) -> u64
    requires { (n < 64) × (padded_in (at x) n 64 ≡ true) }
    ensures { result ≡ padded_first (at x) n 64 }
{
    n + u64::from(lowest((x.unit | x.sign) >> n).at)
}
