// The lanes of a word that hold a bit, counted: lane 0 is lowest, and all have k bits.
ghost use Rattle.std.specs.Prelude.{◌≡◌, ℕ, suc, ◌+◌, ◌-◌, ◌*◌, ◌^◌, ◌<◌, ◌≤◌, min, bit_xor};
ghost use Rattle.cells.specs.Lanes.{some_of, filled, InLanes};
ghost use Rattle.cells.specs.Pair.{Good};

use crate::Cells;

// For each lane the bits below its top bit, and its top bit; and how far a lane's answer is put down so that it and another share a word.
#[derive(Clone, Copy)]
pub struct Lanes {
    pub low: u64,
    pub top: u64,
    pub put: u64,
}

// The first n lanes of k bits.
pub fn cut(k: usize, n: usize) -> Lanes
    requires { (0 < k) × (k ≤ 8) × (n * k ≤ 64) }
    ensures { InLanes (k - 1) n result }
{
    let below = k as u64 - 1;
    let one = 1 << below;
    let mut low = 0;
    let mut top = 0;
    for _lane in 0..n {
        low = (low << k) + (one - 1);
        top = (top << k) + one;
    }
    Lanes {
        low,
        top,
        // The place below the top bit, if a lane has one.
        put: below.min(1),
    }
}

// The top bit of each lane that is not 0: what is below it carries into it.
fn some(x: u64, lanes: Lanes) -> u64
    requires { lanes.low < 2 ^ 63 }
    ensures { result ≡ some_of x lanes.low lanes.top }
{
    (((x & lanes.low) + lanes.low) | x) & lanes.top
}

// How many lanes hold a 1, and how many a 2, together. Both are counted at once: the ones' bits are put one place down, where a lane has one, and else
// no place has both.
pub fn filled(x: Cells, lanes: Lanes) -> u64
    requires { (lanes.low < 2 ^ 63) × (lanes.put < 64) × Good x }
    ensures { (j n : ℕ) → InLanes j n lanes → result ≡ filled (suc j) n (bit_xor x.unit x.sign) + filled (suc j) n x.sign }
{
    let ones = some(x.unit ^ x.sign, lanes);
    let twos = some(x.sign, lanes);
    u64::from(((ones >> lanes.put) | twos).count_ones())
}
