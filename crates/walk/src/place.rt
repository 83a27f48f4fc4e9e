// One walk over A: the exact total, and the last block that begins at or before a number of steps.
ghost use Rattle.std.specs.Prelude.{◌≡◌, ◌≤◌, ◌<◌};
ghost use Rattle.steps.specs.StepList.{blocks, block_width};
ghost use Rattle.walk.specs.Factors.{matrix_of};
ghost use Rattle.walk.specs.Place.{StandsAt};

use super::factors::Packed;

#[derive(Clone, Copy)]
pub struct Standing {
    pub total: u64,
    pub block: u64,
    pub before: u64,
}

// How many blocks there are. Of l and k alone, since no matrix need be at hand: a type of the two would be made anew for every call.
pub fn blocks(l: usize, k: usize) -> usize
    requires { (l ≤ 1024) × (0 < k) × (k ≤ 8) }
    ensures { result ≡ blocks l k }
{
    l.div_ceil(k)
}

// The width of block b.
pub fn width(l: usize, k: usize, b: usize) -> usize
    requires { (l ≤ 1024) × (0 < k) × (k ≤ 8) × (b < blocks l k) }
    ensures { result ≡ block_width l k b }
{
    k.min(l - b * k)
}

impl Packed<'_> {
    // Where `done` steps stand, if the blocks are k wide.
    pub fn place(&self, k: usize, done: u64) -> Standing
        requires { (0 < k) × (k ≤ 8) }
        ensures { StandsAt self.now.rows self.now.columns k (matrix_of self.now) done result }
    {
        let mut total: u64 = 0;
        let mut block: u64 = 0;
        let mut before: u64 = 0;
        for b in 0..blocks(self.columns, k) {
            total += self.block_count(b * k, width(self.columns, k, b));
            if total <= done {
                block = b as u64 + 1;
                before = total;
            }
        }
        Standing {
            total,
            block,
            before,
        }
    }
}
