// Counts the steps of a block.
ghost use Rattle.std.specs.Prelude.{◌≡◌, ◌+◌, ◌-◌, ◌%◌, ◌≤◌, ◌<◌};
ghost use Rattle.steps.specs.StepList.{P, N};
ghost use Rattle.steps.specs.Count.{block_count};
ghost use Rattle.walk.specs.Factors.{matrix_of};

use super::factors::Packed;
use rows::block::{Bits, block};

impl Packed<'_> {
    // P and N of row i in the block of the w columns from column s on. A caller that knows that these lie in one word of each plane says 1, and else 2.
    // Start and width and no Block: total and place count A's blocks with no B at hand.
    pub fn bits<const WORDS: usize>(&self, i: usize, s: usize, w: usize) -> Bits
        requires { (i < self.now.rows) × (0 < w) × (w ≤ 8) × (s + w ≤ self.now.columns) × (WORDS ≡ 1 → s % 64 + w ≤ 64) }
        ensures { (result.ones ≡ P (matrix_of self.now) s w i) × (result.twos ≡ N (matrix_of self.now) s w i) }
    {
        block::<WORDS>(self.words, self.plane, i * (2 * self.plane), s, w)
    }

    // The steps of the block: its table rows, and one for each P and N that is not 0.
    pub fn block_count(&self, s: usize, w: usize) -> u64
        requires { (0 < w) × (w ≤ 8) × (s + w ≤ self.now.columns) }
        ensures { result ≡ block_count self.now.rows (matrix_of self.now) s w }
    {
        let mut n: u64 = (1 << (w as u64)) - 1;
        for i in 0..self.rows {
            let bits = self.bits::<2>(i, s, w);
            n += bits.ones.min(1) + bits.twos.min(1);
        }
        n
    }
}
