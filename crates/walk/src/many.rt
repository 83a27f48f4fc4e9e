// Counts the steps of many blocks at once: as many as fit in a word. No request counts by it yet; docs/PROMISES.md has its promise.
ghost use Rattle.std.specs.Prelude.{◌≡◌, ℕ, ◌+◌, ◌-◌, ◌*◌, ◌/◌, ◌^◌, ◌≤◌, ◌<◌};
ghost use Rattle.cells.specs.Counts.{sum};
ghost use Rattle.cells.specs.Lanes.{InLanes};
ghost use Rattle.steps.specs.StepList.{blocks, block_width};
ghost use Rattle.steps.specs.Count.{count_at};
ghost use Rattle.walk.specs.Many.{Fitting, row_of, Counted};
ghost use Rattle.walk.specs.Factors.{matrix_of};

use super::factors::Packed;
use super::place::width;
use cells::Cells;
use cells::lanes::{Lanes, cut, filled};
use rows::wide::{of_one, of_two};

// The table steps of the n blocks from block b on.
fn tables(l: usize, k: usize, b: usize, n: usize) -> u64
    requires { (l ≤ 1024) × (0 < k) × (k ≤ 8) × (b + n ≤ blocks l k) × (n ≤ 64) }
    ensures { result ≡ sum b n (λ c. 2 ^ block_width l k c - 1) }
{
    let mut t: u64 = 0;
    for c in b..b + n {
        t += (1 << (width(l, k, c) as u64)) - 1;
    }
    t
}

impl Packed<'_> {
    // The row steps of the n blocks from block b on, where `read` gives a row's columns from theirs on, by the word in which they begin.
    fn rows_many<F: Fn(usize) -> Cells>(
        &self,
        k: usize,
        b: usize,
        n: usize,
        lanes: Lanes,
        read: F,
    ) -> u64
        requires fitting { Fitting self.now.rows self.now.columns k b n self.now.words.now }
        requires in_lanes { InLanes (k - 1) n lanes }
        requires callable { (i : ℕ) → i < self.now.rows → F.pre read (i * (2 * self.now.plane) + b * k / 64) }
        requires counted { (i : ℕ) (x : _) → i < self.now.rows → F.post read (i * (2 * self.now.plane) + b * k / 64) x → Counted self.now.columns k (matrix_of self.now) b n i x }
        ensures { result ≡ sum 0 self.now.rows (row_of self.now.columns k (matrix_of self.now) b n) }
    {
        let wide = 2 * self.plane;
        let p = b * k / 64;
        let mut steps: u64 = 0;
        for i in 0..self.rows {
            steps += filled(read(i * wide + p), lanes);
        }
        steps
    }

    // The steps of the n blocks from block b on.
    pub fn many_count(&self, k: usize, b: usize, n: usize) -> u64
        requires { Fitting self.now.rows self.now.columns k b n self.now.words.now }
        ensures { result ≡ sum b n (count_at self.now.rows self.now.columns k (matrix_of self.now)) }
    {
        let s = b * k;
        let lanes = cut(k, n);
        let made = tables(self.columns, k, b, n);
        let t = (s % 64) as u64;
        // Their columns lie in one word of each plane, or the row ends in it; else they may go on into the next word.
        if t == 0 || s / 64 + 1 == self.plane {
            made + self.rows_many(k, b, n, lanes, |x| of_one(self.words, self.plane, x, t))
        } else {
            made + self.rows_many(k, b, n, lanes, |x| of_two(self.words, self.plane, x, t))
        }
    }
}
