// A buffer of the right length as it is lent, and where one of the two faults of a row stands in it first, by row and then column.
ghost use Rattle.std.specs.Prelude.{◌≡◌, ℕ, List, Bool, true, false, ◌+◌, ◌*◌, ◌^◌, ◌≤◌, ◌<◌, length, MatchOption};
ghost use Rattle.cells.specs.Any.{any, First};
ghost use Rattle.buffers.specs.Buffer.{planes, words as words_of};
ghost use Rattle.buffers.specs.Fault.{stray, padded, place_in};
ghost use Rattle.requests.specs.Faults.{row_strays, row_pads, first_stray, first_padding, place_at};

use crate::{Buffer, Place};
use buffers::planes::planes;

// So many rows of so many columns, and exactly their words. It is not walk's Packed, which is legal: here that is still to be found out.
#[derive(Clone, Copy)]
pub struct Lent<'a> {
    pub rows: usize,
    pub columns: usize,
    pub words: &'a [u64],
    ghost rows_fit: { rows ≤ 1024 },
    ghost columns_fit: { columns ≤ 1024 },
    ghost whole: { length words.now ≡ words_of rows columns },
}

// A fault of a row: by columns, words and row whether the row has it, and in which column first. The impls' bodies differ in the function of
// rows that they name.
pub trait Fault {
    ghost has: { ℕ → List ℕ → ℕ → Bool };

    ghost column: { ℕ → List ℕ → ℕ → ℕ };

    fn is_in(lent: &Lent, i: usize) -> bool
        requires { i < lent.now.rows }
        ensures { result ≡ has lent.now.columns lent.now.words.now i };

    fn column_in(lent: &Lent, i: usize) -> usize
        requires { (i < lent.now.rows) × (has lent.now.columns lent.now.words.now i ≡ true) }
        ensures { (result ≡ column lent.now.columns lent.now.words.now i) × (result < 2 ^ 32) };
}

// Sign without unit in a real column.
pub struct Stray;

impl Fault for Stray {
    ghost has = { row_strays };

    ghost column = { first_stray };

    fn is_in(lent: &Lent, i: usize) -> bool {
        rows::fault::stray(
            lent.words,
            planes(lent.columns),
            lent.columns,
            lent.start(i),
        )
    }

    fn column_in(lent: &Lent, i: usize) -> usize {
        rows::fault::stray_column(
            lent.words,
            planes(lent.columns),
            lent.columns,
            lent.start(i),
        )
    }
}

// A padding bit.
pub struct Padding;

impl Fault for Padding {
    ghost has = { row_pads };

    ghost column = { first_padding };

    fn is_in(lent: &Lent, i: usize) -> bool {
        rows::fault::padded(
            lent.words,
            planes(lent.columns),
            lent.columns,
            lent.start(i),
        )
    }

    fn column_in(lent: &Lent, i: usize) -> usize {
        rows::fault::padded_column(
            lent.words,
            planes(lent.columns),
            lent.columns,
            lent.start(i),
        )
    }
}

impl Lent<'_> {
    // Where row i begins.
    fn start(&self, i: usize) -> usize
        requires { i < self.now.rows }
        ensures at { result ≡ i * (2 * planes self.now.columns) }
        ensures within { result + (planes self.now.columns + planes self.now.columns) ≤ length self.now.words.now }
    {
        i * (2 * planes(self.columns))
    }

    // Row by row. It does not say where, so that a legal buffer is read fast.
    fn has<F: Fault>(&self) -> bool
        ensures { result ≡ any self.now.rows (F.has self.now.columns self.now.words.now) }
    {
        (0..self.rows).any(|i| F::is_in(self, i))
    }

    // The first row with the fault, from a row on before which there is none.
    pub fn first<F: Fault>(&self, from: usize) -> Option<usize>
        requires { any from (F.has self.now.columns self.now.words.now) ≡ false }
        ensures { MatchOption result (any self.now.rows (F.has self.now.columns self.now.words.now) ≡ false) (First self.now.rows (F.has self.now.columns self.now.words.now)) }
    {
        (from..self.rows).find(|i| F::is_in(self, *i))
    }

    // The place of the fault's first, which is in row i.
    pub fn place<F: Fault>(&self, buffer: Buffer, i: usize) -> Place
        requires { First self.now.rows (F.has self.now.columns self.now.words.now) i }
        ensures { result ≡ place_at buffer (place_in self.now.rows (F.has self.now.columns self.now.words.now) (F.column self.now.columns self.now.words.now)) }
    {
        Place {
            buffer,
            row: i as u16,
            column: F::column_in(self, i) as u32,
        }
    }

    // The sign bits without unit of rows `from` to below `to`, padding included, laid over one another: no test in the loop, so that a legal buffer is
    // read fast.
    fn strays(&self, from: usize, to: usize) -> u64
        requires { (from ≤ to) × (to ≤ self.now.rows) }
        ensures { result ≡ 0 → stray from self.now.columns self.now.words.now ≡ false → stray to self.now.columns self.now.words.now ≡ false }
    {
        let q = planes(self.columns);
        let mut bad: u64 = 0;
        for i in from..to {
            bad |= rows::fault::strays(self.words, q, q, self.start(i));
        }
        bad
    }

    // As many rows that have no stray sign as are read fast: all of a legal buffer. It stops before 256 rows that have one, or a padding bit that looks
    // like one. With one word a plane the rows one by one cost less.
    fn clear(&self) -> usize
        ensures { (result ≤ self.now.rows) × (stray result self.now.columns self.now.words.now ≡ false) }
    {
        if planes(self.columns) < 2 {
            if self.has::<Stray>() {
                return 0;
            }
            return self.rows;
        }
        let mut from = 0;
        // Tried as a `for` over groups, with `planes` by `div_ceil`: a check of 64 by 192 cells takes 26 instructions more.
        while from < self.rows {
            let to = self.rows.min(from + 256);
            if self.strays(from, to) != 0 {
                return from;
            }
            from = to;
        }
        self.rows
    }

    // A row before which no sign is stray, and from which on something is wrong, if only in the padding.
    #[tactic(auto, unfolding(buffers::specs::Fault::padded))]
    pub fn suspect(&self) -> Option<usize>
        ensures { MatchOption result ((stray self.now.rows self.now.columns self.now.words.now ≡ false) × (padded self.now.rows self.now.columns self.now.words.now ≡ false)) (λ i. (i ≤ self.now.rows) × (stray i self.now.columns self.now.words.now ≡ false)) }
    {
        let clear = self.clear();
        if clear < self.rows || self.has::<Padding>() {
            return Some(clear);
        }
        None
    }
}
