// Every step of the list: the walk of a whole product, which has nothing to skip and pays for no budget.
ghost use Rattle.std.specs.Prelude.{◌≡◌, ◌+◌, ◌%◌, ◌^◌, ◌≤◌, ◌<◌};
ghost use Rattle.cells.specs.Digit.{Matrix};
ghost use Rattle.steps.specs.StepList.{each, steps};
ghost use Rattle.walk.specs.Factors.{Sized, RanFor, matrix_of, row_list, block_list};

use super::factors::{Block, Factors};
use super::place::blocks;
use super::row_step::row_step;

impl Block<'_> {
    // Row i: P is added, and then N subtracted.
    fn row_all<const WORDS: usize>(&self, product: &mut [u64], table: &[u64], q: usize, i: usize)
        requires { Sized self.now.factors table.now product.old × (i < self.now.factors.a.rows) × (WORDS ≡ 1 → self.now.start % 64 + self.now.width ≤ 64) × (q ≡ self.now.factors.b.plane) }
        ensures { (B : Matrix) → RanFor self.now.factors B (row_list self.now i) table.now product.old table.now product.new }
    {
        let bits = self.factors.a.bits::<WORDS>(i, self.start, self.width);
        row_step::<1>(product, table, &self.factors, q, i, bits.ones);
        row_step::<2>(product, table, &self.factors, q, i, bits.twos);
    }

    // All rows, where the block's columns lie in so many words of a plane: 1, or 2 where that is not known.
    #[inline(always)]
    fn rows_each<const WORDS: usize>(&self, product: &mut [u64], table: &[u64], q: usize)
        requires { Sized self.now.factors table.now product.old × (WORDS ≡ 1 → self.now.start % 64 + self.now.width ≤ 64) × (q ≡ self.now.factors.b.plane) }
        ensures { (B : Matrix) → RanFor self.now.factors B (each 0 self.now.factors.a.rows (row_list self.now)) table.now product.old table.now product.new }
    {
        // A copy, which no step can write: so its sizes are read once and not in every row.
        let block = *self;
        for i in 0..block.factors.a.rows {
            block.row_all::<WORDS>(product, table, q, i);
        }
    }

    // It is told once a block, and not in every row, whether its columns go on into the next word.
    #[inline(always)]
    fn rows_all(&self, product: &mut [u64], table: &[u64], q: usize)
        requires { Sized self.now.factors table.now product.old × (q ≡ self.now.factors.b.plane) }
        ensures { (B : Matrix) → RanFor self.now.factors B (each 0 self.now.factors.a.rows (row_list self.now)) table.now product.old table.now product.new }
    {
        if self.start % 64 + self.width <= 64 {
            self.rows_each::<1>(product, table, q);
        } else {
            self.rows_each::<2>(product, table, q);
        }
    }

    // The block's table rows, and then the rows of A.
    #[inline(always)]
    fn block_of(&self, table: &mut [u64], product: &mut [u64], q: usize, rows: usize)
        requires { Sized self.now.factors table.old product.old × (q ≡ self.now.factors.b.plane) × (rows ≡ 2 ^ self.now.width) }
        ensures { RanFor self.now.factors (matrix_of self.now.factors.b) (block_list self.now) table.old product.old table.new product.new }
    {
        self.table_rows(table, q, 1, rows);
        self.rows_all(product, table, q);
    }

    // It is told once a block, and not in every step, whether a row of the product is one pair: the number goes down to the steps.
    fn block_all(&self, table: &mut [u64], product: &mut [u64])
        requires { Sized self.now.factors table.old product.old }
        ensures { RanFor self.now.factors (matrix_of self.now.factors.b) (block_list self.now) table.old product.old table.new product.new }
    {
        let rows: usize = 1 << self.width;
        if self.factors.b.plane == 1 {
            self.block_of(table, product, 1, rows);
        } else {
            self.block_of(table, product, self.factors.b.plane, rows);
        }
    }
}

impl Factors<'_> {
    pub fn blocks_all(&self, table: &mut [u64], product: &mut [u64])
        requires { Sized self.now table.old product.old }
        ensures { RanFor self.now (matrix_of self.now.b) (steps self.now.a.rows self.now.a.columns self.now.width (matrix_of self.now.a)) table.old product.old table.new product.new }
    {
        for c in 0..blocks(self.a.columns, self.width) {
            self.block(c).block_all(table, product);
        }
    }
}
