// The steps of all rows of A in one block.
ghost use Rattle.std.specs.Prelude.{◌≡◌, ◌<◌, length};
ghost use Rattle.cells.specs.Digit.{Matrix};
ghost use Rattle.steps.specs.StepList.{each};
ghost use Rattle.steps.specs.Turn.{due};
ghost use Rattle.walk.specs.Spent.{Spent};
ghost use Rattle.walk.specs.Factors.{Sized, RanFor, row_list};

use super::factors::Block;
use super::piece::piece;
use crate::Left;

impl Block<'_> {
    // Row i: P is added, and then N subtracted.
    fn row_part(&self, product: &mut [u64], table: &[u64], i: usize, left: Left) -> Left
        requires { Sized self.now.factors table.now product.old × (i < self.now.factors.a.rows) }
        ensures spent { Spent left (length (row_list self.now i)) result }
        ensures ran { (B : Matrix) → RanFor self.now.factors B (due left.skip left.budget (row_list self.now i)) table.now product.old table.now product.new }
    {
        let bits = self.factors.a.bits::<2>(i, self.start, self.width);
        let mid = piece::<1>(product, table, &self.factors, i, bits.ones, left);
        piece::<2>(product, table, &self.factors, i, bits.twos, mid)
    }

    pub fn rows_part(&self, product: &mut [u64], table: &[u64], left: Left) -> Left
        requires { Sized self.now.factors table.now product.old }
        ensures spent { Spent left (length (each 0 self.now.factors.a.rows (row_list self.now))) result }
        ensures ran { (B : Matrix) → RanFor self.now.factors B (due left.skip left.budget (each 0 self.now.factors.a.rows (row_list self.now))) table.now product.old table.now product.new }
    {
        // A copy, as in a whole product.
        let block = *self;
        let mut rest = left;
        for i in 0..block.factors.a.rows {
            rest = block.row_part(product, table, i, rest);
        }
        rest
    }
}
