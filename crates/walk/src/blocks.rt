// The steps of blocks, one after another.
ghost use Rattle.std.specs.Prelude.{◌≡◌, ◌≤◌, ◌<◌, length};
ghost use Rattle.steps.specs.StepList.{each, blocks, block_at};
ghost use Rattle.steps.specs.Count.{count_at};
ghost use Rattle.steps.specs.Turn.{due};
ghost use Rattle.walk.specs.Spent.{Spent};
ghost use Rattle.walk.specs.Factors.{Sized, RanFor, matrix_of, block_list};

use super::factors::{Block, Factors};
use super::place::blocks;
use crate::Left;

impl Block<'_> {
    // The steps of the block that are due: its table rows, and then the rows of A.
    fn block_part(&self, table: &mut [u64], product: &mut [u64], left: Left) -> Left
        requires { Sized self.now.factors table.old product.old }
        ensures spent { Spent left (length (block_list self.now)) result }
        ensures ran { RanFor self.now.factors (matrix_of self.now.factors.b) (due left.skip left.budget (block_list self.now)) table.old product.old table.new product.new }
    {
        let top: u64 = (1 << (self.width as u64)) - 1;
        let skipped = left.skip.min(top);
        let made = left.budget.min(top - skipped);
        let from = (skipped + 1) as usize;
        self.table_part(table, from, from + made as usize);
        let rest = Left {
            skip: left.skip - skipped,
            budget: left.budget - made,
        };
        self.rows_part(product, table, rest)
    }
}

impl Factors<'_> {
    // The steps that are due from block c on, in which they begin: those to skip are fewer than its own.
    pub fn blocks_part(&self, table: &mut [u64], product: &mut [u64], c: usize, left: Left)
        requires { Sized self.now table.old product.old × (c ≤ blocks self.now.a.columns self.now.width) × (c < blocks self.now.a.columns self.now.width → left.skip < count_at self.now.a.rows self.now.a.columns self.now.width (matrix_of self.now.a) c) }
        ensures { RanFor self.now (matrix_of self.now.b) (due left.skip left.budget (each c (blocks self.now.a.columns self.now.width) (block_at self.now.a.rows self.now.a.columns self.now.width (matrix_of self.now.a)))) table.old product.old table.new product.new }
    {
        let end = blocks(self.a.columns, self.width);
        let mut rest = left;
        for d in c..end {
            if rest.budget == 0 {
                return;
            }
            rest = self.block(d).block_part(table, product, rest);
        }
    }
}
