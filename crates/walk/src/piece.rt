// The steps of one row of A in one block.
ghost use Rattle.std.specs.Prelude.{◌≡◌, ◌^◌, ◌<◌, length};
ghost use Rattle.cells.specs.Digit.{Matrix};
ghost use Rattle.steps.specs.Step.{row_step};
ghost use Rattle.steps.specs.StepList.{unless0};
ghost use Rattle.steps.specs.Turn.{due};
ghost use Rattle.walk.specs.Spent.{Spent};
ghost use Rattle.walk.specs.Factors.{Sized, RanFor};

use super::factors::Factors;
use super::row_step::row_step;
use crate::Left;

// The row step of digit D, 1 or 2, and table row x: none where x is 0, and none where it is to be skipped or the budget is spent.
pub fn piece<const D: u64>(
    product: &mut [u64],
    table: &[u64],
    factors: &Factors,
    i: usize,
    x: u64,
    left: Left,
) -> Left
    requires { Sized factors.now table.now product.old × (i < factors.now.a.rows) × (x < 2 ^ factors.now.width) × (0 < D) × (D < 3) }
    ensures spent { Spent left (length (unless0 (row_step i D) x)) result }
    ensures ran { (B : Matrix) → RanFor factors.now B (due left.skip left.budget (unless0 (row_step i D) x)) table.now product.old table.now product.new }
{
    if x == 0 {
        return left;
    }
    if left.skip != 0 {
        return Left {
            skip: left.skip - 1,
            ..left
        };
    }
    if left.budget == 0 {
        return left;
    }
    row_step::<D>(product, table, factors, factors.b.plane, i, x);
    Left {
        skip: 0,
        budget: left.budget - 1,
    }
}
