// One row step.
ghost use Rattle.std.specs.Prelude.{◌≡◌, ◌^◌, ◌<◌};
ghost use Rattle.cells.specs.Digit.{Matrix};
ghost use Rattle.steps.specs.Step.{row_step};
ghost use Rattle.steps.specs.StepList.{unless0};
ghost use Rattle.walk.specs.Factors.{Sized, RanFor};

use crate::factors::Factors;
use rows::accumulate::accumulate;

// D times table row x is added to row i of the product, where D is 1 or 2: no step where x is 0. A row is q words a plane. Compiled where it is called, so
// that the sizes stay in registers: with that, and the words of a block told once, a product of 64 by 64 at width 5 took 51,671 instructions and not 63,422.
#[inline(always)]
pub fn row_step<const D: u64>(
    product: &mut [u64],
    table: &[u64],
    factors: &Factors,
    q: usize,
    i: usize,
    x: u64,
)
    requires { Sized factors.now table.now product.old × (i < factors.now.a.rows) × (x < 2 ^ factors.now.width) × (0 < D) × (D < 3) × (q ≡ factors.now.b.plane) }
    ensures { (B : Matrix) → RanFor factors.now B (unless0 (row_step i D) x) table.now product.old table.now product.new }
{
    if x == 0 {
        return;
    }
    let wide = 2 * q;
    let at = i * wide;
    let from = (x as usize) * wide;
    accumulate::<D>(product, table, q, at, from);
}
