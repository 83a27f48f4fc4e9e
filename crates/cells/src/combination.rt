// x plus a digit times y, at each place: the sum by the digit 1, the difference by 2. The digit's bits are spread over all 64 places, so that it
// decides no branch; where it is known, the back end drops the masks.
ghost use Rattle.std.specs.Prelude.{◌<◌};
ghost use Rattle.cells.specs.Digit.{mul3, combine};
ghost use Rattle.cells.specs.Pair.{Good, at, Is};

use crate::Cells;
use crate::scaling::spread;
use crate::sum::sum;

// The product of the digits at each place, as in scaling. This formula costs an operation more there, and one less here where y is known to hold
// 1 or 2 alone: then the sign is x's own, or its unit ^ sign, and no `&` is left that the back end cannot know to be needless.
fn times(x: Cells, y: Cells) -> Cells
    requires { Good x × Good y }
    ensures { Is (λ t. mul3 (at x t) (at y t)) result }
{
    Cells {
        unit: x.unit & y.unit,
        sign: (x.sign & y.unit) ^ (x.unit & y.sign),
    }
}

pub fn combination(x: Cells, y: Cells, d: u64) -> Cells
    requires { Good x × Good y × (d < 3) }
    ensures { Is (λ t. combine d (at x t) (at y t)) result }
{
    sum(x, times(y, spread(d)))
}
