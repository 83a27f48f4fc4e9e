// Each digit's negative.
ghost use Rattle.cells.specs.Digit.{neg3};
ghost use Rattle.cells.specs.Pair.{Good, at, Is};

use crate::Cells;

pub fn negation(x: Cells) -> Cells
    requires { Good x }
    ensures { Is (λ t. neg3 (at x t)) result }
{
    Cells {
        unit: x.unit,
        sign: x.unit ^ x.sign,
    }
}
