// A digit times the digit at each place. The digit's bits are spread over all 64 places, so that it decides no branch. It is a number below 3, as mul3 and
// combine have it: a type of its own would be made and taken apart where a request has tested it.
ghost use Rattle.std.specs.Prelude.{ℕ, ◌<◌};
ghost use Rattle.cells.specs.Digit.{mul3};
ghost use Rattle.cells.specs.Pair.{Good, at, Is};
ghost use Rattle.cells.specs.Scaling.{Spread};

use crate::Cells;

// The digit d at each of the 64 places: zero minus a bit wraps to a mask.
pub fn spread(d: u64) -> Cells
    requires { d < 3 }
    ensures { Spread d result.unit result.sign }
{
    Cells {
        unit: ((d + 1) >> 1).wrapping_neg(),
        sign: (d >> 1).wrapping_neg(),
    }
}

// The product of the digits at each place.
pub fn product(x: Cells, y: Cells) -> Cells
    requires { Good x × Good y }
    ensures { Is (λ t. mul3 (at x t) (at y t)) result }
{
    let unit = x.unit & y.unit;
    let sign = x.sign ^ y.sign;
    Cells {
        unit,
        sign: unit & sign,
    }
}

pub fn scale(x: Cells, d: u64) -> Cells
    requires { Good x × (d < 3) }
    ensures { Is (λ t. mul3 (at x t) d) result }
{
    product(x, spread(d))
}
