// The sum of the digits at each place, by where each operand is plus (1), minus (2) or zero. Read `!(a ^ b)` as: a just where b.
// These are not the article's six operations (its 4.1), whose two result bits are printed exchanged: its r0, the unit, is what `minus` is here, and
// its r1, the sign, what `!zero` is here; so 1 + 0 would be a sign without unit. The back end makes seven of this body, and
// copies no register, where it copies one for the article's six.
ghost use Rattle.cells.specs.Digit.{combine};
ghost use Rattle.cells.specs.Pair.{Good, at, Is};

use crate::Cells;

pub fn sum(x: Cells, y: Cells) -> Cells
    requires { Good x × Good y }
    ensures { Is (λ t. combine 1 (at x t) (at y t)) result }
{
    let x_plus = x.unit ^ x.sign;
    let y_plus = y.unit ^ y.sign;
    let x_minus = x.sign;
    let y_minus = y.sign;
    let x_zero = !x.unit;
    let y_zero = !y.unit;
    // 0 + 0, 2 + 1 and 1 + 2
    let zero = !(x_zero ^ y_zero) & !(x_minus ^ y_plus);
    // 0 + 2, 2 + 0 and 1 + 1; what is left, 0 + 1, 1 + 0 and 2 + 2, is plus
    let minus = !(x_zero ^ y_minus) & !(x_plus ^ y_plus);
    Cells {
        unit: !zero,
        sign: minus,
    }
}
