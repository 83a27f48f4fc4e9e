// Two matrices of the same size, and a digit.
ghost use Rattle.std.specs.Prelude.{◌≡◌, false, ◌||◌};
ghost use Rattle.requests.specs.Answers.{word, first};
ghost use Rattle.requests.specs.Sizes.{over};
ghost use Rattle.requests.specs.Pair.{unequal, unfits, pair_tests};

use super::faults::either_fault;
use super::sizes::{either_over, unfit};
use crate::{Buffer, Reason, Size};

// What is wrong with two matrices, a digit, and n words for what is made of them.
#[tactic(auto, unfolding(crate::specs::Pair::pair_tests, crate::specs::Pair::unequal, crate::specs::Pair::unfits, crate::specs::Answers::first))]
pub fn judged(x: Size, y: Size, d: u8, a: &[u64], b: &[u64], n: usize) -> Result<(), Reason>
    ensures { word result ≡ first (pair_tests x y d a.now b.now n) }
{
    if either_over(x, y) {
        return Err(Reason::TooLarge);
    }
    if x != y {
        return Err(Reason::SizesDiffer);
    }
    if unfit(x, a.len()) || unfit(y, b.len()) || unfit(x, n) {
        return Err(Reason::LengthWrong);
    }
    if d > 2 {
        return Err(Reason::ScaleWrong);
    }
    either_fault(Buffer::First, Buffer::Second, x, y, a, b)
}
