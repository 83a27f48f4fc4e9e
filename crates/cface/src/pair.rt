// Two matrices of the same size, and a digit.
ghost use Rattle.std.specs.Prelude.{◌≡◌, length};
ghost use Rattle.requests.specs.Answers.{word, first};
ghost use Rattle.cface.specs.Pair.{pair_sizes};

use super::limit::{both_within, unfit};
use requests::{Reason, Size};

// The tests of sizes, lengths and the digit, which is any 64-bit number.
#[tactic(auto, using(crate::proofs::LimitLaws::both_limit_given), unfolding(crate::specs::Pair::pair_sizes, requests::specs::Pair::unequal, requests::specs::Answers::first))]
pub fn judged(x: Size, y: Size, digit: u64, a: &[u8], b: &[u8], out: &[u8]) -> Result<(), Reason>
    ensures { word result ≡ first (pair_sizes x y digit (length a.now) (length b.now) (length out.now)) }
{
    both_within(x, y)?;
    if x != y {
        return Err(Reason::SizesDiffer);
    }
    if unfit(x, a) || unfit(y, b) || unfit(x, out) {
        return Err(Reason::LengthWrong);
    }
    if digit > 2 {
        return Err(Reason::ScaleWrong);
    }
    Ok(())
}
