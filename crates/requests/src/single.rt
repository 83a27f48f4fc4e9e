// One matrix, and room for what is made of it.
ghost use Rattle.std.specs.Prelude.{◌≡◌};
ghost use Rattle.requests.specs.Answers.{word, first};
ghost use Rattle.requests.specs.Single.{single_tests};

use super::faults::fault;
use super::sizes::{over, unfit};
use crate::{Buffer, Reason, Size};

// What is wrong with a matrix of size s and n words for one of size t: a number, as the request lends no words yet to be looked at.
#[tactic(auto, unfolding(crate::specs::Single::single_tests, crate::specs::Answers::first))]
pub fn judged(s: Size, t: Size, a: &[u64], n: usize) -> Result<(), Reason>
    ensures { word result ≡ first (single_tests s t a.now n) }
{
    if over(s) {
        return Err(Reason::TooLarge);
    }
    if unfit(s, a.len()) || unfit(t, n) {
        return Err(Reason::LengthWrong);
    }
    fault(Buffer::First, s, a)
}
