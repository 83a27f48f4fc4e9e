// The legality check.
ghost use Rattle.std.specs.Prelude.{◌≡◌};
ghost use Rattle.requests.specs.Answers.{word};
ghost use Rattle.matrix.specs.Check.{check_means};

use requests::faults::fault;
use requests::sizes::{over, unfit};
use requests::{Buffer, Reason, Size};

// Whether a buffer is a matrix of this size.
#[tactic(auto, unfolding(crate::specs::Check::check_means, crate::specs::Check::check_tests, requests::specs::Answers::first))]
pub fn check(s: Size, a: &[u64]) -> Result<(), Reason>
    ensures { word result ≡ check_means s a.now }
{
    if over(s) {
        return Err(Reason::TooLarge);
    }
    if unfit(s, a.len()) {
        return Err(Reason::LengthWrong);
    }
    fault(Buffer::First, s, a)
}
