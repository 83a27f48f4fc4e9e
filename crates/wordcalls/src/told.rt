// A count as C gets it.
ghost use Rattle.std.specs.Prelude.{◌≡◌, ℕ};
ghost use Rattle.requests.specs.Answers.{told};

use requests::Reason;

// The word of an answer, and what it holds: 0 where it is refused.
pub fn told(answer: Result<u64, Reason>, count: &mut u64) -> u64
    ensures { ◌≡◌ {A = ℕ × ℕ} (result, count.new) (told 0 answer) }
{
    match answer {
        Ok(counted) => {
            *count = counted;
            0
        }
        Err(why) => {
            *count = 0;
            u64::from(why)
        }
    }
}
