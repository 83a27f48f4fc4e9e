// The size quote: an upper bound of the steps, from the sizes alone.
ghost use Rattle.std.specs.Prelude.{◌≡◌};
ghost use Rattle.requests.specs.Answers.{word, told, first};
ghost use Rattle.matrix.specs.Quote.{quote_tests, quote_means};

use super::meant::meant;
use super::quoted::quoted;
use requests::sizes::over;
use requests::{Reason, Size};

// The tests of size and width.
#[tactic(auto, unfolding(crate::specs::Quote::quote_tests, requests::specs::Answers::first))]
pub fn judged(x: Size, width: u64) -> Result<(), Reason>
    ensures { word result ≡ first (quote_tests x width) }
{
    if over(x) {
        return Err(Reason::TooLarge);
    }
    if width > 8 {
        return Err(Reason::WidthWrong);
    }
    Ok(())
}

// How many steps.
pub fn quote(x: Size, width: u64) -> Result<u64, Reason>
    ensures { told 0 result ≡ quote_means x width }
{
    judged(x, width)?;
    Ok(quoted(x.rows, x.columns, meant(x, width)))
}
