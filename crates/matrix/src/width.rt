// The width meant, and with it the table that a job asks for.
ghost use Rattle.std.specs.Prelude.{◌≡◌};
ghost use Rattle.requests.specs.Answers.{told};
ghost use Rattle.matrix.specs.Width.{width_means};

use super::meant::meant;
use super::quote::judged;
use requests::{Reason, Size};

pub fn width(x: Size, width: u64) -> Result<u64, Reason>
    ensures { told 0 result ≡ width_means x width }
{
    judged(x, width)?;
    Ok(meant(x, width))
}
