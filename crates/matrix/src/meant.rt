// The width meant by one that is handed in.
ghost use Rattle.std.specs.Prelude.{◌≡◌, false};
ghost use Rattle.requests.specs.Sizes.{over};
ghost use Rattle.matrix.specs.Job.{meant};

use super::default_width::default_width;
use requests::Size;

// 0 is the default for A's sizes: a number and no Option, since C hands it in and `quote_means` and `opening_means` are said of it.
pub fn meant(x: Size, width: u64) -> u64
    requires { over x ≡ false }
    ensures { result ≡ meant x width }
{
    if width == 0 {
        default_width(x.rows, x.columns)
    } else {
        width
    }
}
