// What a host sees after a check.
ghost use Rattle.requests.specs.Exact.{Numbered};
ghost use Rattle.matrix.specs.Check.{check_tests};

use requests::{Size, word};

#[unsafe(no_mangle)]
pub extern "C" fn call_check(rows: u64, columns: u64, a: &[u64]) -> u64
    ensures { Numbered (check_tests (record { rows = rows; columns = columns }) a.now) result }
{
    word(matrix::check::check(Size { rows, columns }, a))
}
