// What a host sees after a quote.
ghost use Rattle.requests.specs.Exact.{Exact};
ghost use Rattle.steps.specs.Count.{quote};
ghost use Rattle.matrix.specs.Job.{meant};
ghost use Rattle.matrix.specs.Quote.{quote_tests};

use super::told::told;
use requests::Size;

#[unsafe(no_mangle)]
pub extern "C" fn call_quote(rows: u64, columns: u64, width: u64, count: &mut u64) -> u64
    ensures { Exact (quote_tests (record { rows = rows; columns = columns }) width) 0 (quote rows columns (meant (record { rows = rows; columns = columns }) width)) result count.new }
{
    told(matrix::quote::quote(Size { rows, columns }, width), count)
}
