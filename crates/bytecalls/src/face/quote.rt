// What a host sees after a quote.
ghost use Rattle.std.specs.Prelude.{length};
ghost use Rattle.requests.specs.Exact.{Seen};
ghost use Rattle.steps.specs.Count.{quote};
ghost use Rattle.matrix.specs.Job.{meant};
ghost use Rattle.cface.specs.Count.{ShowsCount, count_tests};

use cface::quote::nyuzolamba_quote;

pub fn seen_quote(a_rows: u64, a_columns: u64, width: u64, out: &mut [u8]) -> u64
    ensures { Seen (count_tests (record { rows = a_rows; columns = a_columns }) width (length out.old)) out.old (ShowsCount (quote a_rows a_columns (meant (record { rows = a_rows; columns = a_columns }) width))) result out.new }
{
    nyuzolamba_quote(a_rows, a_columns, width, out)
}
