// What a host sees after asking for the width meant.
ghost use Rattle.std.specs.Prelude.{length};
ghost use Rattle.requests.specs.Exact.{Seen};
ghost use Rattle.matrix.specs.Job.{meant};
ghost use Rattle.cface.specs.Count.{ShowsCount, count_tests};

use cface::width::nyuzolamba_width;

pub fn seen_width(a_rows: u64, a_columns: u64, width: u64, out: &mut [u8]) -> u64
    ensures { Seen (count_tests (record { rows = a_rows; columns = a_columns }) width (length out.old)) out.old (ShowsCount (meant (record { rows = a_rows; columns = a_columns }) width)) result out.new }
{
    nyuzolamba_width(a_rows, a_columns, width, out)
}
