// What a host sees after a total: the length of the list of row steps, which never exceeds the quote.
ghost use Rattle.std.specs.Prelude.{◌≡◌, ◌≤◌, length};
ghost use Rattle.buffers.specs.Buffer.{cell};
ghost use Rattle.requests.specs.Exact.{Seen};
ghost use Rattle.steps.specs.StepList.{steps};
ghost use Rattle.steps.specs.Count.{quote};
ghost use Rattle.matrix.specs.Job.{meant};
ghost use Rattle.matrix.specs.Total.{total_tests};

use super::told::told;
use requests::Size;

#[unsafe(no_mangle)]
pub extern "C" fn call_total(rows: u64, columns: u64, width: u64, a: &[u64], count: &mut u64) -> u64
    ensures { Seen (total_tests (record { rows = rows; columns = columns }) width a.now) 0 (λ n. (n ≡ length (steps rows columns (meant (record { rows = rows; columns = columns }) width) (cell columns a.now))) × (n ≤ quote rows columns (meant (record { rows = rows; columns = columns }) width))) result count.new }
{
    told(
        matrix::total::total(Size { rows, columns }, width, a),
        count,
    )
}
