// What a host sees after an opening: the record as seven words, of which the last two are 0, and table and product. A refused one has no record, and
// leaves the seven words as they were.
ghost use Rattle.std.specs.Prelude.{length};
ghost use Rattle.requests.specs.Exact.{Seen};
ghost use Rattle.matrix.specs.Opening.{opening_tests};
ghost use Rattle.wordcalls.specs.Opening.{OpenedJob};

use matrix::turn::Turned;
use requests::Size;

#[unsafe(no_mangle)]
pub extern "C" fn call_opening(
    a_rows: u64,
    a_columns: u64,
    b_rows: u64,
    b_columns: u64,
    width: u64,
    a: &[u64],
    b: &[u64],
    table: &mut [u64],
    product: &mut [u64],
    job: &mut [u64; 7],
) -> u64
    ensures { Seen (opening_tests (record { rows = a_rows; columns = a_columns }) (record { rows = b_rows; columns = b_columns }) width a.now b.now (length table.old) (length product.old)) (job.old, (table.old, product.old)) (OpenedJob (record { rows = a_rows; columns = a_columns }) (record { rows = b_rows; columns = b_columns }) width) result (job.new, (table.new, product.new)) }
{
    let x = Size {
        rows: a_rows,
        columns: a_columns,
    };
    let y = Size {
        rows: b_rows,
        columns: b_columns,
    };
    match matrix::opening::opening(x, y, width, a, b, table, product) {
        Ok(new) => {
            let opened = Turned {
                job: new,
                made: 0,
                finished: false,
            };
            *job = <[u64; 7]>::from(opened);
            0
        }
        Err(why) => u64::from(why),
    }
}
