// What a host sees after an opening.
ghost use Rattle.std.specs.Prelude.{length};
ghost use Rattle.requests.specs.Exact.{Seen};
ghost use Rattle.cface.specs.Open.{open_face_tests};
ghost use Rattle.cface.specs.Stands.{Held};
ghost use Rattle.cface.specs.JobShows.{OpenedJob};

use cface::open::nyuzolamba_open;

pub fn seen_open(
    a_rows: u64,
    a_columns: u64,
    b_rows: u64,
    b_columns: u64,
    width: u64,
    job: &mut [u8],
    a: &[u8],
    b: &[u8],
    table: &mut [u8],
    product: &mut [u8],
) -> u64
    ensures { Seen {S = Held} (open_face_tests (record { rows = a_rows; columns = a_columns }) (record { rows = b_rows; columns = b_columns }) width (length job.old) a.now b.now (length table.old) (length product.old)) (job.old, (table.old, product.old)) (OpenedJob (record { rows = a_rows; columns = a_columns }) (record { rows = b_rows; columns = b_columns }) width) result (job.new, (table.new, product.new)) }
{
    nyuzolamba_open(
        a_rows, a_columns, b_rows, b_columns, width, job, a, b, table, product,
    )
}
