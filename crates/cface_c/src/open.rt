// An opening, for C: what cface::open answers.
ghost use Rattle.std.specs.Prelude.{◌≡◌};
ghost use Rattle.cface.specs.Open.{open_face};

#[unsafe(no_mangle)]
pub extern "C" fn nyuzolamba_open(
    a_rows: u64,
    a_columns: u64,
    b_rows: u64,
    b_columns: u64,
    width: u64,
    job: &mut [u8],
    a: &[u8],
    b: &[u8],
    table: &mut [u8],
    product: &mut [u8],
) -> u64
    ensures { (result, (job.new, (table.new, product.new))) ≡ open_face (record { rows = a_rows; columns = a_columns }) (record { rows = b_rows; columns = b_columns }) width job.old a.now b.now table.old product.old }
{
    cface::open::nyuzolamba_open(
        a_rows, a_columns, b_rows, b_columns, width, job, a, b, table, product,
    )
}
