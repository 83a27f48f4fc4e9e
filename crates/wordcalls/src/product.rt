// What a host sees after a product: the schoolbook one.
ghost use Rattle.std.specs.Prelude.{List, ℕ, ◌^◌, length};
ghost use Rattle.buffers.specs.Buffer.{cell};
ghost use Rattle.buffers.specs.Shows.{Shows};
ghost use Rattle.requests.specs.Exact.{Seen};
ghost use Rattle.steps.specs.Matrix.{schoolbook};
ghost use Rattle.matrix.specs.Job.{meant};
ghost use Rattle.matrix.specs.Opening.{opening_tests};
ghost use Rattle.matrix.specs.Product.{end_of};

use requests::{Size, word};

#[unsafe(no_mangle)]
pub extern "C" fn call_product(
    a_rows: u64,
    a_columns: u64,
    b_rows: u64,
    b_columns: u64,
    width: u64,
    a: &[u64],
    b: &[u64],
    table: &mut [u64],
    product: &mut [u64],
) -> u64
    ensures { Seen {S = List ℕ × List ℕ} (opening_tests (record { rows = a_rows; columns = a_columns }) (record { rows = b_rows; columns = b_columns }) width a.now b.now (length table.old) (length product.old)) (table.old, product.old) (λ o. Shows (2 ^ meant (record { rows = a_rows; columns = a_columns }) width) b_columns (end_of (record { rows = a_rows; columns = a_columns }) (record { rows = b_rows; columns = b_columns }) (meant (record { rows = a_rows; columns = a_columns }) width) a.now b.now).table o.0 × Shows a_rows b_columns (schoolbook a_columns (cell a_columns a.now) (cell b_columns b.now)) o.1) result (table.new, product.new) }
{
    let x = Size {
        rows: a_rows,
        columns: a_columns,
    };
    let y = Size {
        rows: b_rows,
        columns: b_columns,
    };
    word(matrix::product::product(x, y, width, a, b, table, product))
}
