// What a host sees after a product.
ghost use Rattle.std.specs.Prelude.{length};
ghost use Rattle.buffers.specs.Buffer.{cell};
ghost use Rattle.requests.specs.Exact.{Seen};
ghost use Rattle.steps.specs.Matrix.{schoolbook};
ghost use Rattle.wordbytes.specs.Bytes.{words_in};
ghost use Rattle.wordbytes.specs.ShowsBytes.{ShowsBytes};
ghost use Rattle.cface.specs.Product.{product_face_tests};

use cface::product::nyuzolamba_product;

pub fn seen_product(
    a_rows: u64,
    a_columns: u64,
    b_rows: u64,
    b_columns: u64,
    a: &[u8],
    b: &[u8],
    product: &mut [u8],
) -> u64
    ensures { Seen (product_face_tests (record { rows = a_rows; columns = a_columns }) (record { rows = b_rows; columns = b_columns }) a.now b.now (length product.old)) product.old (ShowsBytes a_rows b_columns (schoolbook a_columns (cell a_columns (words_in a.now)) (cell b_columns (words_in b.now)))) result product.new }
{
    nyuzolamba_product(a_rows, a_columns, b_rows, b_columns, a, b, product)
}
