// The whole product, for C: what cface::product answers.
ghost use Rattle.std.specs.Prelude.{◌≡◌};
ghost use Rattle.cface.specs.Product.{product_face};

#[unsafe(no_mangle)]
pub extern "C" fn nyuzolamba_product(
    a_rows: u64,
    a_columns: u64,
    b_rows: u64,
    b_columns: u64,
    a: &[u8],
    b: &[u8],
    product: &mut [u8],
) -> u64
    ensures { (result, product.new) ≡ product_face (record { rows = a_rows; columns = a_columns }) (record { rows = b_rows; columns = b_columns }) a.now b.now product.old }
{
    cface::product::nyuzolamba_product(a_rows, a_columns, b_rows, b_columns, a, b, product)
}
