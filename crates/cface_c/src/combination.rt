// Combination, for C: what cface::combination answers.
ghost use Rattle.std.specs.Prelude.{◌≡◌};
ghost use Rattle.cface.specs.Combination.{combination_face};

#[unsafe(no_mangle)]
pub extern "C" fn nyuzolamba_combination(
    a_rows: u64,
    a_columns: u64,
    b_rows: u64,
    b_columns: u64,
    digit: u64,
    a: &[u8],
    b: &[u8],
    out: &mut [u8],
) -> u64
    ensures { (result, out.new) ≡ combination_face (record { rows = a_rows; columns = a_columns }) (record { rows = b_rows; columns = b_columns }) digit a.now b.now out.old }
{
    cface::combination::nyuzolamba_combination(
        a_rows, a_columns, b_rows, b_columns, digit, a, b, out,
    )
}
