// A quote, for C: what cface::quote answers.
ghost use Rattle.std.specs.Prelude.{◌≡◌};
ghost use Rattle.cface.specs.Quote.{quote_face};

#[unsafe(no_mangle)]
pub extern "C" fn nyuzolamba_quote(a_rows: u64, a_columns: u64, width: u64, out: &mut [u8]) -> u64
    ensures { (result, out.new) ≡ quote_face (record { rows = a_rows; columns = a_columns }) width out.old }
{
    cface::quote::nyuzolamba_quote(a_rows, a_columns, width, out)
}
