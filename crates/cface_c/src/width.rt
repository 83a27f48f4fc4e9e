// The width meant, for C: what cface::width answers.
ghost use Rattle.std.specs.Prelude.{◌≡◌};
ghost use Rattle.cface.specs.Width.{width_face};

#[unsafe(no_mangle)]
pub extern "C" fn nyuzolamba_width(a_rows: u64, a_columns: u64, width: u64, out: &mut [u8]) -> u64
    ensures { (result, out.new) ≡ width_face (record { rows = a_rows; columns = a_columns }) width out.old }
{
    cface::width::nyuzolamba_width(a_rows, a_columns, width, out)
}
