// The legality check, for C: what cface::check answers.
ghost use Rattle.std.specs.Prelude.{◌≡◌};
ghost use Rattle.cface.specs.Check.{check_face};

#[unsafe(no_mangle)]
pub extern "C" fn nyuzolamba_check(rows: u64, columns: u64, a: &[u8]) -> u64
    ensures { result ≡ check_face (record { rows = rows; columns = columns }) a.now }
{
    cface::check::nyuzolamba_check(rows, columns, a)
}
