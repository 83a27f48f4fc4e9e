// Negation, for C: what cface::negation answers.
ghost use Rattle.std.specs.Prelude.{◌≡◌};
ghost use Rattle.cface.specs.Negation.{negation_face};

#[unsafe(no_mangle)]
pub extern "C" fn nyuzolamba_negation(rows: u64, columns: u64, a: &[u8], out: &mut [u8]) -> u64
    ensures { (result, out.new) ≡ negation_face (record { rows = rows; columns = columns }) a.now out.old }
{
    cface::negation::nyuzolamba_negation(rows, columns, a, out)
}
