// Unpacked, a matrix is one byte a cell.
ghost use Rattle.std.specs.Prelude.{◌≡◌};
ghost use Rattle.matrix.specs.Unpacked.{unlike};

use requests::Size;

// n bytes are not a matrix's.
#[tactic(auto, unfolding(crate::specs::Unpacked::unlike))]
pub fn unlike(s: Size, n: usize) -> bool
    ensures { result ≡ unlike s n }
{
    s.rows.checked_mul(s.columns) != Some(n as u64)
}
