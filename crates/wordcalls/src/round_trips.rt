// Digits packed and unpacked come back the same: the two requests, one after the other.
ghost use Rattle.std.specs.Prelude.{◌≡◌, Ok, length};
ghost use Rattle.requests.specs.Exact.{None};
ghost use Rattle.matrix.specs.Pack.{pack_tests};
ghost use Rattle.matrix.specs.Unpack.{unpack_tests};

use matrix::pack::pack;
use matrix::unpack::unpack;
use requests::{Reason, Size};

// Digits that can be packed, and room for as many: both are done, and the digits are back.
pub fn packed_unpacked(
    s: Size,
    cells: &[u8],
    words: &mut [u64],
    back: &mut [u8],
) -> Result<(), Reason>
    ensures { None (pack_tests s cells.now (length words.old)) → length back.old ≡ length cells.now → (result ≡ Ok tt) × (back.new ≡ cells.now) }
{
    pack(s, cells, words)?;
    unpack(s, words, back)
}

// A matrix that can be unpacked, and room for as many words: both are done, and the words are back.
pub fn unpacked_packed(s: Size, a: &[u64], cells: &mut [u8], back: &mut [u64]) -> Result<(), Reason>
    ensures { None (unpack_tests s a.now (length cells.old)) → length back.old ≡ length a.now → (result ≡ Ok tt) × (back.new ≡ a.now) }
{
    unpack(s, a, cells)?;
    pack(s, cells, back)
}
