// Bytes copied to words, and words to bytes, as a call of the C face does.
ghost use Rattle.std.specs.Prelude.{◌≡◌, true, ◌*◌, length};

use wordbytes::bytes::{bytes_of, words_in};

fn fits(bytes: &[u8], words: &[u64]) -> bool
    ensures { result ≡ true → length bytes.now ≡ 8 * length words.now }
{
    bytes.len() % 8 == 0 && bytes.len() / 8 == words.len()
}

// A and B to words, and those of A to the bytes of the result.
#[unsafe(no_mangle)]
pub extern "C" fn bench_copies(
    a: &[u8],
    b: &[u8],
    out: &mut [u8],
    u: &mut [u64],
    v: &mut [u64],
) -> u64 {
    if !fits(a, u) || !fits(b, v) || !fits(out, u) {
        return 4;
    }
    words_in(a, u);
    words_in(b, v);
    bytes_of(u, out);
    0
}
