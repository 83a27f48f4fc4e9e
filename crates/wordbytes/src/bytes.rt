// Words as bytes, lowest byte first. No heap: words and bytes are lent, as many of either as belong together.
ghost use Rattle.std.specs.Prelude.{◌≡◌, ◌+◌, ◌*◌, ◌≤◌, length};
ghost use Rattle.wordbytes.specs.Bytes.{value_of, words_in, bytes_of};

// The word in the eight bytes from byte x on: a place and no slice, as the promise of words_in below is said by places.
pub fn word(bytes: &[u8], x: usize) -> u64
    requires { x + 8 ≤ length bytes.now }
    ensures { result ≡ value_of bytes.now x 8 }
{
    let eight = bytes[x..x + 8].as_array::<8>().unwrap();
    u64::from_le_bytes(*eight)
}

// All words of a buffer.
pub fn words_in(bytes: &[u8], words: &mut [u64])
    requires { length bytes.now ≡ 8 * length words.old }
    ensures { words.new ≡ words_in bytes.now }
{
    for (p, w) in words.iter_mut().enumerate() {
        *w = word(bytes, 8 * p);
    }
}

// All words of two buffers.
pub fn words_in_two(a: &[u8], b: &[u8], u: &mut [u64], v: &mut [u64])
    requires { (length a.now ≡ 8 * length u.old) × (length b.now ≡ 8 * length v.old) }
    ensures { (u.new ≡ words_in a.now) × (v.new ≡ words_in b.now) }
{
    words_in(a, u);
    words_in(b, v);
}

// A whole buffer of bytes, from words.
pub fn bytes_of(words: &[u64], bytes: &mut [u8])
    requires { length bytes.old ≡ 8 * length words.now }
    ensures { bytes.new ≡ bytes_of words.now }
{
    for (p, w) in words.iter().enumerate() {
        bytes[8 * p..8 * p + 8].copy_from_slice(&w.to_le_bytes());
    }
}
