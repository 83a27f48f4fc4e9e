// The bits P and N of a block of at most eight columns, also where it crosses from one word into the next.
ghost use Rattle.std.specs.Prelude.{◌≡◌, ℕ, ◌+◌, ◌-◌, ◌*◌, ◌/◌, ◌%◌, ◌≤◌, ◌<◌, length};
ghost use Rattle.cells.specs.Bit.{word_of};
ghost use Rattle.buffers.specs.Buffer.{bit_at};
ghost use Rattle.rows.specs.Row.{Readable};
ghost use Rattle.rows.specs.Block.{block_of};

use cells::mask::low;

// P and N.
#[derive(Clone, Copy)]
pub struct Bits {
    pub ones: u64,
    pub twos: u64,
}

// The w bits from column s on of the plane that starts at word x. A caller that knows that they lie in one word says 1, and no test of it is left; else it says 2.
fn window<const WORDS: usize>(a: &[u64], x: usize, s: usize, w: usize) -> u64
    requires { (0 < w) × (w ≤ 8) × (s + w ≤ 1024) × (x + (s + w - 1) / 64 < length a.now) × (WORDS ≡ 1 → s % 64 + w ≤ 64) }
    ensures { result ≡ word_of (λ i. bit_at a.now x (s + i)) w }
{
    let p = x + s / 64;
    let t = s % 64;
    let here = a[p] >> t;
    let mask = low(w as u64);
    if WORDS == 1 {
        return here & mask;
    }
    let room = 64 - t;
    if w <= room {
        here & mask
    } else {
        let next = a[p + 1] << room;
        (here | next) & mask
    }
}

pub fn block<const WORDS: usize>(a: &[u64], q: usize, x: usize, s: usize, w: usize) -> Bits
    requires { (0 < w) × (w ≤ 8) × (s + w ≤ 1024) × (s + w ≤ 64 * q) × Readable q q x a.now × (WORDS ≡ 1 → s % 64 + w ≤ 64) }
    ensures { result ≡ block_of a.now x q s w }
{
    let unit = window::<WORDS>(a, x, s, w);
    let sign = window::<WORDS>(a, x + q, s, w);
    Bits {
        ones: unit ^ sign,
        twos: sign,
    }
}
