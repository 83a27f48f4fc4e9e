// Up to 64 words of one slice, transposed into up to 64 words of another. In both the words lie at equal distances.
// Slice, first word, distance and number stay parameters: of the written one a struct would hold a &mut, with old and new a place further in each clause.
ghost use Rattle.std.specs.Prelude.{◌≡◌, ℕ, ◌+◌, ◌*◌, ◌^◌, ◌≤◌, ◌<◌, length, get_or};
ghost use Rattle.rows.specs.Row.{Written};
ghost use Rattle.blocks64.specs.Block.{Spaced, Spread, transposed_word};

use crate::transpose::transpose;

fn place(x: usize, t: usize, w: usize) -> usize
    requires { (t ≤ 64) × (w ≤ 32) × (x ≤ 32768) }
    ensures { result ≡ x + t * w }
{
    x + t * w
}

// The n words at x, x + w, .. become the first of a block.
fn fetch(a: &[u64], x: usize, w: usize, n: usize, block: &mut [u64])
    requires { Spaced x w n (length a.now) × (n ≤ length block.old) }
    ensures { Written (λ t. get_or a.now (x + t * w) 0) 0 n block.old block.new }
{
    for t in 0..n {
        block[t] = a[place(x, t, w)];
    }
}

// The first n words of a block go to x, x + w, ..
fn put(block: &[u64], out: &mut [u64], x: usize, w: usize, n: usize)
    requires { Spaced x w n (length out.old) × (n ≤ length block.now) × (0 < w) }
    ensures { Spread (λ t. get_or block.now t 0) x w n out.old out.new × ((t : ℕ) → get_or block.now t 0 < 2 ^ 64) }
{
    for t in 0..n {
        out[place(x, t, w)] = block[t];
    }
}

fn through(
    a: &[u64],
    x: usize,
    w: usize,
    n: usize,
    block: &mut [u64; 64],
    out: &mut [u64],
    y: usize,
    v: usize,
    m: usize,
)
    requires { Spaced x w n (length a.now) × Spaced y v m (length out.old) × (0 < v) × ((t : ℕ) → get_or block.old t 0 ≡ 0) }
    ensures { Spread (transposed_word a.now x w n) y v m out.old out.new }
{
    fetch(a, x, w, n, block);
    transpose(block);
    put(block, out, y, v, m);
}

// Bit s of the word at y + t v of out becomes bit t of the word at x + s w of a, for t below m and s below n; the bits from n on become 0.
pub fn block(a: &[u64], x: usize, w: usize, n: usize, out: &mut [u64], y: usize, v: usize, m: usize)
    requires { Spaced x w n (length a.now) × Spaced y v m (length out.old) × (0 < v) }
    ensures { Spread (transposed_word a.now x w n) y v m out.old out.new }
{
    let mut words = [0; 64];
    through(a, x, w, n, &mut words, out, y, v, m);
}
