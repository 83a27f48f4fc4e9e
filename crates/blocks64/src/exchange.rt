// One stage of transposing: each word exchanges bits with the word h words after it. Distance and mask are no struct: transpose says each pair once.
ghost use Rattle.std.specs.Prelude.{◌≡◌, ◌+◌, ◌*◌, ◌≤◌, ◌<◌, length, get_or, set};
ghost use Rattle.blocks64.specs.Exchange.{lower, upper, Pairs, Stage};

// Words i and i + h. Where the mask has a bit, the bit of the second word is exchanged with that of the first which stands h places higher.
fn exchange_pair(w: &mut [u64], i: usize, h: usize, mask: u64)
    requires { (h ≤ 32) × (i + h < length w.old) }
    ensures { w.new ≡ set (set w.old i (lower h mask (get_or w.old i 0) (get_or w.old (i + h) 0))) (i + h) (upper h mask (get_or w.old i 0) (get_or w.old (i + h) 0)) }
{
    let k = i + h;
    let x = w[i];
    let y = w[k];
    let t = ((x >> h) ^ y) & mask;
    w[i] = x ^ (t << h);
    w[k] = y ^ t;
}

fn exchange_pairs(w: &mut [u64], x: usize, h: usize, mask: u64)
    requires { (h ≤ 32) × (x + (h + h) ≤ length w.old) }
    ensures { Pairs h mask x h w.old w.new }
{
    for j in 0..h {
        exchange_pair(w, x + j, h, mask);
    }
}

// All 64 words, in n parts of 2 h words.
pub fn exchange(w: &mut [u64; 64], n: usize, h: usize, mask: u64)
    requires { (h ≤ 32) × (n * (h + h) ≡ 64) }
    ensures { Stage h mask n w.old w.new }
{
    for k in 0..n {
        exchange_pairs(w, k * (h + h), h, mask);
    }
}
