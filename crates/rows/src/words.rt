// A pair of words, read and written: the unit word at one place, the sign word q words later.
ghost use Rattle.std.specs.Prelude.{◌≡◌, ◌+◌, ◌≤◌, ◌<◌, length, get_or, set};

use cells::Cells;

pub fn load(t: &[u64], q: usize, at: usize) -> Cells
    requires { at + q < length t.now }
    ensures { (result.unit ≡ get_or t.now at 0) × (result.sign ≡ get_or t.now (at + q) 0) }
{
    Cells {
        unit: t[at],
        sign: t[at + q],
    }
}

// The pair whose sign word is at s. Where two neighbours are loaded, the second is one word on from both words of the first, in so few operations that
// the back end puts four pairs where they are called for.
pub fn load_at(t: &[u64], at: usize, s: usize) -> Cells
    requires { (at < length t.now) × (s < length t.now) }
    ensures { (result.unit ≡ get_or t.now at 0) × (result.sign ≡ get_or t.now s 0) }
{
    Cells {
        unit: t[at],
        sign: t[s],
    }
}

pub fn store(t: &mut [u64], q: usize, at: usize, v: Cells)
    requires { at + q < length t.old }
    ensures { t.new ≡ set (set t.old at v.unit) (at + q) v.sign }
{
    t[at] = v.unit;
    t[at + q] = v.sign;
}

// Two pairs. Unit words come before sign words: only so can the back end join the stores, as the planes may lie one word apart.
pub fn store_two(t: &mut [u64], q: usize, at: usize, v: Cells, w: Cells)
    requires { (2 ≤ q) × (at + q + 1 < length t.old) }
    ensures { t.new ≡ set (set (set (set t.old at v.unit) (at + q) v.sign) (at + 1) w.unit) (at + 1 + q) w.sign }
{
    t[at] = v.unit;
    t[at + 1] = w.unit;
    let s = at + q;
    t[s] = v.sign;
    t[s + 1] = w.sign;
}
