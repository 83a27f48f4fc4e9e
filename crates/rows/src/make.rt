// A row is made pair by pair of what a rule gives for each number of a pair, from other rows than it is written to. Straight-line bodies have two pairs
// before they store: the back end makes vector code of them, as of those in place, with the rule put where it is called.
ghost use Rattle.std.specs.Prelude.{ℕ, ◌+◌, ◌≤◌, ◌<◌, length};
ghost use Rattle.cells.specs.Pair.{Is};
ghost use Rattle.rows.specs.Row.{digit_at, Made, Readable, Gives, from};

use super::words::{load, store, store_two};
use cells::Cells;

// Pair p of the row at y, as rules read it.
pub fn pair(a: &[u64], q: usize, y: usize, p: usize) -> Cells
    requires { Readable q q y a.now × (p < q) }
    ensures { Is (digit_at a.now y q p) result }
{
    load(a, q, y + p)
}

// Pair j of the row at x, of q pairs.
pub fn make_one<F: Fn(usize) -> Cells>(out: &mut [u64], q: usize, x: usize, j: usize, rule: &F)
    requires room { x + j + q < length out.old }
    requires inside { j + 1 ≤ q }
    requires callable { (p : ℕ) → p < q → F.pre rule.now p }
    ensures { (f : ℕ → ℕ → ℕ) → Gives (F.post rule.now) q f → Made (from f j) (x + j) q 1 out.old out.new }
{
    store(out, q, x + j, rule(j));
}

// Pairs j and j + 1.
fn make_two<F: Fn(usize) -> Cells>(out: &mut [u64], q: usize, x: usize, j: usize, rule: &F)
    requires room { x + j + q + 1 < length out.old }
    requires inside { j + 2 ≤ q }
    requires callable { (p : ℕ) → p < q → F.pre rule.now p }
    ensures { (f : ℕ → ℕ → ℕ) → Gives (F.post rule.now) q f → Made (from f j) (x + j) q 2 out.old out.new }
{
    let v = rule(j);
    let w = rule(j + 1);
    store_two(out, q, x + j, v, w);
}

// The last n pairs, fewer than four, from pair j on: no loop, as in accumulate_rest. It is called in one place, so that the back end puts it there.
fn make_rest<F: Fn(usize) -> Cells>(
    out: &mut [u64],
    q: usize,
    n: usize,
    x: usize,
    j: usize,
    rule: &F,
)
    requires room { x + j + q + n ≤ length out.old }
    requires inside { j + n ≤ q }
    requires few { n ≤ 3 }
    requires callable { (p : ℕ) → p < q → F.pre rule.now p }
    ensures { (f : ℕ → ℕ → ℕ) → Gives (F.post rule.now) q f → Made (from f j) (x + j) q n out.old out.new }
{
    if n == 0 {
        return;
    }
    if n == 1 {
        make_one(out, q, x, j, rule);
        return;
    }
    make_two(out, q, x, j, rule);
    if n == 2 {
        return;
    }
    make_one(out, q, x, j + 2, rule);
}

// The row at x of out becomes what the rule gives.
pub fn make<F: Fn(usize) -> Cells>(out: &mut [u64], q: usize, x: usize, rule: &F)
    requires room { x + (q + q) ≤ length out.old }
    requires callable { (p : ℕ) → p < q → F.pre rule.now p }
    ensures { (f : ℕ → ℕ → ℕ) → Gives (F.post rule.now) q f → Made f x q q out.old out.new }
{
    let end = q - q % 4;
    let mut j = 0;
    // Tried as `for i in 0..q / 4`: a row negated of 8 pairs takes 9 instructions more.
    while j < end {
        make_two(out, q, x, j, rule);
        make_two(out, q, x, j + 2, rule);
        j += 4;
    }
    make_rest(out, q, q - j, x, j, rule);
}
