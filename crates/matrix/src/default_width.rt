// The default width: the one from 1 to 8 that quotes least, the smaller where two are equal.
ghost use Rattle.std.specs.Prelude.{◌≡◌, ◌≤◌};
ghost use Rattle.steps.specs.Count.{quote};
ghost use Rattle.steps.specs.Width.{better, default_width};

use super::quoted::quoted;

// A width, and its quote. A chain `(1..9).map(..).min()` over pairs of a quote and its width was tried: its proof lacks that no other pair is less.
#[derive(Clone, Copy)]
struct Choice {
    width: u64,
    steps: u64,
}

// Width k, where it quotes less than the best so far.
fn better_of(m: u64, l: u64, best: Choice, k: u64) -> Choice
    requires { (m ≤ 1024) × (l ≤ 1024) × (1 ≤ k) × (k ≤ 8) × (best.steps ≡ quote m l best.width) }
    ensures { (result.width ≡ better (quote m l) best.width k) × (result.steps ≡ quote m l result.width) }
{
    let steps = quoted(m, l, k);
    if steps < best.steps {
        return Choice { width: k, steps };
    }
    best
}

pub fn default_width(m: u64, l: u64) -> u64
    requires { (m ≤ 1024) × (l ≤ 1024) }
    ensures { result ≡ default_width m l }
{
    let mut best = Choice {
        width: 1,
        steps: quoted(m, l, 1),
    };
    for k in 2..9 {
        best = better_of(m, l, best, k);
    }
    best.width
}
