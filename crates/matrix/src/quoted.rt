// The size quote without a loop: the whole blocks, and one of the columns that are left.
// Rows and columns stand apart, as the definitions quote and default_width have them.
ghost use Rattle.std.specs.Prelude.{◌≡◌, ◌*◌, ◌≤◌, ◌<◌, min};
ghost use Rattle.steps.specs.Count.{block_quote, quote};

// The most steps of m rows in a block of w columns.
fn row_steps(m: u64, w: u64) -> u64
    requires { m ≤ 1024 }
    ensures { (result ≡ m * min 2 w) × (result ≤ 2048) }
{
    m * w.min(2)
}

// Its table steps come before them.
fn block_quote(m: u64, w: u64) -> u64
    requires { (m ≤ 1024) × (w ≤ 8) }
    ensures { result ≡ block_quote m w }
{
    (1u64 << w) - 1 + row_steps(m, w)
}

pub fn quoted(m: u64, l: u64, k: u64) -> u64
    requires { (m ≤ 1024) × (l ≤ 1024) × (0 < k) × (k ≤ 8) }
    ensures { result ≡ quote m l k }
{
    l / k * block_quote(m, k) + block_quote(m, l % k)
}
