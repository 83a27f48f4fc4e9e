// Row steps, many times over.
ghost use Rattle.std.specs.Prelude.{◌≡◌, true, ◌*◌, ◌<◌, ◌≤◌, length};
ghost use Rattle.rows.specs.Row.{Readable};

use rows::accumulate::accumulate;
use rows::fault::stray;
use rows::table_step::table_step;

// The row at word 0 is one of q words a plane, and legal.
fn ready(a: &[u64], q: usize) -> bool
    ensures { result ≡ true → Readable q q 0 a.now }
{
    if q > 16 || a.len() < 2 * q {
        return false;
    }
    !stray(a, q, 64 * q, 0)
}

fn repeat<S: FnMut()>(times: usize, mut step: S)
    requires { S.IsAlwaysCallable step }
{
    for _ in 0..times {
        step();
    }
}

// D times s is added to d.
fn accumulations<const D: u64>(d: &mut [u64], s: &[u64], q: usize, times: usize) -> u64
    requires { D < 3 }
{
    if !ready(d, q) || !ready(s, q) {
        return 1;
    }
    repeat(
        times,
        ||
            requires { Readable q q 0 d.now × Readable q q 0 s.now × (D < 3) }
            ensures { Readable q q 0 d.exit.now }
        {
            accumulate::<D>(d, s, q, 0, 0);
        },
    );
    0
}

#[unsafe(no_mangle)]
pub extern "C" fn bench_add(d: &mut [u64], s: &[u64], q: usize, times: usize) -> u64 {
    accumulations::<1>(d, s, q, times)
}

#[unsafe(no_mangle)]
pub extern "C" fn bench_subtract(d: &mut [u64], s: &[u64], q: usize, times: usize) -> u64 {
    accumulations::<2>(d, s, q, times)
}

#[unsafe(no_mangle)]
pub extern "C" fn bench_table_step(d: &mut [u64], s: &[u64], q: usize, times: usize) -> u64 {
    if !ready(d, q) || !ready(s, q) || d.len() / 4 < q {
        return 1;
    }
    let x = 2 * q;
    repeat(
        times,
        ||
            requires { (x ≡ 2 * q) × (4 * q ≤ length d.now) × Readable q q 0 d.now × Readable q q 0 s.now }
            ensures { (4 * q ≤ length d.exit.now) × Readable q q 0 d.exit.now }
        {
            table_step(d, s, q, x, 0, 0);
        },
    );
    0
}
