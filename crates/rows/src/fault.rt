// The two faults of a row: sign without unit in a real column, and a padding bit.
ghost use Rattle.std.specs.Prelude.{◌≡◌, true, ◌+◌, ◌*◌, ◌≤◌, length};
ghost use Rattle.buffers.specs.Buffer.{planes};
ghost use Rattle.rows.specs.Fault.{Found, stray_row, padded_row, stray_column, padded_column};

use super::words::load;

// The sign bits without unit of the first n pairs, all laid over one another: no test in the loop, so that it becomes vector code.
pub fn strays(a: &[u64], q: usize, n: usize, x: usize) -> u64
    requires { (n ≤ q) × (x + (q + q) ≤ length a.now) }
    ensures { Found result (stray_row a.now x q (64 * n)) }
{
    let mut bad = 0;
    for p in 0..n {
        let v = load(a, q, x + p);
        bad |= v.sign & (v.sign ^ v.unit);
    }
    bad
}

// A real column holds sign without unit. Only the last pair can have places that are none.
pub fn stray(a: &[u64], q: usize, c: usize, x: usize) -> bool
    requires { (q ≡ planes c) × (c ≤ 1024) × (x + (q + q) ≤ length a.now) }
    ensures { result ≡ stray_row a.now x q c }
{
    if q == 0 {
        return false;
    }
    let last = q - 1;
    strays(a, q, last, x) != 0 || cells::fault::stray(load(a, q, x + last), (c - 64 * last) as u64)
}

// A padding bit is set: it can stand in the last word of a plane alone.
pub fn padded(a: &[u64], q: usize, c: usize, x: usize) -> bool
    requires { (q ≡ planes c) × (c ≤ 1024) × (x + (q + q) ≤ length a.now) }
    ensures { result ≡ padded_row a.now x q c }
{
    let n = c % 64;
    n != 0 && cells::fault::padded(load(a, q, x + (q - 1)), n as u64)
}

// The first column with sign without unit, of a row that has one. Real columns come before padding, so no place needs a mask.
pub fn stray_column(a: &[u64], q: usize, c: usize, x: usize) -> usize
    requires { (q ≡ planes c) × (c ≤ 1024) × (x + (q + q) ≤ length a.now) × (stray_row a.now x q c ≡ true) }
    ensures { result ≡ stray_column a.now x q c }
{
    let p = (0..q)
        .find(|p| cells::fault::stray(load(a, q, x + *p), 64))
        .unwrap();
    64 * p + cells::fault::first_stray(load(a, q, x + p)) as usize
}

// The position of the first padding bit, of a row that has one.
pub fn padded_column(a: &[u64], q: usize, c: usize, x: usize) -> usize
    requires { (q ≡ planes c) × (c ≤ 1024) × (x + (q + q) ≤ length a.now) × (padded_row a.now x q c ≡ true) }
    ensures { result ≡ padded_column a.now x q c }
{
    let v = load(a, q, x + (q - 1));
    64 * (q - 1) + cells::fault::first_padded(v, (c % 64) as u64) as usize
}
