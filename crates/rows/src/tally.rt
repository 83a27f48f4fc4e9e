// The tally of a row: zeros, ones and twos, handed back together. Padding is counted nowhere.
ghost use Rattle.std.specs.Prelude.{◌≡◌, ◌+◌, ◌≤◌};
ghost use Rattle.buffers.specs.Buffer.{planes};
ghost use Rattle.rows.specs.Row.{column, Readable};
ghost use Rattle.rows.specs.Tally.{tally_row};

use super::words::load;
use buffers::planes::real;
use cells::counts::counts;
use cells::mask::low;

pub fn tally(a: &[u64], q: usize, c: usize, x: usize) -> [u64; 3]
    requires { (q ≡ planes c) × (c ≤ 1024) × Readable q q x a.now }
    ensures { result ≡ tally_row (column a.now x q) c }
{
    let mut zeros = 0;
    let mut ones = 0;
    let mut twos = 0;
    for p in 0..q {
        let mask = low(real(c, p) as u64);
        let n = counts(load(a, q, x + p), mask);
        zeros += n[0];
        ones += n[1];
        twos += n[2];
    }
    [zeros, ones, twos]
}
