// Sixty-four columns of a row at once, from any column on.
ghost use Rattle.std.specs.Prelude.{◌≡◌, ◌+◌, ◌<◌, length};
ghost use Rattle.rows.specs.Wide.{of_one, of_two};

use cells::Cells;

// From place t of the pair at word x on, with nothing after it.
pub fn of_one(a: &[u64], q: usize, x: usize, t: u64) -> Cells
    requires { (x + q < length a.now) × (t < 64) }
    ensures { result ≡ of_one a.now q x t }
{
    Cells {
        unit: a[x] >> t,
        sign: a[x + q] >> t,
    }
}

// From place t of the pair at word x on, and then of the next pair.
pub fn of_two(a: &[u64], q: usize, x: usize, t: u64) -> Cells
    requires { (x + q + 1 < length a.now) × (0 < t) × (t < 64) }
    ensures { result ≡ of_two a.now q x t }
{
    Cells {
        unit: (a[x] >> t) | (a[x + 1] << (64 - t)),
        sign: (a[x + q] >> t) | (a[x + q + 1] << (64 - t)),
    }
}
