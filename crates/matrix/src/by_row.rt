// A matrix made row by row. What is made is no Packed: it holds no matrix yet, and a struct of a &mut has old and new a place further in each clause.
ghost use Rattle.std.specs.Prelude.{◌≡◌, ℕ, ◌≤◌, length};
ghost use Rattle.buffers.specs.Buffer.{planes, words};
ghost use Rattle.matrix.specs.ByRow.{RowsHold, AcceptsRows, MakesRows};

use buffers::planes::planes;

// `make` is lent the matrix, the words of a plane, and the word at which the row to be made begins.
pub fn by_row<F: Fn(&mut [u64], usize, usize)>(r: usize, c: usize, out: &mut [u64], make: F)
    requires size { (r ≤ 1024) × (c ≤ 1024) × (length out.old ≡ words r c) }
    requires accepts { AcceptsRows F.Fn make r c }
    ensures { (f : ℕ → ℕ → ℕ → ℕ) → MakesRows F.Fn make r c f → RowsHold f r (planes c) (words r c) out.new }
{
    let q = planes(c);
    let w = 2 * q;
    for i in 0..r {
        make(out, q, i * w);
    }
}
