// The transpose of a matrix, by blocks of 64 rows and 64 columns.
ghost use Rattle.std.specs.Prelude.{◌≡◌, ◌+◌, ◌-◌, ◌*◌, ◌≤◌, ◌<◌, min, length};
ghost use Rattle.buffers.specs.Buffer.{planes, words};
ghost use Rattle.requests.specs.Answers.{word};
ghost use Rattle.matrix.specs.RowBlocks.{column, WordMade, BlockMade};
ghost use Rattle.matrix.specs.Transpose.{transpose_of, transpose_means};

use blocks64::block::block;
use buffers::planes::{planes, real};
use requests::single::judged;
use requests::{Reason, Size};
use walk::factors::Packed;

// Word p of the rows of the transpose from row 64 k on, both planes. A plane of the transpose has q words.
fn transpose_block(a: &Packed, out: &mut [u64], k: usize, p: usize, q: usize)
    requires { (length out.old ≡ words a.now.columns a.now.rows) × (q ≡ planes a.now.rows) × (k < a.now.plane) × (p < q) }
    ensures { WordMade (λ t. column a.now.rows a.now.columns a.now.words.now (64 * k + t) p) (64 * k * (2 * q)) q p (min 64 (a.now.columns - 64 * k)) out.old out.new }
{
    let u = a.plane;
    let w = 2 * u;
    let v = 2 * q;
    let x = 64 * p * w + k;
    let y = 64 * k * v + p;
    let n = real(a.rows, p);
    let m = real(a.columns, k);
    block(a.words, x, w, n, out, y, v, m);
    block(a.words, x + u, w, n, out, y + q, v, m);
}

fn transpose_64_rows(a: &Packed, out: &mut [u64], k: usize, q: usize)
    requires { (length out.old ≡ words a.now.columns a.now.rows) × (q ≡ planes a.now.rows) × (k < a.now.plane) }
    ensures { BlockMade (λ t. column a.now.rows a.now.columns a.now.words.now (64 * k + t)) (64 * k * (2 * q)) q (min 64 (a.now.columns - 64 * k)) q out.old out.new }
{
    for p in 0..q {
        transpose_block(a, out, k, p, q);
    }
}

fn transpose_rows(a: &Packed, out: &mut [u64])
    requires { length out.old ≡ words a.now.columns a.now.rows }
    ensures { out.new ≡ transpose_of a.now.rows a.now.columns a.now.words.now }
{
    let q = planes(a.rows);
    for k in 0..a.plane {
        transpose_64_rows(a, out, k, q);
    }
}

pub fn transpose(s: Size, a: &[u64], out: &mut [u64]) -> Result<(), Reason>
    ensures { (word result, out.new) ≡ transpose_means s a.now out.old }
{
    let t = Size {
        rows: s.columns,
        columns: s.rows,
    };
    judged(s, t, a, out.len())?;
    let packed = Packed::new(s.rows as usize, s.columns as usize, a);
    transpose_rows(&packed, out);
    Ok(())
}
