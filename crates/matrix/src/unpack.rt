// A matrix as one byte a cell.
ghost use Rattle.std.specs.Prelude.{◌≡◌, ℕ, ◌+◌, ◌*◌, ◌≤◌, ◌<◌, length, get_or};
ghost use Rattle.cells.specs.Pair.{digit};
ghost use Rattle.buffers.specs.Buffer.{planes, Legal};
ghost use Rattle.requests.specs.Answers.{word, first};
ghost use Rattle.rows.specs.Row.{column};
ghost use Rattle.matrix.specs.Unpack.{unpack_of, unpack_tests, unpack_means};

use super::unpacked::unlike;
use buffers::planes::{planes, real};
use cells::Cells;
use requests::faults::fault;
use requests::sizes::{over, unfit};
use requests::{Buffer, Reason, Size};
use rows::words::load;
use walk::factors::Packed;

// As the test of one matrix that requests shares, but for the room, which is bytes here: unpack_tests is a list of its own.
#[tactic(auto, unfolding(crate::specs::Unpack::unpack_tests, requests::specs::Answers::first))]
fn judged(s: Size, a: &[u64], n: usize) -> Result<(), Reason>
    ensures { word result ≡ first (unpack_tests s a.now n) }
{
    if over(s) {
        return Err(Reason::TooLarge);
    }
    if unfit(s, a.len()) || unlike(s, n) {
        return Err(Reason::LengthWrong);
    }
    fault(Buffer::First, s, a)
}

// The lowest digits of a pair of words.
fn unpack_pair(v: Cells, digits: &mut [u8])
    ensures { (t : ℕ) → t < length digits.old → get_or digits.new t 0 ≡ digit v.unit v.sign t }
{
    let mut unit = v.unit;
    let mut sign = v.sign;
    for cell in digits.iter_mut() {
        *cell = (unit % 2 + sign % 2) as u8;
        unit /= 2;
        sign /= 2;
    }
}

// The row at word x.
fn unpack_row(a: &[u64], row: &mut [u8], q: usize, x: usize)
    requires { (length row.old ≤ 1024) × (q ≡ planes (length row.old)) × (x + (q + q) ≤ length a.now) }
    ensures { (j : ℕ) → j < length row.old → get_or row.new j 0 ≡ column a.now x q j }
{
    let c = row.len();
    for p in 0..q {
        let from = 64 * p;
        unpack_pair(load(a, q, x + p), &mut row[from..from + real(c, p)]);
    }
}

fn unpack_rows(a: &Packed, out: &mut [u8])
    requires { length out.old ≡ a.now.rows * a.now.columns }
    ensures { out.new ≡ unpack_of a.now.rows a.now.columns a.now.words.now }
{
    let c = a.columns;
    let w = 2 * a.plane;
    for i in 0..a.rows {
        // The word before the byte: a row then costs an instruction less.
        let x = i * w;
        let from = i * c;
        unpack_row(a.words, &mut out[from..from + c], a.plane, x);
    }
}

pub fn unpack(s: Size, a: &[u64], out: &mut [u8]) -> Result<(), Reason>
    ensures { (word result, out.new) ≡ unpack_means s a.now out.old }
{
    judged(s, a, out.len())?;
    let packed = Packed::new(s.rows as usize, s.columns as usize, a);
    unpack_rows(&packed, out);
    Ok(())
}
