// A matrix from one byte a cell.
ghost use Rattle.std.specs.Prelude.{◌≡◌, true, false, ℕ, ◌+◌, ◌-◌, ◌*◌, ◌≤◌, ◌<◌, min, max, ltb, length, get_or};
ghost use Rattle.cells.specs.Any.{any};
ghost use Rattle.cells.specs.Bit.{word_of};
ghost use Rattle.cells.specs.Digit.{unit_of, sign_of};
ghost use Rattle.buffers.specs.Buffer.{planes, words};
ghost use Rattle.requests.specs.Answers.{word, first};
ghost use Rattle.requests.specs.Sizes.{over};
ghost use Rattle.requests.specs.declared.Buffer.TheVariants.{First};
ghost use Rattle.requests.specs.Faults.{place_at};
ghost use Rattle.rows.specs.Row.{Made};
ghost use Rattle.matrix.specs.Gathered.{up_to};
ghost use Rattle.matrix.specs.Unpacked.{unlike};
ghost use Rattle.matrix.specs.Pack.{pack_of, above_first, above_at, pack_tests, pack_means};

use super::unpacked::unlike;
use buffers::planes::{planes, real};
use cells::Cells;
use requests::sizes::{over, unfit};
use requests::{Buffer, Place, Reason, Size};
use rows::words::store;

// A byte is above 2: the largest is. The loop has no way out, as `any` would, so that it becomes vector code.
fn above(cells: &[u8]) -> bool
    ensures { result ≡ any (length cells.now) (λ k. ltb 2 (get_or cells.now k 0)) }
{
    let mut worst: u8 = 0;
    for cell in cells {
        worst = worst.max(*cell);
    }
    worst > 2
}

// The first byte above 2, of cells that have one. Only a refusal comes here.
fn first_above(cells: &[u8]) -> usize
    requires { any (length cells.now) (λ k. ltb 2 (get_or cells.now k 0)) ≡ true }
    ensures { result ≡ above_first cells.now }
{
    cells.iter().position(|cell| *cell > 2).unwrap()
}

fn above_at(s: Size, cells: &[u8]) -> Place
    requires { (over s ≡ false) × (unlike s (length cells.now) ≡ false) × (any (length cells.now) (λ k. ltb 2 (get_or cells.now k 0)) ≡ true) }
    ensures { result ≡ place_at First (above_at s.columns cells.now) }
{
    let c = s.columns as usize;
    let k = first_above(cells);
    Place {
        buffer: Buffer::First,
        row: (k / c) as u16,
        column: (k % c) as u32,
    }
}

#[tactic(auto, unfolding(crate::specs::Pack::pack_tests, requests::specs::Answers::first))]
fn judged(s: Size, cells: &[u8], n: usize) -> Result<(), Reason>
    ensures { word result ≡ first (pack_tests s cells.now n) }
{
    if over(s) {
        return Err(Reason::TooLarge);
    }
    if unlike(s, cells.len()) || unfit(s, n) {
        return Err(Reason::LengthWrong);
    }
    if above(cells) {
        return Err(Reason::DigitWrong(above_at(s, cells)));
    }
    Ok(())
}

// Up to 64 digits as a pair of words. The highest comes first: each digit then costs a doubling and a sum.
fn pack_pair(digits: &[u8]) -> Cells
    requires { (length digits.now ≤ 64) × ((k : ℕ) → get_or digits.now k 0 < 3) }
    ensures { (result.unit ≡ word_of (λ t. unit_of (get_or digits.now t 0)) (length digits.now)) × (result.sign ≡ word_of (λ t. sign_of (get_or digits.now t 0)) (length digits.now)) }
{
    let mut unit: u64 = 0;
    let mut sign: u64 = 0;
    for t in (0..digits.len()).rev() {
        let digit = u64::from(digits[t]);
        unit = unit * 2 + (digit + 1) / 2;
        sign = sign * 2 + digit / 2;
    }
    Cells { unit, sign }
}

// The row at word x.
fn pack_row(row: &[u8], out: &mut [u64], q: usize, x: usize)
    requires { (length row.now ≤ 1024) × (q ≡ planes (length row.now)) × (x + (q + q) ≤ length out.old) × ((k : ℕ) → get_or row.now k 0 < 3) }
    ensures { Made (λ p. up_to (min 64 (length row.now - 64 * p)) (λ t. get_or row.now (64 * p + t) 0)) x q q out.old out.new }
{
    let c = row.len();
    for p in 0..q {
        let from = 64 * p;
        let pair = pack_pair(&row[from..from + real(c, p)]);
        store(out, q, x + p, pair);
    }
}

// Its own loop and not by_row's: the cells are cut by the row's number, and by_row lends its word.
fn pack_rows(r: usize, c: usize, cells: &[u8], out: &mut [u64])
    requires { (r ≤ 1024) × (c ≤ 1024) × (length cells.now ≡ r * c) × (length out.old ≡ words r c) × ((k : ℕ) → get_or cells.now k 0 < 3) }
    ensures { out.new ≡ pack_of r c cells.now }
{
    let q = planes(c);
    let w = 2 * q;
    for i in 0..r {
        // The word before the byte: a row then costs an instruction less.
        let x = i * w;
        let from = i * c;
        pack_row(&cells[from..from + c], out, q, x);
    }
}

pub fn pack(s: Size, cells: &[u8], out: &mut [u64]) -> Result<(), Reason>
    ensures { (word result, out.new) ≡ pack_means s cells.now out.old }
{
    judged(s, cells, out.len())?;
    let r = s.rows as usize;
    let c = s.columns as usize;
    pack_rows(r, c, cells, out);
    Ok(())
}
