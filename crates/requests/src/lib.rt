// What every request shares: sizes, why one is refused and the word for it, and the tests of one buffer, of one matrix and of two.
#![tactic(auto)]

ghost use Rattle.std.specs.Prelude.{◌≡◌};
ghost use Rattle.requests.specs.Answers.{buffer_number, placed, reason_word, word, number_in};

use std::error::Error;
use std::fmt;

pub mod faults;
mod lent;
pub mod pair;
pub mod single;
pub mod sizes;

// A matrix's row and column counts, as they are handed in: any 64-bit numbers.
#[derive(Clone, Copy, Debug, PartialEq, Eq)]
pub struct Size {
    pub rows: u64,
    pub columns: u64,
}

// The buffers that a request looks at, in its order: A, B, table and product are the first to the fourth. No place has a buffer 0, so that
// none looks like a refusal without a place.
#[derive(Clone, Copy, Debug, PartialEq, Eq)]
pub enum Buffer {
    First,
    Second,
    Third,
    Fourth,
}

// Where a cell is wrong: row and column count from 0, and a padding bit's column is its position.
#[derive(Clone, Copy, Debug, PartialEq, Eq)]
pub struct Place {
    pub buffer: Buffer,
    pub row: u16,
    pub column: u32,
}

// Why a request is refused. A digit of unpacked cells has its place; a scale has none.
#[derive(Clone, Copy, Debug, PartialEq, Eq)]
pub enum Reason {
    TooLarge,
    SizesDiffer,
    WidthWrong,
    LengthWrong,
    StraySign(Place),
    PaddingSet(Place),
    StepsExceed,
    DigitWrong(Place),
    ScaleWrong,
    NotAFrame,
    AboveLimit,
}

impl From<Buffer> for u8 {
    ghost from_gives = { λ b n. n ≡ buffer_number b };

    fn from(b: Buffer) -> u8 {
        match b {
            Buffer::First => 1,
            Buffer::Second => 2,
            Buffer::Third => 3,
            Buffer::Fourth => 4,
        }
    }
}

// A number and its place in one word: number + 2^8 buffer + 2^16 row + 2^32 column.
#[tactic(auto, unfolding(crate::specs::Answers::placed))]
fn placed(n: u8, p: Place) -> u64
    ensures { result ≡ placed n p }
{
    u64::from(n)
        + 256 * u64::from(u8::from(p.buffer))
        + 65536 * u64::from(p.row)
        + 4294967296 * u64::from(p.column)
}

// The word that comes back for a reason: its number, with its place above it.
impl From<Reason> for u64 {
    ghost from_gives = { λ r w. w ≡ reason_word r };

    fn from(r: Reason) -> u64 {
        match r {
            Reason::TooLarge => 1,
            Reason::SizesDiffer => 2,
            Reason::WidthWrong => 3,
            Reason::LengthWrong => 4,
            Reason::StraySign(p) => placed(5, p),
            Reason::PaddingSet(p) => placed(6, p),
            Reason::StepsExceed => 7,
            Reason::DigitWrong(p) => placed(8, p),
            Reason::ScaleWrong => 8,
            Reason::NotAFrame => 10,
            Reason::AboveLimit => 11,
        }
    }
}

// In words, for hosts in Rattle: no crate here prints a reason.
impl fmt::Display for Buffer {
    fn fmt<W: fmt::Write>(&self, f: &mut fmt::Formatter<W>) -> fmt::Result {
        f.write_str(match self {
            Buffer::First => "the first buffer",
            Buffer::Second => "the second buffer",
            Buffer::Third => "the third buffer",
            Buffer::Fourth => "the fourth buffer",
        })
    }
}

impl fmt::Display for Place {
    fn fmt<W: fmt::Write>(&self, f: &mut fmt::Formatter<W>) -> fmt::Result {
        write!(
            f,
            "row {} and column {} of {}",
            self.row, self.column, self.buffer
        )
    }
}

impl fmt::Display for Reason {
    fn fmt<W: fmt::Write>(&self, f: &mut fmt::Formatter<W>) -> fmt::Result {
        match self {
            Reason::TooLarge => write!(f, "a size is above its limit"),
            Reason::SizesDiffer => write!(f, "the sizes do not go together"),
            Reason::WidthWrong => write!(f, "the width is wrong"),
            Reason::LengthWrong => write!(f, "a buffer has the wrong length"),
            Reason::StraySign(place) => write!(f, "a sign without a unit at {place}"),
            Reason::PaddingSet(place) => write!(f, "a padding bit is set at {place}"),
            Reason::StepsExceed => write!(f, "more steps are done than there are"),
            Reason::DigitWrong(place) => write!(f, "a digit is above 2 at {place}"),
            Reason::ScaleWrong => write!(f, "the scale is above 2"),
            Reason::NotAFrame => write!(f, "not a frame"),
            Reason::AboveLimit => write!(f, "a size is above the limit of a text or of the C face"),
        }
    }
}

impl Error for Reason {}

// The word that comes back for an answer: 0 where it is done. It is a number because C gets it.
pub fn word<T: Copy>(a: Result<T, Reason>) -> u64
    ensures { result ≡ word a }
{
    match a {
        Ok(_) => 0,
        Err(r) => u64::from(r),
    }
}

// Its number alone, which texts say.
pub fn number<T: Copy>(a: Result<T, Reason>) -> u64
    ensures { result ≡ number_in (word a) }
{
    word(a) % 256
}
