// The line of a row: its words in order, sixteen digits each, and byte 10. A row of no words is byte 10 alone. No heap: words and line are lent, and
// their lengths are tested against the columns first.
ghost use Rattle.std.specs.Prelude.{◌≡◌, ℕ, ◌+◌, ◌*◌, ◌≤◌, ◌<◌, length, get_or, MatchResult};
ghost use Rattle.buffers.specs.Buffer.{wide};
ghost use Rattle.requests.specs.Answers.{word, first};
ghost use Rattle.requests.specs.declared.Reason.TheVariants.{TooLarge};
ghost use Rattle.hexadecimal.specs.Digit.{digit_of};
ghost use Rattle.frames.specs.RowLine.{line_of, words_of, read_row_tests, read_row_means, write_row_tests, write_row_means};

use buffers::planes::planes;
use hexadecimal::digit::byte_of;
use hexadecimal::line::{unframed, value};
use requests::Reason;

// How many words a row has: of at most 1,024 columns.
fn words_of_row(columns: u64) -> Result<usize, Reason>
    ensures { MatchResult result (λ w. (w ≡ wide columns) × (columns ≤ 1024)) (λ reason. (1024 < columns) × (reason ≡ TooLarge)) }
{
    if columns > 1024 {
        return Err(Reason::TooLarge);
    }
    Ok(2 * planes(columns as usize))
}

// What is wrong with a line to be read into n words.
fn readable(columns: u64, line: &[u8], n: usize) -> Result<(), Reason>
    ensures { word result ≡ first (read_row_tests columns line.now n) }
{
    let w = words_of_row(columns)?;
    if n != w {
        return Err(Reason::LengthWrong);
    }
    if unframed(line, w * 16) {
        return Err(Reason::NotAFrame);
    }
    Ok(())
}

// All words, from a line whose bytes are digits.
fn read_words(line: &[u8], words: &mut [u64])
    requires { (length words.old * 16 ≤ length line.now) × ((k : ℕ) → k < length words.old * 16 → digit_of (get_or line.now k 0) < 16) }
    ensures { words.new ≡ words_of (length words.old) line.now }
{
    for (p, w) in words.iter_mut().enumerate() {
        *w = value(&line[p * 16..p * 16 + 16]);
    }
}

// The whole line is tested before a word is written.
pub fn read_row(columns: u64, line: &[u8], words: &mut [u64]) -> Result<(), Reason>
    ensures { (word result, words.new) ≡ read_row_means columns line.now words.old }
{
    readable(columns, line, words.len())?;
    read_words(line, words);
    Ok(())
}

// What is wrong with n words to be written into m bytes.
fn writable(columns: u64, n: usize, m: usize) -> Result<(), Reason>
    ensures { word result ≡ first (write_row_tests columns n m) }
{
    let w = words_of_row(columns)?;
    if n != w || m != w * 16 + 1 {
        return Err(Reason::LengthWrong);
    }
    Ok(())
}

// The digits of all words, and byte 10: one by one, since hexadecimal's put ends each number with byte 10.
fn write_words(words: &[u64], line: &mut [u8])
    requires { (length words.now ≤ 32) × (length line.old ≡ length words.now * 16 + 1) }
    ensures { line.new ≡ line_of (length words.now) words.now }
{
    let n = words.len() * 16;
    for k in 0..n {
        let t = 15 - k % 16;
        line[k] = byte_of((words[k / 16] >> (4 * t)) % 16);
    }
    line[n] = b'\n';
}

pub fn write_row(columns: u64, words: &[u64], line: &mut [u8]) -> Result<(), Reason>
    ensures { (word result, line.new) ≡ write_row_means columns words.now line.old }
{
    writable(columns, words.len(), line.len())?;
    write_words(words, line);
    Ok(())
}
