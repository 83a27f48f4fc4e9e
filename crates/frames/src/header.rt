// The header line: rows, then columns, four digits each, and byte 10.
ghost use Rattle.std.specs.Prelude.{◌≡◌};
ghost use Rattle.requests.specs.Answers.{word};
ghost use Rattle.frames.specs.Header.{header_told, read_header_means, write_header_means};

use hexadecimal::line::{put, unframed, value};
use requests::sizes::over;
use requests::{Reason, Size};

pub fn read_header(line: &[u8]) -> Result<Size, Reason>
    ensures { header_told result ≡ read_header_means line.now }
{
    if unframed(line, 8) {
        return Err(Reason::NotAFrame);
    }
    let rows = value(&line[0..4]);
    let columns = value(&line[4..8]);
    let s = Size { rows, columns };
    if over(s) {
        return Err(Reason::TooLarge);
    }
    Ok(s)
}

// The two counts are one number of eight digits.
pub fn write_header(s: Size, line: &mut [u8]) -> Result<(), Reason>
    ensures { (word result, line.new) ≡ write_header_means s line.old }
{
    if over(s) {
        return Err(Reason::TooLarge);
    }
    if line.len() != 9 {
        return Err(Reason::LengthWrong);
    }
    put(s.rows * 65536 + s.columns, 8, line);
    Ok(())
}
