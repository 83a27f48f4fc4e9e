// A matrix that a text begins with: its header line, then the lines of its rows.
ghost use Rattle.std.specs.Prelude.{◌≡◌, [], ◌∷◌, ◌*◌, ◌≤◌, length, take, IfOk};
ghost use Rattle.buffers.specs.Buffer.{wide, words};
ghost use Rattle.requests.specs.Answers.{word, first};
ghost use Rattle.hexadecimal.specs.Line.{unframed};
ghost use Rattle.frames.specs.RowLine.{line_long, words_of};
ghost use Rattle.texts.specs.MatrixText.{misread, words_read, size_means, matrix_tests};
ghost use Rattle.texts.specs.Found.{size_told, Found};

use super::limit::Limited;
use frames::header::read_header;
use frames::row_line::read_row;
use requests::Reason;

// The header line has nine bytes.
pub fn size_in(text: &[u8]) -> Result<Limited, Reason>
    ensures { size_told result ≡ size_means text.now }
{
    if text.len() < 9 {
        return Err(Reason::NotAFrame);
    }
    let size = read_header(&text[..9])?;
    Limited::try_from(size)
}

// One line into the words of a row.
fn row_in(text: &[u8], within: Limited, row: &mut [u64]) -> Result<(), Reason>
    requires { length row.old ≡ wide within.size.columns }
    ensures reason { word result ≡ first ((unframed (take (line_long within.size.columns) text.now) (wide within.size.columns * 16), 10) ∷ []) }
    ensures done { IfOk result (λ _. (line_long within.size.columns ≤ length text.now) × (row.new ≡ words_of (wide within.size.columns) (take (line_long within.size.columns) text.now))) }
{
    let line = within.line_long();
    if text.len() < line {
        return Err(Reason::NotAFrame);
    }
    read_row(within.size.columns, &text[..line], row)
}

// The lines of all rows into their words.
fn rows_in(text: &[u8], within: Limited, held: &mut [u64]) -> Result<(), Reason>
    requires { length held.old ≡ words within.size.rows within.size.columns }
    ensures reason { word result ≡ first ((misread within.size.rows within.size.columns text.now, 10) ∷ []) }
    ensures done { IfOk result (λ _. (within.size.rows * line_long within.size.columns ≤ length text.now) × (held.new ≡ words_read within.size.rows within.size.columns text.now)) }
{
    let w = within.wide();
    let line = within.line_long();
    for i in 0..within.rows() {
        row_in(&text[i * line..], within, &mut held[i * w..i * w + w])?;
    }
    Ok(())
}

// Its size and what comes after it; its words are then the first of a buffer.
pub fn matrix_in<'a>(text: &'a [u8], held: &mut [u64; 512]) -> Result<(Limited, &'a [u8]), Reason>
    ensures reason { word result ≡ first (matrix_tests text.now) }
    ensures done { IfOk result (λ found. Found text.now found.0.size found.1.now held.old held.new) }
{
    let within = size_in(text)?;
    rows_in(&text[9..], within, &mut held[..within.long()])?;
    Ok((within, &text[9 + within.lines_long()..]))
}
