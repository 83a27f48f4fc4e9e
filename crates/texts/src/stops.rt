// Whether the reading stops: what is there of a text shows a fault already, so that nothing that comes after it can change the answer.
ghost use Rattle.std.specs.Prelude.{◌≡◌, true, false, ◌+◌, ◌*◌, ◌≤◌, ◌<◌, take, drop, MatchOption};
ghost use Rattle.hexadecimal.specs.Line.{unframed};
ghost use Rattle.frames.specs.RowLine.{line_long};
ghost use Rattle.texts.specs.MatrixText.{rest_of};
ghost use Rattle.texts.specs.Stops.{line_stops, row_stops, rows_stop, matrix_stops, stops};

use super::limit::Limited;
use super::read::size_in;
use hexadecimal::line::{undigit, unframed};

// What comes after the first n bytes: nothing, where there are fewer.
fn after(text: &[u8], n: usize) -> &[u8]
    ensures { result.now ≡ drop n text.now }
{
    &text[n.min(text.len())..]
}

// A line of n digits and byte 10 that a text should begin with.
fn line_stops(text: &[u8], n: usize) -> bool
    requires { n ≤ 512 }
    ensures { result ≡ line_stops (n + 1) (unframed (take (n + 1) text.now) n) text.now }
{
    if text.len() < n + 1 {
        return undigit(text);
    }
    unframed(&text[..n + 1], n)
}

// The line of row i.
fn row_stops(text: &[u8], within: Limited, i: usize) -> bool
    requires { i < within.size.rows }
    ensures { result ≡ row_stops within.size.columns (drop (i * line_long within.size.columns) text.now) }
{
    let line = within.line_long();
    line_stops(after(text, i * line), line - 1)
}

// The lines of all rows.
fn rows_stop(text: &[u8], within: Limited) -> bool
    ensures { result ≡ rows_stop within.size.rows within.size.columns text.now }
{
    (0..within.rows()).any(|i| row_stops(text, within, i))
}

// What comes after a matrix that a text should begin with, where it does not stop the reading.
fn past_matrix(text: &[u8]) -> Option<&[u8]>
    ensures { MatchOption result (matrix_stops text.now ≡ true) (λ rest. (matrix_stops text.now ≡ false) × (rest.now ≡ rest_of text.now)) }
{
    if text.len() < 9 {
        if undigit(text) {
            return None;
        }
        return Some(after(text, 9));
    }
    let Ok(within) = size_in(text) else {
        return None;
    };
    if rows_stop(&text[9..], within) {
        return None;
    }
    Some(after(text, 9 + within.lines_long()))
}

// A, then B, then what should be the end of the text.
pub fn stops(text: &[u8]) -> bool
    ensures { result ≡ stops text.now }
{
    match past_matrix(text).and_then(past_matrix) {
        Some(rest) => !rest.is_empty(),
        None => true,
    }
}
