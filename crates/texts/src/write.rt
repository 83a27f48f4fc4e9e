// Text into a buffer: a refusal, or the frames of a matrix and a total. Where there is no room for all of it nothing is written, and
// multiply_means has 0 for how many bytes there are: no Option.
ghost use Rattle.std.specs.Prelude.{◌≡◌, not, ◌*◌, ltb, length};
ghost use Rattle.buffers.specs.Buffer.{words};
ghost use Rattle.frames.specs.RowLine.{line_long};
ghost use Rattle.texts.specs.MatrixText.{lines_of};
ghost use Rattle.texts.specs.Multiply.{refusal, frames_of, placed};

use super::limit::Limited;
use frames::header::write_header;
use frames::row_line::write_row;
use hexadecimal::line::put;

// The word refused, a space, the number as two digits, byte 10.
pub fn refuse(n: u64, out: &mut [u8]) -> usize
    ensures { (result, out.new) ≡ placed (not (ltb (length out.old) (length (refusal n)))) (refusal n) out.old }
{
    if out.len() < 11 {
        return 0;
    }
    out[..8].copy_from_slice(b"refused ");
    put(n, 2, &mut out[8..11]);
    11
}

// The lines of all rows.
fn put_rows(within: Limited, held: &[u64], out: &mut [u8])
    requires { (length held.now ≡ words within.size.rows within.size.columns) × (length out.old ≡ within.size.rows * line_long within.size.columns) }
    ensures { out.new ≡ lines_of within.size.rows within.size.columns held.now }
{
    let w = within.wide();
    let line = within.line_long();
    for i in 0..within.rows() {
        let row = &held[i * w..i * w + w];
        write_row(
            within.size.columns,
            row,
            &mut out[i * line..i * line + line],
        )
        .unwrap();
    }
}

// The frames of a matrix, and then the total as eight digits and byte 10.
pub fn put_frames(within: Limited, held: &[u64], total: u64, out: &mut [u8]) -> usize
    requires { length held.now ≡ words within.size.rows within.size.columns }
    ensures { (result, out.new) ≡ placed (not (ltb (length out.old) (length (frames_of within.size held.now total)))) (frames_of within.size held.now total) out.old }
{
    let e = 9 + within.lines_long();
    let end = e + 9;
    if out.len() < end {
        return 0;
    }
    write_header(within.size, &mut out[..9]).unwrap();
    put_rows(within, held, &mut out[9..e]);
    put(total, 8, &mut out[e..end]);
    end
}
