// Rows through the tally, around the ends of words and up to the longest that can be balanced: each length with all three levels in turn, and without
// the low one.
ghost use Rattle.std.specs.Prelude.{◌<◌, ◌≤◌, length};

use super::line::line;
use matrix::pack::pack;
use requests::{Size, number};
use std::fmt::Display;
use std::io;

pub fn tally(
    rt: &impl Print,
    label: impl Display + Drop,
    columns: u64,
    row: &[u64],
) -> io::Result<()> {
    let answer = matrix::tally::tally(columns, row);
    line(rt, label, number(answer))?;
    if let Ok(tallied) = answer {
        let [zeros, ones, twos] = tallied.counts;
        line(rt, "  zeros", zeros)?;
        line(rt, "  ones", ones)?;
        line(rt, "  twos", twos)?;
        line(rt, "  balanced", u64::from(tallied.balanced))?;
    }
    Ok(())
}

fn fill(cells: &mut [u8], levels: &[u8])
    requires { 0 < length levels.now }
{
    for (j, cell) in cells.iter_mut().enumerate() {
        *cell = levels[j % levels.len()];
    }
}

// A row of so many columns that holds the levels in turn. Without a heap there is room for the longest, of which a part is lent.
fn row_of(rt: &impl Print, label: &str, levels: &[u8], columns: usize) -> io::Result<()>
    requires { (0 < length levels.now) × (columns ≤ 1023) }
{
    let mut cells = [0; 1023];
    let cells = &mut cells[..columns];
    fill(cells, levels);
    let mut row = [0; 32];
    let row = &mut row[..2 * columns.div_ceil(64)];
    let s = Size {
        rows: 1,
        columns: columns as u64,
    };
    let _ = pack(s, cells, row);
    tally(
        rt,
        format_args!("{label} in {columns} columns"),
        s.columns,
        row,
    )
}

const LENGTHS: [usize; 6] = [3, 4, 64, 65, 192, 1023];

pub fn all_levels(rt: &impl Print) -> io::Result<()> {
    for columns in LENGTHS {
        row_of(rt, "0 1 2", &[0, 1, 2], columns)?;
    }
    Ok(())
}

pub fn no_low_level(rt: &impl Print) -> io::Result<()> {
    for columns in LENGTHS {
        row_of(rt, "1 2", &[1, 2], columns)?;
    }
    Ok(())
}
