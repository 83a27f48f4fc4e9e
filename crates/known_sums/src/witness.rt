// The witness of the quote at sizes around the ends of words: packed, and its totals, each of which is the quote.
ghost use Rattle.std.specs.Prelude.{◌*◌, ◌≤◌, ◌<◌};

use super::line::line;
use matrix::pack::pack;
use matrix::quote::quote;
use matrix::total::total;
use requests::{Size, number};
use std::io;

// 1 in even columns, 2 in odd ones.
fn fill(cells: &mut [u8], columns: usize)
    requires { 0 < columns }
{
    for (p, cell) in cells.iter_mut().enumerate() {
        *cell = 1 + (p % columns % 2) as u8;
    }
}

// The total at each width, and at how many it is the quote.
fn totals(rt: &impl Print, s: Size, a: &[u64]) -> io::Result<()> {
    let mut met: u64 = 0;
    for width in 1..=8 {
        let steps = total(s, width, a);
        line(
            rt,
            format_args!("  total, width {width}"),
            steps.unwrap_or(0),
        )?;
        if steps == quote(s, width) {
            met += 1;
        }
    }
    line(rt, "  widths at which it is the quote", met)
}

// The witness of the size, packed: the number that comes back. Its room for the most cells that these sizes have is given back before anything is printed.
#[inline(never)]
fn packed(rows: usize, columns: usize, a: &mut [u64]) -> u64
    requires { (0 < columns) × («rows» * columns ≤ 2048) }
{
    let mut cells = [0; 2048];
    let cells = &mut cells[..rows * columns];
    fill(cells, columns);
    let s = Size {
        rows: rows as u64,
        columns: columns as u64,
    };
    number(pack(s, cells, a))
}

// Without a heap there is room for the most words that these sizes have, of which a part is lent.
fn of_size(rt: &impl Print, rows: usize, columns: usize, words: usize) -> io::Result<()>
    requires { (0 < columns) × («rows» * columns ≤ 2048) × (words ≤ 64) }
{
    let mut a = [0; 64];
    let a = &mut a[..words];
    let number = packed(rows, columns, a);
    line(
        rt,
        format_args!("1 2 1 2 .. in {rows} rows of {columns} columns"),
        number,
    )?;
    let s = Size {
        rows: rows as u64,
        columns: columns as u64,
    };
    totals(rt, s, a)
}

pub fn quotes_met(rt: &impl Print) -> io::Result<()> {
    for (rows, columns, words) in [(3, 64, 6), (3, 65, 12), (5, 130, 30), (2, 1024, 64)] {
        of_size(rt, rows, columns, words)?;
    }
    Ok(())
}
