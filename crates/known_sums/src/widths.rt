// Quotes at every width, and the width that 0 means.
use super::SAMPLE;
use super::line::line;
use matrix::quote::quote;
use matrix::width::width;
use requests::{Size, number};
use std::io;

pub fn quotes(rt: &impl Print) -> io::Result<()> {
    for width in [1, 2, 3, 4, 5, 6, 7, 8, 0] {
        line(
            rt,
            format_args!("quote 2 by 3, width {width}"),
            quote(SAMPLE, width).unwrap_or(0),
        )?;
    }
    Ok(())
}

fn meant(rt: &impl Print, rows: u64, columns: u64) -> io::Result<()> {
    let width = width(Size { rows, columns }, 0).unwrap_or(0);
    line(
        rt,
        format_args!("width 0 means, {rows} by {columns}"),
        width,
    )
}

pub fn squares(rt: &impl Print) -> io::Result<()> {
    for side in [1, 2, 8, 16, 32, 64, 128, 256, 512, 1024] {
        meant(rt, side, side)?;
    }
    Ok(())
}

// No column and one; the widest within 64 by 64, and within 128 by 128.
pub fn edges(rt: &impl Print) -> io::Result<()> {
    for (rows, columns) in [(2, 3), (5, 0), (5, 1), (64, 7), (128, 8)] {
        meant(rt, rows, columns)?;
    }
    Ok(())
}

// What a width as it is handed in means, and what is refused.
pub fn asked(rt: &impl Print) -> io::Result<()> {
    let large = Size {
        rows: 2,
        columns: 1025,
    };
    line(rt, "width 5 means", width(SAMPLE, 5).unwrap_or(0))?;
    line(rt, "width 9", number(width(SAMPLE, 9)))?;
    line(rt, "width of 1025 columns", number(width(large, 9)))
}
