// Where sizes and padding begin to be refused.
use super::line::line;
use matrix::check::check;
use requests::{Size, number};
use std::io;

pub fn sizes(rt: &impl Print) -> io::Result<()> {
    for rows in [1024, 1025] {
        let answer = check(Size { rows, columns: 0 }, &[]);
        line(rt, format_args!("{rows} rows"), number(answer))?;
    }
    for columns in [1024, 1025] {
        let answer = check(Size { rows: 0, columns }, &[]);
        line(rt, format_args!("{columns} columns"), number(answer))?;
    }
    Ok(())
}

pub fn padding(rt: &impl Print) -> io::Result<()> {
    let full = Size {
        rows: 1,
        columns: 64,
    };
    let answer = check(full, &[u64::MAX, 0]);
    line(rt, "64 columns, all ones", number(answer))?;
    let longer = Size {
        rows: 1,
        columns: 65,
    };
    for (what, words) in [
        ("bit 0 of word 1", [0, 1, 0, 0]),
        ("bit 1 of word 1", [0, 2, 0, 0]),
        ("its sign", [0, 0, 0, 2]),
    ] {
        line(
            rt,
            format_args!("65 columns, {what}"),
            number(check(longer, &words)),
        )?;
    }
    Ok(())
}
