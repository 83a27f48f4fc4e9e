// Matrices of no columns, and of no rows, in every request.
use super::line::line;
use matrix::check::check;
use matrix::combination::combination;
use matrix::negation::negation;
use matrix::pack::pack;
use matrix::scaling::scaling;
use matrix::transpose::transpose;
use matrix::unpack::unpack;
use requests::{Size, number};
use std::io;

const FLAT: Size = Size {
    rows: 5,
    columns: 0,
};

const THIN: Size = Size {
    rows: 0,
    columns: 70,
};

pub fn matrices(rt: &impl Print) -> io::Result<()> {
    for (label, answer) in [
        ("check 5 by 0", check(FLAT, &[])),
        ("check 0 by 70", check(THIN, &[])),
        (
            "combination by 1, 5 by 0",
            combination(FLAT, FLAT, 1, &[], &[], &mut []),
        ),
        (
            "combination by 2, 0 by 70",
            combination(THIN, THIN, 2, &[], &[], &mut []),
        ),
        ("negation 5 by 0", negation(FLAT, &[], &mut [])),
        ("scaling 0 by 70", scaling(THIN, 2, &[], &mut [])),
        ("transpose 5 by 0", transpose(FLAT, &[], &mut [])),
        ("transpose 0 by 70", transpose(THIN, &[], &mut [])),
    ] {
        line(rt, label, number(answer))?;
    }
    Ok(())
}

pub fn bytes(rt: &impl Print) -> io::Result<()> {
    for (label, answer) in [
        ("pack 5 by 0", pack(FLAT, &[], &mut [])),
        ("unpack 5 by 0", unpack(FLAT, &[], &mut [])),
    ] {
        line(rt, label, number(answer))?;
    }
    Ok(())
}

pub fn tally(rt: &impl Print) -> io::Result<()> {
    super::tallies::tally(rt, "tally of no columns", 0, &[])
}
