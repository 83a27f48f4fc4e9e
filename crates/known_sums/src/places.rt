// Refusals and their places: number, buffer (from 1), row and column (from 0), as their word has them. A refused scale or digit has no place.
use super::SAMPLE;
use super::line::line;
use matrix::check::check;
use matrix::combination::combination;
use matrix::job::Job;
use matrix::pack::pack;
use matrix::scaling::scaling;
use requests::{Reason, Size, word};
use std::io;

fn place<T: Copy>(rt: &impl Print, label: &str, answer: Result<T, Reason>) -> io::Result<()> {
    let w = word(answer);
    line(rt, label, w % 256)?;
    line(rt, "  buffer", w / 256 % 256)?;
    line(rt, "  row", w / 65536 % 65536)?;
    line(rt, "  column", w / 4294967296)
}

// Ten rows of three columns: a padding bit in row 0, and a stray sign in row 9, which comes first all the same.
pub fn of_one(rt: &impl Print) -> io::Result<()> {
    let s = Size {
        rows: 10,
        columns: 3,
    };
    let mut a = [0; 20];
    a[0] = 8;
    a[19] = 4;
    place(rt, "sign alone in row 9, bit beyond row 0", check(s, &a))?;
    a[19] = 0;
    place(rt, "bit beyond row 0", check(s, &a))
}

// One row of 65 columns: bit 1 of word 1, in the sign plane.
pub fn beyond_a_word(rt: &impl Print) -> io::Result<()> {
    let s = Size {
        rows: 1,
        columns: 65,
    };
    place(rt, "65 columns, bit 1 of word 1", check(s, &[0, 0, 0, 2]))
}

// The last of four cells, and not the first, of the second matrix, which is looked at with the digit 0 too; and a digit above 2.
pub fn of_two(rt: &impl Print) -> io::Result<()> {
    let s = Size {
        rows: 2,
        columns: 2,
    };
    let a = [0; 4];
    let b = [3, 1, 0, 3];
    let mut out = [0; 4];
    place(
        rt,
        "combination by 0, signs alone in row 1 of B",
        combination(s, s, 0, &a, &b, &mut out),
    )?;
    place(
        rt,
        "combination by 3, signs alone in row 1 of B",
        combination(s, s, 3, &a, &b, &mut out),
    )
}

// Two rows of three digits, of which the fifth and the sixth are above 2; and a scale.
pub fn of_digits(rt: &impl Print) -> io::Result<()> {
    let mut out = [0; 4];
    place(
        rt,
        "pack, digits 3 and 255 in row 1",
        pack(SAMPLE, &[0, 1, 2, 0, 3, 255], &mut out),
    )?;
    place(rt, "scaling by 3", scaling(SAMPLE, 3, &[0; 4], &mut out))
}

// A job of one cell at width 1, whose table has two rows.
pub fn of_a_turn(rt: &impl Print) -> io::Result<()> {
    let mut table = [0, 0, 0, 1];
    turn(rt, "turn, sign alone in row 1 of the table", &mut table)?;
    table[3] = 0;
    turn(rt, "turn, bit beyond the product", &mut table)
}

fn turn(rt: &impl Print, label: &str, table: &mut [u64]) -> io::Result<()> {
    let job = Job {
        m: 1,
        l: 1,
        n: 1,
        width: 1,
        done: 0,
    };
    let a = [1, 0];
    let turned = matrix::turn::turn(job, &a, &a, table, &mut [2, 0], 1);
    place(rt, label, turned)
}
