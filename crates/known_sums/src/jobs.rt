// Quotes, and jobs of no column in A or in B.
use super::SAMPLE;
use super::line::line;
use matrix::job::Job;
use matrix::opening::opening;
use matrix::product::product;
use matrix::quote::quote;
use matrix::total::total;
use matrix::turn::turn;
use requests::{Size, number};
use std::io;

pub fn quotes(rt: &impl Print) -> io::Result<()> {
    let largest = Size {
        rows: 1024,
        columns: 1024,
    };
    line(
        rt,
        "quote 1024 by 1024, width 2",
        quote(largest, 2).unwrap_or(0),
    )?;
    for width in [8, 9] {
        line(
            rt,
            format_args!("quote, width {width}"),
            number(quote(SAMPLE, width)),
        )?;
    }
    Ok(())
}

// A has no column: the product holds noise before.
pub fn no_middle(rt: &impl Print) -> io::Result<()> {
    let a = Size {
        rows: 2,
        columns: 0,
    };
    let b = Size {
        rows: 0,
        columns: 2,
    };
    let mut table = [5; 32];
    let mut out = [7; 4];
    line(rt, "total, l = 0", total(a, 4, &[]).unwrap_or(0))?;
    let answer = product(a, b, 4, &[], &[], &mut table, &mut out);
    line(rt, "product, l = 0", number(answer))?;
    line(rt, "its words together", out[0] | out[1] | out[2] | out[3])
}

// B has no column: the sample's A at width 2.
pub fn no_columns(rt: &impl Print) -> io::Result<()> {
    let a = [3, 2, 6, 2];
    let b = Size {
        rows: 3,
        columns: 0,
    };
    match opening(SAMPLE, b, 2, &a, &[], &mut [], &mut []) {
        Ok(job) => {
            line(rt, "opening, n = 0", job.done)?;
            let next = one_turn(rt, job, &a)?;
            one_turn(rt, next, &a)?;
            Ok(())
        }
        refused => line(rt, "opening, n = 0, refused", number(refused)),
    }
}

// A turn with budget 5 where B has no column: what it says, and the record it answers.
fn one_turn(rt: &impl Print, job: Job, a: &[u64]) -> io::Result<Job> {
    match turn(job, a, &[], &mut [], &mut [], 5) {
        Ok(turned) => {
            line(rt, "steps of a turn with budget 5", turned.made)?;
            line(rt, "steps done", turned.job.done)?;
            line(rt, "finished", u64::from(turned.finished))?;
            Ok(turned.job)
        }
        refused => {
            line(rt, "turn, n = 0, refused", number(refused))?;
            Ok(job)
        }
    }
}
