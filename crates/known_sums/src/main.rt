// Runs what document 01 lists without a star, one line each: a label and what came back; then refusals with their places. The file stdout has what the
// document says.
#![tactic(auto)]

mod empty;
mod jobs;
mod limits;
mod line;
mod places;
mod tallies;
mod widths;
mod witness;

use requests::Size;
use std::io;

// The size of the sample's A.
const SAMPLE: Size = Size {
    rows: 2,
    columns: 3,
};

fn main(rt: HostRuntime) -> io::Result<()> {
    limits::sizes(&rt)?;
    limits::padding(&rt)?;
    empty::matrices(&rt)?;
    empty::bytes(&rt)?;
    empty::tally(&rt)?;
    tallies::all_levels(&rt)?;
    tallies::no_low_level(&rt)?;
    widths::quotes(&rt)?;
    jobs::quotes(&rt)?;
    widths::squares(&rt)?;
    widths::edges(&rt)?;
    widths::asked(&rt)?;
    witness::quotes_met(&rt)?;
    jobs::no_middle(&rt)?;
    jobs::no_columns(&rt)?;
    places::of_one(&rt)?;
    places::beyond_a_word(&rt)?;
    places::of_two(&rt)?;
    places::of_digits(&rt)?;
    places::of_a_turn(&rt)
}
