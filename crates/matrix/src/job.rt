// A job's record, and the sizes of its matrices.
ghost use Rattle.std.specs.Prelude.{◌≡◌, ◌<◌};
ghost use Rattle.matrix.specs.Job.{table_size, product_size};
ghost use Rattle.matrix.specs.Record.{job_in};
ghost use Rattle.matrix.specs.Turn.{size_a, size_b};

use requests::Size;

#[derive(Clone, Copy, Debug, PartialEq, Eq)]
pub struct Job {
    pub m: u64,
    pub l: u64,
    pub n: u64,
    pub width: u64,
    pub done: u64,
}

impl Job {
    pub fn size_a(self) -> Size
        ensures { result ≡ size_a self }
    {
        Size {
            rows: self.m,
            columns: self.l,
        }
    }

    pub fn size_b(self) -> Size
        ensures { result ≡ size_b self }
    {
        Size {
            rows: self.l,
            columns: self.n,
        }
    }
}

// The job that a record of seven words says: its last two words are not read.
#[tactic(auto, unfolding(crate::specs::Record::job_in))]
impl From<[u64; 7]> for Job {
    ghost from_gives = { λ ws job. job ≡ job_in ws };

    fn from(words: [u64; 7]) -> Job {
        let [m, l, n, width, done, _, _] = words;
        Job {
            m,
            l,
            n,
            width,
            done,
        }
    }
}

// The table has a row for each sum of up to `width` rows of B, which is y. No 64-bit number says how many from width 64 on, and 0 stands there:
// no Option, since every caller has tested the width.
pub fn table_size(y: Size, width: u64) -> Size
    ensures { width < 64 → result ≡ table_size y width }
{
    Size {
        rows: if width < 64 { 1 << width } else { 0 },
        columns: y.columns,
    }
}

pub fn product_size(x: Size, y: Size) -> Size
    ensures { result ≡ product_size x y }
{
    Size {
        rows: x.rows,
        columns: y.columns,
    }
}
