// The program's limit, and how many words and bytes a matrix within it has.
ghost use Rattle.std.specs.Prelude.{◌≡◌, true, false, ◌*◌, ◌≤◌, MatchResult};
ghost use Rattle.buffers.specs.Buffer.{wide, words};
ghost use Rattle.requests.specs.declared.Reason.TheVariants.{AboveLimit};
ghost use Rattle.frames.specs.RowLine.{line_long};
ghost use Rattle.matrix.specs.Job.{product_size};
ghost use Rattle.texts.specs.MatrixText.{above};

use buffers::planes::planes;
use matrix::job::product_size;
use requests::sizes::exceeds;
use requests::{Reason, Size};

// A size within the program's limit.
#[derive(Clone, Copy)]
pub struct Limited {
    pub size: Size,
    pub ghost few: { size.rows ≤ 128 },
    pub ghost narrow: { size.columns ≤ 128 },
}

impl TryFrom<Size> for Limited {
    type Error = Reason;

    ghost try_from_gives = { λ s r. MatchResult r (λ within. (above s ≡ false) × (within.size ≡ s)) (λ reason. (above s ≡ true) × (reason ≡ AboveLimit)) };

    fn try_from(size: Size) -> Result<Limited, Reason> {
        if exceeds(128, size) {
            return Err(Reason::AboveLimit);
        }
        Ok(Limited { size })
    }
}

impl Limited {
    pub fn rows(self) -> usize
        ensures { result ≡ self.size.rows }
    {
        self.size.rows as usize
    }

    // The words of a row.
    pub fn wide(self) -> usize
        ensures { (result ≡ wide self.size.columns) × (result ≤ 4) }
    {
        2 * planes(self.size.columns as usize)
    }

    // The bytes of the line of a row.
    pub fn line_long(self) -> usize
        ensures { (result ≡ line_long self.size.columns) × (result ≤ 65) }
    {
        self.wide() * 16 + 1
    }

    // The words of the whole matrix.
    pub fn long(self) -> usize
        ensures { (result ≡ words self.size.rows self.size.columns) × (result ≤ 512) }
    {
        self.rows() * self.wide()
    }

    // The bytes of the lines of all rows.
    pub fn lines_long(self) -> usize
        ensures { (result ≡ self.size.rows * line_long self.size.columns) × (result ≤ 8320) }
    {
        self.rows() * self.line_long()
    }

    // The size of its product with a matrix of another size.
    pub fn product(self, y: Limited) -> Limited
        ensures { result.size ≡ product_size self.size y.size }
    {
        Limited {
            size: product_size(self.size, y.size),
        }
    }
}
