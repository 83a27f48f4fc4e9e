// What the steps of a product read: its two factors, and of the left one a block of columns at a time.
ghost use Rattle.std.specs.Prelude.{◌≡◌, ◌+◌, ◌*◌, ◌≤◌, ◌<◌};
ghost use Rattle.buffers.specs.Buffer.{planes, Legal, Words};
ghost use Rattle.steps.specs.StepList.{blocks, block_width};

use super::place::width;
use buffers::planes::planes;

// A matrix as it is lent: rows of cells, packed in words.
#[derive(Clone, Copy)]
pub struct Packed<'w> {
    pub rows: usize,
    pub columns: usize,
    // Words of each of a row's two planes.
    pub plane: usize,
    pub words: &'w [u64],
    pub ghost few_rows: { rows ≤ 1024 },
    pub ghost few_columns: { columns ≤ 1024 },
    pub ghost whole_plane: { plane ≡ planes columns },
    pub ghost legal: { Legal rows columns words.now },
    // So it is of any slice of words, but a proof does not see it in a field.
    pub ghost fit: { Words words.now },
}

// The factors A and B, and the width of the blocks into which A's columns are cut.
#[derive(Clone, Copy)]
pub struct Factors<'w> {
    pub a: Packed<'w>,
    pub b: Packed<'w>,
    pub width: usize,
    pub ghost joined: { a.columns ≡ b.rows },
    pub ghost some: { 0 < width },
    pub ghost narrow: { width ≤ 8 },
}

// One block: its first column of A, and how many columns it has. Table and product are no part of it: as arguments a clause has them before and
// after a step, where a struct of two &mut would have each in one place more, and their one fact is Sized.
#[derive(Clone, Copy)]
pub struct Block<'w> {
    pub factors: Factors<'w>,
    pub start: usize,
    pub width: usize,
    pub ghost some: { 0 < width },
    pub ghost narrow: { width ≤ factors.width },
    pub ghost inside: { start + width ≤ factors.a.columns },
}

impl<'w> Packed<'w> {
    pub fn new(rows: usize, columns: usize, words: &'w [u64]) -> Self
        requires { (rows ≤ 1024) × (columns ≤ 1024) × Legal rows columns words.now }
        ensures { (result.rows ≡ rows) × (result.columns ≡ columns) × (result.words.now ≡ words.now) }
    {
        Packed {
            rows,
            columns,
            plane: planes(columns),
            words,
        }
    }
}

impl<'w> Factors<'w> {
    // Block c of A.
    pub fn block(&self, c: usize) -> Block<'w>
        requires { c < blocks self.now.a.columns self.now.width }
        ensures { (result.factors ≡ self.now) × (result.start ≡ c * self.now.width) × (result.width ≡ block_width self.now.a.columns self.now.width c) }
    {
        Block {
            factors: *self,
            start: c * self.width,
            width: width(self.a.columns, self.width, c),
        }
    }
}
