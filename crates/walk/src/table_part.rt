// Table steps of one block, one after another.
ghost use Rattle.std.specs.Prelude.{List, [], ◌∷◌, ◌≡◌, ℕ, ◌^◌, ◌≤◌, ◌<◌};
ghost use Rattle.buffers.specs.Buffer.{Legal, Words};
ghost use Rattle.steps.specs.Step.{table_step};
ghost use Rattle.steps.specs.StepList.{each};
ghost use Rattle.walk.specs.Factors.{RanFor, matrix_of};

use super::factors::Block;
use cells::lowest::lowest;
use rows::table_step::table_step;

impl Block<'_> {
    // Makes table row x: trailing zeros of x choose the row of B. A row is q words a plane.
    fn step(&self, table: &mut [u64], q: usize, x: usize)
        requires { Legal (2 ^ self.now.factors.width) self.now.factors.b.columns table.old × (0 < x) × (x < 2 ^ self.now.width) × (q ≡ self.now.factors.b.plane) }
        ensures { (p : List ℕ) → Legal self.now.factors.a.rows self.now.factors.b.columns p → Words p → RanFor self.now.factors (matrix_of self.now.factors.b) (table_step self.now.start x ∷ []) table.old p table.new p }
    {
        let b = self.factors.b;
        let low = lowest(x as u64);
        let wide = 2 * q;
        let y = (low.rest as usize) * wide;
        let z = (self.start + low.at as usize) * wide;
        table_step(table, b.words, q, x * wide, y, z);
    }

    // Makes the table rows from `from` up to, and without, `to`. Compiled where it is called, so that a number for q goes down to the steps.
    #[inline(always)]
    pub fn table_rows(&self, table: &mut [u64], q: usize, from: usize, to: usize)
        requires { Legal (2 ^ self.now.factors.width) self.now.factors.b.columns table.old × (0 < from) × (from ≤ to) × (to ≤ 2 ^ self.now.width) × (q ≡ self.now.factors.b.plane) }
        ensures { (p : List ℕ) → Legal self.now.factors.a.rows self.now.factors.b.columns p → Words p → RanFor self.now.factors (matrix_of self.now.factors.b) (each from to (λ x. table_step self.now.start x ∷ [])) table.old p table.new p }
    {
        for x in from..to {
            self.step(table, q, x);
        }
    }

    // The same in a turn, where nothing is told beforehand.
    pub fn table_part(&self, table: &mut [u64], from: usize, to: usize)
        requires { Legal (2 ^ self.now.factors.width) self.now.factors.b.columns table.old × (0 < from) × (from ≤ to) × (to ≤ 2 ^ self.now.width) }
        ensures { (p : List ℕ) → Legal self.now.factors.a.rows self.now.factors.b.columns p → Words p → RanFor self.now.factors (matrix_of self.now.factors.b) (each from to (λ x. table_step self.now.start x ∷ [])) table.old p table.new p }
    {
        self.table_rows(table, self.factors.b.plane, from, to);
    }
}
