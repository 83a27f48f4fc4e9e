// What a host sees after a tally: zeros, ones, twos, and 1 if the row is balanced, else 0.
ghost use Rattle.std.specs.Prelude.{cond, [], ◌∷◌};
ghost use Rattle.buffers.specs.Buffer.{cell};
ghost use Rattle.rows.specs.Tally.{columns_with};
ghost use Rattle.requests.specs.Exact.{Exact};
ghost use Rattle.matrix.specs.Check.{check_tests};
ghost use Rattle.matrix.specs.Tally.{balanced};

#[unsafe(no_mangle)]
pub extern "C" fn call_tally(columns: u64, a: &[u64], out: &mut [u64; 4]) -> u64
    ensures { Exact (check_tests (record { rows = 1; columns = columns }) a.now) (0 ∷ 0 ∷ 0 ∷ 0 ∷ []) (columns_with 0 (cell columns a.now 0) columns ∷ columns_with 1 (cell columns a.now 0) columns ∷ columns_with 2 (cell columns a.now 0) columns ∷ cond (balanced (cell columns a.now 0) columns) 1 0 ∷ []) result out.new }
{
    match matrix::tally::tally(columns, a) {
        Ok(tallied) => {
            let [zeros, ones, twos] = tallied.counts;
            *out = [zeros, ones, twos, u64::from(tallied.balanced)];
            0
        }
        Err(why) => {
            *out = [0; 4];
            u64::from(why)
        }
    }
}
