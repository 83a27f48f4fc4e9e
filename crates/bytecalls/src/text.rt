// What a host sees after a whole text is multiplied.
ghost use Rattle.bytecalls.specs.Text.{Told};

use texts::multiply::multiply;

pub fn seen_multiply(text: &[u8], out: &mut [u8]) -> usize
    ensures { Told text.now out.old result out.new }
{
    multiply(text, out)
}
