// A block of 64 words of 64 bits, transposed.
ghost use Rattle.blocks64.specs.Transpose.{Transposed};

use crate::exchange::exchange;

// Each stage exchanges one bit of a word's number with that of a place's number. The mask has the places where that bit is 0.
pub fn transpose(w: &mut [u64; 64])
    ensures { Transposed w.old w.new }
{
    exchange(w, 1, 32, 0x0000_0000_ffff_ffff);
    exchange(w, 2, 16, 0x0000_ffff_0000_ffff);
    exchange(w, 4, 8, 0x00ff_00ff_00ff_00ff);
    exchange(w, 8, 4, 0x0f0f_0f0f_0f0f_0f0f);
    exchange(w, 16, 2, 0x3333_3333_3333_3333);
    exchange(w, 32, 1, 0x5555_5555_5555_5555);
}
