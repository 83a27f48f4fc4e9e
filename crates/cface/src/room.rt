// Words in room that a call lends: only as much of the room as a buffer of bytes asks for. There is no heap, so a call's room is an array as large as the
// limit allows.
ghost use Rattle.std.specs.Prelude.{◌≡◌, ◌*◌, length};
ghost use Rattle.wordbytes.specs.Bytes.{words_in};
ghost use Rattle.cface.specs.Room.{Room};

use wordbytes::bytes::words_in;

// The most words of a matrix: 64 rows, each a word of units and one of signs.
pub const MATRIX_WORDS: usize = 128;

// .. and of a table, which has up to 256 rows.
pub const TABLE_WORDS: usize = 512;

// As many words as the bytes hold, whatever stands in them.
pub fn room_for<'r>(bytes: &[u8], room: &'r mut [u64]) -> &'r mut [u64]
    requires { Room (length room.old) (length bytes.now) }
    ensures { length bytes.now ≡ 8 * length result.now }
{
    &mut room[..bytes.len() / 8]
}

// The words that the bytes hold.
pub fn words_of<'r>(bytes: &[u8], room: &'r mut [u64]) -> &'r mut [u64]
    requires { Room (length room.old) (length bytes.now) }
    ensures { (result.now ≡ words_in bytes.now) × (length bytes.now ≡ 8 * length result.now) }
{
    let words = room_for(bytes, room);
    words_in(bytes, words);
    words
}
