// The piece of standard input, read chunk by chunk into lent arrays.
#![tactic(auto)]

ghost use Rattle.piece_input.specs.Input.{SoFar, ReadText, reader_of};

use piece_text::{Counts, Reader};

// Standard input.
const STDIN: i32 = 0;

// A turn: what was read so far, where there may be more, or all of it.
#[derive(Drop)]
enum Turn {
    More(Reader),
    End(Reader),
}

// Reads until a buffer is full, or to the end.
fn read_some(reader: Reader, sizes: &mut [u32], deltas: &mut [u32], words: &mut [u32]) -> Turn
    requires { SoFar reader sizes.old deltas.old words.old }
    ensures { SoFar (reader_of result) sizes.new deltas.new words.new }
{
    let mut buf = io::large_buffer();
    let n = io::read_full(STDIN, &mut buf);
    if n == 0 {
        return Turn::End(reader);
    }
    Turn::More(piece_text::read_bytes(reader, &buf[..n], sizes, deltas, words))
}

// Reads to the end, in more turns than any run uses up.
fn read_all(sizes: &mut [u32], deltas: &mut [u32], words: &mut [u32]) -> Reader
    ensures { SoFar result sizes.new deltas.new words.new }
{
    let mut reader = piece_text::start();
    for _ in 0..u64::MAX {
        match read_some(reader, sizes, deltas, words) {
            Turn::More(next) => reader = next,
            Turn::End(last) => return last,
        }
    }
    reader
}

// What standard input is, its numbers in the arrays.
pub fn read_input(sizes: &mut [u32], deltas: &mut [u32], words: &mut [u32]) -> Option<Counts>
    ensures { ReadText result sizes.new deltas.new words.new }
{
    let reader = read_all(sizes, deltas, words);
    piece_text::finish(reader, sizes, deltas, words)
}
