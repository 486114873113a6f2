// The calls on a file by number, each with its answer as numbers: what the program `replay` compares on files.
#![tactic(auto)]

ghost use Rattle.std.specs.Prelude.{◌≤◌, ◌≡◌, length};
ghost use Rattle.files.specs.Answers.{piece_answer};
ghost use Rattle.replay_answers.specs.Numbers.{saying};
ghost use Rattle.replay_file_calls.specs.Outcomes.{piece_numbers, outcome, left};

use basics::Refusal;
use files::PieceSize;
use replay_answers::{say_refused, say_two};

// How many sizes and events, or the number.
fn say_piece(answer: Result<PieceSize, Refusal>, said: &mut [u64])
    requires { 8 ≤ length said.old }
    ensures { said.new ≡ saying piece_numbers said.old (piece_answer answer) }
{
    match answer {
        Err(refusal) => say_refused(u32::from(refusal), said),
        Ok(size) => say_two(size.sizes as u64, size.events as u64, said),
    }
}

// Makes a call by its number, in arrays that are lent to it as they are.
pub fn call(
    code: usize,
    bytes: &[u8],
    sizes: &mut [u32],
    deltas: &mut [u32],
    words: &mut [u32],
    said: &mut [u64],
)
    requires { 8 ≤ length said.old }
    ensures { left said.new sizes.new deltas.new words.new
        ≡ outcome code bytes.now (left said.old sizes.old deltas.old words.old) }
{
    // Kept: numbers, as in replay_calls.
    match code {
        9 => say_piece(files::read_size(bytes), said),
        10 => say_piece(files::read(bytes, sizes, deltas, words), said),
        _ => {}
    }
}
