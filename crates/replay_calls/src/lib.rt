// The calls by number, each with its answer as numbers: what the program `replay` compares.
#![tactic(auto)]

ghost use Rattle.std.specs.Prelude.{◌≤◌, ◌≡◌, length};
ghost use Rattle.rules.specs.Piece.{piece};
ghost use Rattle.replay_calls.specs.Outcomes.{outcome, left};

mod answers;

// Makes a call by its number, in arrays that are lent to it as they are.
pub fn call(
    code: usize,
    part: u32,
    sizes: &[u32],
    deltas: &[u32],
    words: &[u32],
    bytes: &[u8],
    a: &mut [u64],
    b: &mut [u64],
    c: &mut [u32],
    d: &mut [u32],
    e: &mut [u32],
    work: &mut [u64],
    said: &mut [u64],
)
    requires { 8 ≤ length said.old }
    ensures { left said.new a.new b.new c.new d.new e.new work.new
        ≡ outcome code part (piece sizes.now deltas.now words.now) bytes.now
        (left said.old a.old b.old c.old d.old e.old work.old) }
{
    // Kept: calls go by the replayed text's numbers, and each other number up to 99 has a meaning too: it is no call's.
    match code {
        1 => answers::head(sizes, deltas, words, said),
        2 => answers::part_count(sizes, deltas, words, said),
        3 => answers::part_head(sizes, deltas, words, part, said),
        4 => answers::bars(sizes, deltas, words, a, b, said),
        5 => answers::staff_size(sizes, deltas, words, part, work, said),
        6 => answers::engrave(sizes, deltas, words, part, c, d, a, e, work, said),
        7 => answers::automation(sizes, deltas, words, part, a, c, said),
        8 => answers::diagnostics(sizes, deltas, words, a, b, work, said),
        11 => answers::proof_read(sizes, deltas, words, part, c, d, a, work, said),
        _ => replay_file_calls::call(code, bytes, c, d, e, said),
    }
}
