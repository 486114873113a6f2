// Replays a stored list of a reference's answers against the calls: reads the list, has it compared, and writes how many pieces, calls and
// disagreements there are. docs/REPLAY.md has the form.
#![tactic(auto)]

use replay_text::Fault;
use replaying::Run;

// The descriptor of standard input.
const STDIN: i32 = 0;

// The list compared, in arrays of its own.
fn compare(text: &[u8]) -> Run {
    let mut sizes = [0u32; 4096];
    let mut deltas = [0u32; 500008];
    let mut words = [0u32; 500008];
    let mut bytes = [0u8; 8192];
    let mut scratch = [0u64; 45056];
    let mut a = [0u64; 45056];
    let mut b = [0u64; 45056];
    let mut c = [0u32; 45056];
    let mut d = [0u32; 45056];
    let mut e = [0u32; 45056];
    let mut work = [0u64; 45056];
    replaying::replay(
        text,
        &mut sizes,
        &mut deltas,
        &mut words,
        &mut bytes,
        &mut scratch,
        &mut a,
        &mut b,
        &mut c,
        &mut d,
        &mut e,
        &mut work,
    )
}

// The list of standard input. One that fills the room for it is not held whole.
fn replay(text: &mut [u8]) {
    let n = io::read_full(STDIN, text);
    if n == text.len() {
        replay_lines::fault(0, Fault::Long);
        replay_lines::total(0, 0, 1);
        return;
    }
    let r = compare(&text[..n]);
    replay_lines::total(r.pieces, r.calls, r.wrong);
}

fn main() {
    let mut text = [0u8; 2000000];
    replay(&mut text);
}
