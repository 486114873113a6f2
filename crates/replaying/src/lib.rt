// A list of a reference's answers, held against the calls: its pieces and files one after another, each with its calls, counted to the end, with a line
// for each disagreement.
#![tactic(auto)]

ghost use Rattle.std.specs.Prelude.{◌≤◌, ◌≡◌, None, length, take};
ghost use Rattle.rules.specs.Piece.{piece};
ghost use Rattle.replay_text.specs.Numbers.{list_at, most_narrow, most_byte};
ghost use Rattle.replaying.specs.Running.{more, call_turn, calls_at, most_sizes, most_events, most_bytes, events_at, other_than, piece_at};
ghost use Rattle.replaying.specs.Running.{Front, Gave, piece_turn, pieces_at, one_more, finished, replay_of};

use replay_one::Compared;
use replay_text::{Cursor, Fault, Listed, Numbered};

// The state of a run: the place in the text, and how many pieces, calls and disagreements there were.
#[derive(Clone, Copy)]
pub struct Run {
    pub next: Cursor,
    pub pieces: u64,
    pub calls: u64,
    pub wrong: u64,
}

// A count that stops where no list reaches.
fn more_of(n: u64, k: u64) -> u64
    requires { k ≤ 7 }
    ensures { result ≡ more n k }
{
    if n < 1000000000000 {
        return n + k;
    }
    n
}

// The number of the last piece that was read, or 0.
fn last(s: Run) -> u64 {
    s.pieces.saturating_sub(1)
}

// The lines of a call that disagrees.
fn tell(text: &[u8], s: Run, index: u64, wrong: u64, r: Compared) {
    if wrong != 0 {
        let q = replay_text::next_call(text, s.next);
        replay_lines::differences(last(s), index, q.code, r);
    }
}

// One call more, at an index of the piece's calls.
fn turn(
    text: &[u8],
    s: Run,
    index: u64,
    sizes: &[u32],
    deltas: &[u32],
    words: &[u32],
    bytes: &[u8],
    scratch: &mut [u64; 45056],
    a: &mut [u64; 45056],
    b: &mut [u64; 45056],
    c: &mut [u32; 45056],
    d: &mut [u32; 45056],
    e: &mut [u32; 45056],
    work: &mut [u64; 45056],
) -> Run
    requires { s.next.fault ≡ None }
    ensures { result ≡ call_turn text.now (piece sizes.now deltas.now words.now) bytes.now s }
{
    let r = replay_one::one(
        text, s.next, sizes, deltas, words, bytes, scratch, a, b, c, d, e, work,
    );
    let next = r.next;
    let wrong = replay_one::count_wrong(r);
    tell(text, s, index, wrong, r);
    Run {
        next,
        pieces: s.pieces,
        calls: more_of(s.calls, 1),
        wrong: more_of(s.wrong, wrong),
    }
}

// The calls of a piece.
fn each_call(
    text: &[u8],
    from: Run,
    sizes: &[u32],
    deltas: &[u32],
    words: &[u32],
    bytes: &[u8],
    scratch: &mut [u64; 45056],
    a: &mut [u64; 45056],
    b: &mut [u64; 45056],
    c: &mut [u32; 45056],
    d: &mut [u32; 45056],
    e: &mut [u32; 45056],
    work: &mut [u64; 45056],
) -> Run
    ensures { result ≡ calls_at text.now (piece sizes.now deltas.now words.now) bytes.now from }
{
    let n = replay_text::number(text, from.next, true);
    let count = n.value;
    let next = n.next;
    let mut s = Run {
        next,
        pieces: from.pieces,
        calls: from.calls,
        wrong: from.wrong,
    };
    for i in 0..count {
        if s.next.fault.is_some() {
            break;
        }
        s = turn(
            text, s, i, sizes, deltas, words, bytes, scratch, a, b, c, d, e, work,
        );
    }
    s
}

// A piece or file that was read to the fronts of arrays: 1 where its number is another than is due, the length of each array, and the place behind it.
#[derive(Clone, Copy)]
struct Given {
    other: u64,
    sizes: usize,
    deltas: usize,
    words: usize,
    bytes: usize,
    next: Cursor,
}

// A list of events; where zeros is not 0, so many zeros stand for it.
fn events(text: &[u8], p: Cursor, zeros: usize, l: &mut [u32]) -> Listed
    requires { (length l.old ≡ most_events) × (zeros ≤ most_events) }
    ensures { Front (events_at text.now zeros p) result l.new }
{
    let n = replay_text::list(text, p, l);
    if zeros == 0 {
        return n;
    }
    replayed::clear_front(l, zeros);
    let next = n.next;
    Listed { count: zeros, next }
}

// A piece's sizes.
fn read_sizes(text: &[u8], p: Cursor, l: &mut [u32]) -> Listed
    requires { length l.old ≡ most_sizes }
    ensures { Front (list_at most_narrow text.now most_sizes p) result l.new }
{
    replay_text::list(text, p, l)
}

// A file's bytes.
fn read_bytes(text: &[u8], p: Cursor, l: &mut [u8]) -> Listed
    requires { length l.old ≡ most_bytes }
    ensures { Front (list_at most_byte text.now most_bytes p) result l.new }
{
    replay_text::list(text, p, l)
}

// 1 where a number was read and is another than is due, with a line.
fn misnumbered(n: Numbered, due: u64) -> u64
    ensures is { result ≡ other_than due n }
    ensures few { result ≤ 1 }
{
    if n.next.fault.is_some() {
        return 0;
    }
    if n.value == due {
        return 0;
    }
    replay_lines::another(due);
    1
}

// Reads a piece, whose number is due.
fn read_piece(
    text: &[u8],
    p: Cursor,
    due: u64,
    sizes: &mut [u32; 4096],
    deltas: &mut [u32; 500008],
    words: &mut [u32; 500008],
    bytes: &mut [u8; 8192],
) -> Given
    ensures is { Gave (piece_at text.now due p) result sizes.new deltas.new words.new bytes.new }
    ensures few { result.other ≤ 1 }
{
    let number = replay_text::number(text, p, true);
    let other = misnumbered(number, due);
    let zeros = replay_text::bounded(text, number.next, true, 500008, Fault::Long);
    let count = zeros.value as usize;
    let s = read_sizes(text, zeros.next, sizes);
    let d = events(text, s.next, count, deltas);
    let w = events(text, d.next, count, words);
    let b = read_bytes(text, w.next, bytes);
    let next = b.next;
    Given {
        other,
        sizes: s.count,
        deltas: d.count,
        words: w.count,
        bytes: b.count,
        next,
    }
}

// The calls of a piece that stands at the fronts of arrays.
fn calls_of(
    text: &[u8],
    from: Run,
    g: Given,
    sizes: &[u32],
    deltas: &[u32],
    words: &[u32],
    bytes: &[u8],
    scratch: &mut [u64; 45056],
    a: &mut [u64; 45056],
    b: &mut [u64; 45056],
    c: &mut [u32; 45056],
    d: &mut [u32; 45056],
    e: &mut [u32; 45056],
    work: &mut [u64; 45056],
) -> Run
    requires { (g.sizes ≤ length sizes.now) × (g.deltas ≤ length deltas.now) × (g.words ≤ length words.now) × (g.bytes ≤ length bytes.now) }
    ensures { result ≡ calls_at text.now
        (piece (take g.sizes sizes.now) (take g.deltas deltas.now) (take g.words words.now))
        (take g.bytes bytes.now) from }
{
    let ls = g.sizes;
    let ld = g.deltas;
    let lw = g.words;
    let lb = g.bytes;
    each_call(
        text,
        from,
        &sizes[..ls],
        &deltas[..ld],
        &words[..lw],
        &bytes[..lb],
        scratch,
        a,
        b,
        c,
        d,
        e,
        work,
    )
}

// One piece more.
fn next_piece(
    text: &[u8],
    s: Run,
    sizes: &mut [u32; 4096],
    deltas: &mut [u32; 500008],
    words: &mut [u32; 500008],
    bytes: &mut [u8; 8192],
    scratch: &mut [u64; 45056],
    a: &mut [u64; 45056],
    b: &mut [u64; 45056],
    c: &mut [u32; 45056],
    d: &mut [u32; 45056],
    e: &mut [u32; 45056],
    work: &mut [u64; 45056],
) -> Run
    requires { s.next.fault ≡ None }
    ensures { result ≡ piece_turn text.now s }
{
    let g = read_piece(text, s.next, s.pieces, sizes, deltas, words, bytes);
    let next = g.next;
    let from = Run {
        next,
        pieces: more_of(s.pieces, 1),
        calls: s.calls,
        wrong: more_of(s.wrong, g.other),
    };
    calls_of(
        text, from, g, sizes, deltas, words, bytes, scratch, a, b, c, d, e, work,
    )
}

// All pieces.
fn each_piece(
    text: &[u8],
    sizes: &mut [u32; 4096],
    deltas: &mut [u32; 500008],
    words: &mut [u32; 500008],
    bytes: &mut [u8; 8192],
    scratch: &mut [u64; 45056],
    a: &mut [u64; 45056],
    b: &mut [u64; 45056],
    c: &mut [u32; 45056],
    d: &mut [u32; 45056],
    e: &mut [u32; 45056],
    work: &mut [u64; 45056],
) -> Run
    ensures { result ≡ pieces_at text.now }
{
    let n = replay_text::number(text, Cursor { at: 0, fault: None }, true);
    let count = n.value;
    let next = n.next;
    let mut s = Run {
        next,
        pieces: 0,
        calls: 0,
        wrong: 0,
    };
    for _ in 0..count {
        if s.next.fault.is_some() {
            break;
        }
        s = next_piece(
            text, s, sizes, deltas, words, bytes, scratch, a, b, c, d, e, work,
        );
    }
    s
}

// One disagreement more.
fn one_more(s: Run) -> Run
    ensures { result ≡ one_more s }
{
    let next = s.next;
    Run {
        next,
        pieces: s.pieces,
        calls: s.calls,
        wrong: more_of(s.wrong, 1),
    }
}

// What stands at the end: one disagreement more, with a line, for a fault, and for a number behind the last piece.
#[tactic(auto, unfolding(crate::specs::Running::finished))]
fn finish(text: &[u8], s: Run) -> Run
    ensures { result ≡ finished text.now s }
{
    if let Some(why) = s.next.fault {
        replay_lines::fault(last(s), why);
        return one_more(s);
    }
    let n = replay_text::number(text, s.next, true);
    if let Some(Fault::Ends) = n.next.fault {
        return s;
    }
    replay_lines::more(last(s));
    one_more(s)
}

// The whole list: how many pieces, calls and disagreements it has.
pub fn replay(
    text: &[u8],
    sizes: &mut [u32; 4096],
    deltas: &mut [u32; 500008],
    words: &mut [u32; 500008],
    bytes: &mut [u8; 8192],
    scratch: &mut [u64; 45056],
    a: &mut [u64; 45056],
    b: &mut [u64; 45056],
    c: &mut [u32; 45056],
    d: &mut [u32; 45056],
    e: &mut [u32; 45056],
    work: &mut [u64; 45056],
) -> Run
    ensures { result ≡ replay_of text.now }
{
    finish(
        text,
        each_piece(
            text, sizes, deltas, words, bytes, scratch, a, b, c, d, e, work,
        ),
    )
}
