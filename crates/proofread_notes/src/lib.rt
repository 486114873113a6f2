// The proof-reader's half that knows a part's notes: a played-back chord is held against the notes of its start.
//
// The work area is columns of n words, n at least the number m of notes. Word i of column c is work[c * n + i]:
//    0    a raw note's end and channel, end * 16 + channel
//    1    its start and key, start * 128 + key
//    2    1 if a chord of its snapped start has its key, else 0
// The notes are in order of their starts, so those of one snapped start stand together.
#![tactic(auto)]

ghost use Rattle.std.specs.Prelude.{◌+◌, ◌*◌, ◌^◌, ◌≤◌, ◌<◌, not, ◌||◌, ◌≡◌, eqb, ltb, length};
ghost use Rattle.rules.specs.Grid.{snap};
ghost use Rattle.rules.specs.ProofReaderTests.{has_key?};
ghost use Rattle.proofread_notes.specs.Columns.{snap_at, Readable, Before, Skipped, Cleared, all_found?};
ghost use Rattle.proofread_notes.specs.Chords.{covers?, keys_fit?, WithNote, Took, Scanned, Checks};

// A played-back chord: bit k of the low word is for key k, of the high word for key 64 + k.
#[derive(Clone, Copy)]
pub struct Chord {
    pub start: u64,
    pub end: u64,
    pub low: u64,
    pub high: u64,
    pub unpitched: bool,
}

// What is known of the notes of a start: their keys, and whether one of them ends where the chord does.
#[derive(Clone, Copy)]
pub struct Group {
    pub low: u64,
    pub high: u64,
    pub ended: bool,
}

// Snapping to the grid.
fn snap_to(g: u64, t: u64) -> u64
    requires { (0 < g) × (g ≤ 65535) × (t ≤ 2 ^ 47) }
    ensures { (result ≡ snap g t) × (result ≤ 2 ^ 48) }
{
    (t + g / 2) / g * g
}

// Note i's snapped start.
fn start_of(work: &[u64], n: usize, m: usize, g: u64, i: usize) -> u64
    requires { Readable g n m work.now × (i < m) }
    ensures { (result ≡ (snap_at g n work.now i).start) × (result ≤ 2 ^ 48) }
{
    snap_to(g, work[n + i] / 128)
}

// Note i's snapped end: at least a step of the grid behind its snapped start.
fn end_of(work: &[u64], n: usize, m: usize, g: u64, i: usize) -> u64
    requires { Readable g n m work.now × (i < m) }
    ensures { result ≡ (snap_at g n work.now i).end }
{
    let least = start_of(work, n, m, g, i) + g;
    snap_to(g, work[i] / 16).max(least)
}

// Whether two words of keys have a key.
fn has_key(low: u64, high: u64, key: u64) -> bool
    requires { key < 128 }
    ensures { result ≡ has_key? key (low + high * 2 ^ 64) }
{
    if key < 64 {
        (low >> key) % 2 == 1
    } else {
        (high >> (key - 64)) % 2 == 1
    }
}

// The group with one note more, of this key; `ends` says whether it ends where the chord does.
fn with_note(x: Group, key: u64, ends: bool) -> Group
    requires { key < 128 }
    ensures { WithNote x key ends result }
{
    let ended = x.ended || ends;
    if key < 64 {
        return Group {
            low: x.low | 1 << key,
            high: x.high,
            ended,
        };
    }
    Group {
        low: x.low,
        high: x.high | 1 << (key - 64),
        ended,
    }
}

// Note i, one of the chord's start, is taken into the group; it is marked where the chord has its key.
fn take_note(work: &mut [u64], n: usize, m: usize, g: u64, i: usize, c: Chord, x: Group) -> Group
    requires { Readable g n m work.old × (i < m) }
    ensures { Took g n i c x work.old work.new result }
{
    let key = work[n + i] % 128;
    let end = end_of(work, n, m, g, i);
    let r = with_note(x, key, end == c.end);
    if has_key(c.low, c.high, key) {
        work[2 * n + i] = 1;
        return r;
    }
    r
}

// The first note, of those from `from` on, that does not start before the tick.
fn skip(work: &[u64], n: usize, m: usize, g: u64, from: usize, start: u64) -> usize
    requires { Readable g n m work.now × (from ≤ m) × Before g n work.now from start }
    ensures { Skipped g n m work.now start result }
{
    for i in from..m {
        if start <= start_of(work, n, m, g, i) {
            return i;
        }
    }
    m
}

// Takes all notes of the chord's start.
fn scan(work: &mut [u64], n: usize, m: usize, g: u64, from: usize, c: Chord) -> Group
    requires { Readable g n m work.old × Skipped g n m work.old c.start from }
    ensures { Scanned g n m c work.old work.new result }
{
    let mut x = Group {
        low: 0,
        high: 0,
        ended: false,
    };
    for i in from..m {
        if start_of(work, n, m, g, i) != c.start {
            return x;
        }
        x = take_note(work, n, m, g, i, c, x);
    }
    x
}

// Whether the second word has all keys of the first.
fn covers(low: u64, all: u64) -> bool
    ensures { result ≡ covers? low all }
{
    low | all == all
}

// Whether each key of the chord is that of a note of its start, one before the last bar's end.
fn keys_meant(c: Chord, x: Group, e: u64) -> bool
    ensures { result ≡ keys_fit? c x e }
{
    if c.start < e {
        return covers(c.low, x.low) && covers(c.high, x.high);
    }
    c.low == 0 && c.high == 0
}

// Whether the chord ends with a note of its start, at the next chord or at the last bar's end.
fn end_meant(c: Chord, x: Group, next: u64, e: u64) -> bool
    ensures { result ≡ (x.ended || eqb c.end next || eqb c.end e) }
{
    x.ended || c.end == next || c.end == e
}

// Holds a chord against the notes: its keys are theirs, and it ends with one of them, at its voice's next chord, or at the last bar's end.
// The answer is the first note that does not start before it, an Err where it is not right. The notes whose keys it has are marked.
pub fn check_chord(
    work: &mut [u64],
    n: usize,
    m: usize,
    g: u64,
    e: u64,
    from: usize,
    c: Chord,
    next: u64,
) -> Result<usize, usize>
    requires { Readable g n m work.old × (from ≤ m) × Before g n work.old from c.start }
    ensures { Checks g n m e c next work.old work.new result }
{
    let at = skip(work, n, m, g, from, c.start);
    let x = scan(work, n, m, g, at, c);
    if keys_meant(c, x, e) && end_meant(c, x, next, e) {
        Ok(at)
    } else {
        Err(at)
    }
}

// No note is marked.
pub fn clear_marks(work: &mut [u64], n: usize, m: usize)
    requires { (m ≤ n) × (16 * n ≤ length work.old) }
    ensures { Cleared n m work.old work.new }
{
    work[2 * n..2 * n + m].fill(0);
}

// Whether a note of this start and mark is marked, or not before the last bar's end.
fn found(start: u64, mark: u64, e: u64) -> bool
    ensures { result ≡ (not (ltb start e) || eqb mark 1) }
{
    e <= start || mark == 1
}

// Whether each note that starts before the last bar's end is marked.
pub fn all_found(work: &[u64], n: usize, m: usize, g: u64, e: u64) -> bool
    requires { Readable g n m work.now }
    ensures { result ≡ all_found? g n m e work.now }
{
    for i in 0..m {
        if !found(start_of(work, n, m, g, i), work[2 * n + i], e) {
            return false;
        }
    }
    true
}
