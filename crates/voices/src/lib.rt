// A part's chords spread over four voices, in one lent work area, whose columns the crate chords lays out.
#![tactic(auto)]

ghost use Rattle.std.specs.Prelude.{ℕ, ◌+◌, ◌-◌, ◌*◌, ◌^◌, ◌≤◌, ◌<◌, List, ◌≡◌, leb, eqb, nat_lt, length, get_or};
ghost use Rattle.std.specs.List.{position, IsFirstBest};
ghost use Rattle.rules.specs.Lists.{All};
ghost use Rattle.rules.specs.Piece.{largest_size};
ghost use Rattle.rules.specs.RawNotes.{RawNote};
ghost use Rattle.rules.specs.Voices.{Chord, Voice, choose, voices};
ghost use Rattle.laws.specs.NoteWords.{NotesIn, InRange};
ghost use Rattle.chords.specs.Columns.{chord_at, keys_of};
ghost use Rattle.chords.specs.Steps.{Stored};
ghost use Rattle.voices.specs.Placing.{lasts_of, as_choice, Known, number_at, Next, Pushed, with_keys, ending_at, Placed, Spread};
ghost use Rattle.voices.specs.VoicesIn.{VoicesIn, Held};

use chords::VoiceChord;

// How many chords each voice has.
#[derive(Drop)]
pub struct Voices {
    pub lens: [usize; 4],
}

// What becomes of a chord, with the voice's number: the voice is free for it, its last chord takes the keys, or it is cut for it.
#[derive(Clone, Copy)]
pub enum Choice {
    Free(usize),
    Together(usize),
    Cut(usize),
}

// ---- choosing

// The first voice that ends at start or before.
fn first_free(ends: &[u64; 4], start: u64) -> Option<usize>
    ensures { result ≡ position (λ (e : ℕ). leb e start) ends.now }
{
    ends.iter().position(|end| *end <= start)
}

// The first voice whose last chord has the start.
fn first_together(starts: &[u64; 4], start: u64) -> Option<usize>
    ensures { result ≡ position (λ (s : ℕ). eqb s start) starts.now }
{
    starts.iter().position(|other| *other == start)
}

// The voice that ends earliest, the lowest of several.
fn earliest(ends: &[u64; 4]) -> usize
    ensures { IsFirstBest nat_lt ends.now 4 result }
{
    let mut best = 0;
    for v in 1..4 {
        if ends[v] < ends[best] {
            best = v;
        }
    }
    best
}

// Chooses what becomes of a chord of this start.
fn choose(starts: &[u64; 4], ends: &[u64; 4], start: u64) -> Choice
    ensures { (c : Chord) (vs : List Voice) (lens : List ℕ)
        → c.start ≡ start
        → Known (lasts_of starts.now ends.now lens) vs
        → as_choice result ≡ choose c vs }
{
    if let Some(v) = first_free(ends, start) {
        return Choice::Free(v);
    }
    if let Some(v) = first_together(starts, start) {
        return Choice::Together(v);
    }
    Choice::Cut(earliest(ends))
}

// ---- placing

// The number of the last chord of voice v.
#[tactic(auto, using(crate::proofs::Cells::column_end))]
fn last_of(work: &[u64], n: usize, lens: &[usize; 4], v: usize) -> usize
    requires { (v < 4) × (16 * n ≤ length work.now) × (0 < get_or lens.now v 0) × (get_or lens.now v 0 ≤ n) }
    ensures { result ≡ number_at n work.now v (get_or lens.now v 0 - 1) }
{
    let len = lens[v];
    work[(10 + v) * n + (len - 1)] as usize
}

// Chord k, from start to end, is the next of voice v.
#[tactic(auto, using(crate::proofs::Cells::column_end))]
fn push(
    work: &mut [u64],
    n: usize,
    k: usize,
    starts: &mut [u64; 4],
    ends: &mut [u64; 4],
    lens: &mut [usize; 4],
    v: usize,
    start: u64,
    end: u64,
)
    requires { (v < 4) × (16 * n ≤ length work.old) × (get_or lens.old v 0 < n) }
    ensures { Pushed n k v start end
        (lasts_of starts.old ends.old lens.old)
        (lasts_of starts.new ends.new lens.new)
        work.old work.new }
{
    let len = lens[v];
    work[(10 + v) * n + len] = k as u64;
    starts[v] = start;
    ends[v] = end;
    lens[v] = len + 1;
}

// The chord at place i takes the keys of c, and not its mark.
fn give_keys(work: &mut [u64], n: usize, i: usize, c: VoiceChord)
    requires { (16 * n ≤ length work.old) × (i < n) }
    ensures { Stored n i (with_keys (keys_of c.keys) (chord_at n work.old i)) work.old work.new }
{
    let last = chords::chord_at(work, n, i);
    let own = last.keys;
    let more = c.keys;
    let keys = chords::all_keys(own, more);
    let d = VoiceChord {
        start: last.start,
        end: last.end,
        keys,
        unpitched: last.unpitched,
    };
    chords::put_chord(work, n, i, d);
}

// The chord at place i is cut to end at the tick.
fn cut_chord(work: &mut [u64], n: usize, i: usize, end: u64)
    requires { (16 * n ≤ length work.old) × (i < n) }
    ensures { Stored n i (ending_at end (chord_at n work.old i)) work.old work.new }
{
    let c = chords::chord_at(work, n, i);
    let keys = c.keys;
    let d = VoiceChord {
        start: c.start,
        end,
        keys,
        unpitched: c.unpitched,
    };
    chords::put_chord(work, n, i, d);
}

// Places chord k: in a free voice, as keys of a chord that starts together with it, or in the voice that is cut for it.
// The arrays have each voice's last start and end, both 0 while it is empty, and how many chords it has. They are written in place,
// since a copy right after a store is slow.
fn place_chord(
    work: &mut [u64],
    n: usize,
    k: usize,
    starts: &mut [u64; 4],
    ends: &mut [u64; 4],
    lens: &mut [usize; 4],
)
    requires { Next n k (lasts_of starts.old ends.old lens.old) work.old }
    ensures { Placed n k
        (lasts_of starts.old ends.old lens.old)
        (lasts_of starts.new ends.new lens.new)
        work.old work.new }
{
    let c = chords::chord_at(work, n, k);
    match choose(starts, ends, c.start) {
        Choice::Free(v) => push(work, n, k, starts, ends, lens, v, c.start, c.end),
        Choice::Together(v) => {
            let i = last_of(work, n, lens, v);
            give_keys(work, n, i, c);
        }
        Choice::Cut(v) => {
            let i = last_of(work, n, lens, v);
            cut_chord(work, n, i, c.start);
            push(work, n, k, starts, ends, lens, v, c.start, c.end);
        }
    }
}

// Places the first m chords.
fn place_chords(work: &mut [u64], n: usize, m: usize) -> Voices
    requires { (16 * n ≤ length work.old) × (m ≤ n) }
    ensures { Spread n m result work.old work.new }
{
    let mut starts = [0u64; 4];
    let mut ends = [0u64; 4];
    let mut lens = [0usize; 4];
    for k in 0..m {
        place_chord(work, n, k, &mut starts, &mut ends, &mut lens);
    }
    Voices { lens }
}

// Spreads the notes that stand in columns 0 and 1, snapped to the grid g, over four voices of chords.
pub fn assign_voices(work: &mut [u64], n: usize, count: usize, g: u64) -> Voices
    requires { (16 * n ≤ length work.old) × (0 < g) × (g ≤ largest_size) × Held n count work.old }
    ensures { (ns : List RawNote) → NotesIn ns n count work.old → All (InRange (2 ^ 47)) ns
        → VoicesIn (voices g ns) n result work.new }
{
    chords::snap_notes(work, n, count, g);
    let m = chords::gather_chords(work, n, count);
    place_chords(work, n, m)
}
