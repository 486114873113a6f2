// The raw notes of a track, in document 01's order.
//
// The work area is columns of n words. Notes are put, as they close, into column 2 (start * 128 + key) and column 3 (end * 16 + channel);
// pairing has columns 4 to 6. Their places are then sorted by start and key in column 0, with column 1 as room, and last the two
// words of each note are brought to columns 0 (end) and 1 (start), in order.
#![tactic(auto)]

ghost use Rattle.std.specs.Prelude.{ℕ, ◌+◌, ◌*◌, ◌≤◌, ◌<◌, ◌^◌, List, length, take};
ghost use Rattle.rules.specs.Lists.{All, keep};
ghost use Rattle.rules.specs.Piece.{Event, is_on};
ghost use Rattle.rules.specs.RawNotes.{Pairing};
ghost use Rattle.track_events.specs.Track.{Track, events_of};
ghost use Rattle.raw_notes.specs.Columns.{Noted};
ghost use Rattle.raw_notes.specs.Stages.{note_of, NotePut, Pairs, Turn, Turned, Fresh, PairedAll, Open, AllClosed, Gathered};

use pairing::Paired;

// What was seen of a track: the tick reached, the starts that came, the notes that closed.
#[derive(Clone, Copy)]
pub struct Seen {
    pub tick: u64,
    pub starts: usize,
    pub notes: usize,
}

// Puts the note of a start that ends at a tick, at least start + 1, behind r notes.
fn put_note(work: &mut [u64], n: usize, r: usize, start: u64, tick: u64, key: u64, channel: u64)
    requires { (r < n) × (16 * n ≤ length work.old) × (start < 2 ^ 47) × (tick < 2 ^ 47) × (key < 128) × (channel < 16) }
    ensures { NotePut work.old work.new n r (note_of start tick key channel) }
{
    let end = tick.max(start + 1);
    work[2 * n + r] = start * 128 + key;
    work[3 * n + r] = end * 16 + channel;
}

// One event: an off that closes a start puts a note.
fn take_event(
    heads: &mut [[u32; 128]; 16],
    tails: &mut [[u32; 128]; 16],
    work: &mut [u64],
    n: usize,
    s: Seen,
    tick: u64,
    i: usize,
    w: u32,
) -> Seen
    requires { Turn heads.old tails.old work.old n s.starts s.notes tick w }
    ensures { (x : Pairing)
        → Pairs heads.old tails.old work.old n s.starts s.notes x
        → Turned heads.new tails.new work.new n x (record { number = i; tick = tick; word = w }) s result }
{
    let m = s.starts;
    let r = s.notes;
    let mut next = s;
    next.tick = tick;
    let p = pairing::pair_event(heads, tails, work, n, m, tick, i as u64, w);
    match p {
        Paired::Other => next,
        Paired::Started => {
            next.starts = m + 1;
            next
        }
        Paired::Closed(start) => {
            let x = track_events::take_apart(w);
            put_note(work, n, r, start.tick, tick, u64::from(x.b), u64::from(x.a));
            next.notes = r + 1;
            next
        }
        Paired::Unmatched => next,
    }
}

// Pairs all events of a track. (Why it is not one with unmatched's, is said there.)
fn pair_track(
    deltas: &[u32],
    words: &[u32],
    heads: &mut [[u32; 128]; 16],
    tails: &mut [[u32; 128]; 16],
    work: &mut [u64],
    n: usize,
) -> Seen
    requires { Fresh heads.old tails.old work.old deltas.now words.now n }
    ensures { PairedAll heads.new tails.new work.new (events_of deltas.now words.now) n result }
{
    let mut s = Seen {
        tick: 0,
        starts: 0,
        notes: 0,
    };
    for (i, delta) in deltas.iter().enumerate() {
        let tick = s.tick + u64::from(*delta);
        s = take_event(heads, tails, work, n, s, tick, i, words[i]);
    }
    s
}

// Puts the notes of the m - notes starts still pending, by channel, key, arrival: they end at the last tick.
fn close_pending(
    heads: &mut [[u32; 128]; 16],
    work: &mut [u64],
    n: usize,
    m: usize,
    notes: usize,
    last: u64,
)
    requires { Open heads.old work.old n m notes last }
    ensures { (t : List (List ℕ)) (x : Pairing)
        → Pairs heads.old t work.old n m notes x
        → AllClosed heads.new work.new n m last x }
{
    let mut from = 0;
    for r in notes..m {
        let u = pairing::take_pending(heads, work, n, from);
        from = u.queue;
        put_note(
            work,
            n,
            r,
            u.tick,
            last,
            (from % 128) as u64,
            (from / 128) as u64,
        );
    }
}

// Brings the words of r notes to columns 0 and 1, by their places in column 0.
fn gather(work: &mut [u64], n: usize, r: usize)
    requires { (r ≤ n) × (16 * n ≤ length work.old) × All (λ p. p < n) (take r work.old) }
    ensures { Gathered work.old work.new n r }
{
    for i in 0..r {
        let p = work[i] as usize;
        work[i] = work[3 * n + p];
        work[n + i] = work[2 * n + p];
    }
}

// Writes the raw notes of a track to the work area's columns 0 and 1, and answers how many they are.
pub fn collect_raw_notes(deltas: &[u32], words: &[u32], work: &mut [u64], n: usize) -> usize
    requires { Track deltas.now words.now
        × (length (keep (λ (e : Event). is_on e.word) (events_of deltas.now words.now)) ≤ n)
        × (16 * n ≤ length work.old) }
    ensures { Noted (events_of deltas.now words.now) n result work.new }
{
    let mut heads = [[0u32; 128]; 16];
    let mut tails = [[0u32; 128]; 16];
    let s = pair_track(deltas, words, &mut heads, &mut tails, work, n);
    let count = s.starts;
    close_pending(&mut heads, work, n, count, s.notes, s.tick);
    sort::sort_places(work, count, 2 * n);
    gather(work, n, count);
    count
}
