// Codes 4 and 5 of section 10: a track's offs without ons and its ons without offs, by the pairing that makes the raw notes.
#![tactic(auto)]

ghost use Rattle.std.specs.Prelude.{ℕ, ◌/◌, ◌%◌, List, ◌≡◌, length};
ghost use Rattle.rules.specs.RawNotes.{Pairing};
ghost use Rattle.rules.specs.Diagnostics.{unmatched_found};
ghost use Rattle.track_events.specs.Track.{events_of};
ghost use Rattle.findings.specs.Found.{off_at, on_at, FoundIn};
ghost use Rattle.unmatched.specs.Stages.{Pairs, Turn, Turned, Fresh, PairedAll, Waits, AllTaken, Emptied};

use findings::Diagnostic;
use pairing::{Paired, Unclosed};

// An off without on: its key is absent.
fn unmatched_off(track: u64, event: u64, tick: u64, channel: u64) -> Diagnostic
    ensures { result ≡ off_at track event tick channel }
{
    let key = 255;
    Diagnostic {
        code: 4,
        track,
        event,
        tick,
        channel,
        key,
    }
}

// An on without off, at its start.
fn unmatched_on(track: u64, u: Unclosed) -> Diagnostic
    ensures { result ≡ on_at track u.number u.tick (u.queue / 128) (u.queue % 128) }
{
    Diagnostic {
        code: 5,
        track,
        event: u.number,
        tick: u.tick,
        channel: (u.queue / 128) as u64,
        key: (u.queue % 128) as u64,
    }
}

// What was seen of a track: the tick reached, the starts that came, those that wait, and where the next diagnostic goes.
#[derive(Clone, Copy)]
struct Seen {
    tick: u64,
    starts: usize,
    waiting: usize,
    next: usize,
}

// One event: an off with nothing pending is put.
fn take_event(
    heads: &mut [[u32; 128]; 16],
    tails: &mut [[u32; 128]; 16],
    work: &mut [u64],
    n: usize,
    track: u64,
    s: Seen,
    tick: u64,
    i: usize,
    w: u32,
    places: &mut [u64],
    details: &mut [u64],
) -> Seen
    requires { Turn heads.old tails.old work.old n track s tick i w }
    ensures { (x : Pairing)
        → Pairs heads.old tails.old work.old n s.starts s.waiting x
        → Turned heads.new tails.new work.new n track x (record { number = i; tick = tick; word = w })
        places.old details.old s result places.new details.new }
{
    let m = s.starts;
    let waiting = s.waiting;
    let at = s.next;
    let mut seen = s;
    seen.tick = tick;
    let p = pairing::pair_event(heads, tails, work, n, m, tick, i as u64, w);
    match p {
        Paired::Other => seen,
        Paired::Started => {
            seen.starts = m + 1;
            seen.waiting = waiting + 1;
            seen
        }
        Paired::Closed(_) => {
            seen.waiting = waiting - 1;
            seen
        }
        Paired::Unmatched => {
            let channel = u64::from(track_events::byte_a(w));
            let d = unmatched_off(track, i as u64, tick, channel);
            seen.next = findings::put(places, details, at, d);
            seen
        }
    }
}

// Pairs the events of a track; its offs without ons are put.
// Kept beside raw_notes' loop: they share pairing::pair_event, and one loop for both needs a trait whose laws restate both contracts.
fn pair_track(
    deltas: &[u32],
    words: &[u32],
    heads: &mut [[u32; 128]; 16],
    tails: &mut [[u32; 128]; 16],
    work: &mut [u64],
    n: usize,
    track: u64,
    at: usize,
    places: &mut [u64],
    details: &mut [u64],
) -> Seen
    requires { Fresh heads.old tails.old work.old deltas.now words.now n track at }
    ensures { PairedAll heads.new tails.new work.new deltas.now words.now n track at
        places.old details.old result places.new details.new }
{
    let mut s = Seen {
        tick: 0,
        starts: 0,
        waiting: 0,
        next: at,
    };
    for (i, delta) in deltas.iter().enumerate() {
        let tick = s.tick + u64::from(*delta);
        s = take_event(
            heads, tails, work, n, track, s, tick, i, words[i], places, details,
        );
    }
    s
}

// The starts still pending, by channel, key, arrival: each is put, and the queues are empty after it.
fn take_all(
    heads: &mut [[u32; 128]; 16],
    work: &[u64],
    n: usize,
    waiting: usize,
    track: u64,
    at: usize,
    places: &mut [u64],
    details: &mut [u64],
) -> usize
    requires { Waits heads.old work.now n waiting track at }
    ensures { (t : List (List ℕ)) (m : ℕ) (x : Pairing)
        → Pairs heads.old t work.now n m waiting x
        → AllTaken heads.new track x at places.old details.old result places.new details.new }
{
    let mut next = at;
    let mut from = 0;
    for _ in 0..waiting {
        let u = pairing::take_pending(heads, work, n, from);
        from = u.queue;
        next = findings::put(places, details, next, unmatched_on(track, u));
    }
    next
}

// One track's offs without ons, then its ons without offs. It finds the queues empty and leaves them so.
pub fn unmatched_notes(
    deltas: &[u32],
    words: &[u32],
    heads: &mut [[u32; 128]; 16],
    tails: &mut [[u32; 128]; 16],
    work: &mut [u64],
    n: usize,
    track: u64,
    at: usize,
    places: &mut [u64],
    details: &mut [u64],
) -> usize
    requires { Fresh heads.old tails.old work.old deltas.now words.now n track at }
    ensures { Emptied heads.new tails.new
        × FoundIn (unmatched_found track (events_of deltas.now words.now)) (length deltas.now) at
        places.old details.old result places.new details.new }
{
    let s = pair_track(
        deltas, words, heads, tails, work, n, track, at, places, details,
    );
    take_all(heads, work, n, s.waiting, track, s.next, places, details)
}
