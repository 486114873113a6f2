// The end of the piece, section 4's largest raw end of all parts, from one pass over each track that pairs nothing.
#![tactic(auto)]

ghost use Rattle.std.specs.Prelude.{◌+◌, ◌*◌, ◌≤◌, ◌<◌, true, ◌≡◌};
ghost use Rattle.rules.specs.Piece.{piece, well_formed};
ghost use Rattle.rules.specs.Lists.{sum};
ghost use Rattle.rules.specs.RawNotes.{most_parts};
ghost use Rattle.rules.specs.Bars.{end_of_piece};
ghost use Rattle.rules.specs.Refusals.{most_events, largest_delta};
ghost use Rattle.laws.specs.Admitted.{Admitted};
ghost use Rattle.track_events.specs.Track.{Track, events_of};
ghost use Rattle.ends.specs.Pass.{track_end, reached, no_counts, begin, finish, step, end_of, Within};
ghost use Rattle.ends.specs.Sofar.{taken};

use admission::total;
use basics::MOST_PARTS;
use track_events::cut;
use tracks::has_notes;

// A pass over a track's events: the tick reached, the starts so far, how many of them an off has ended, and the largest end.
#[derive(Clone, Copy)]
struct Pass {
    tick: u64,
    started: u32,
    ended: u32,
    end: u64,
}

// A start at a tick: its note ends at the next tick or later.
fn begin(counts: &mut [[u32; 128]; 16], p: Pass, tick: u64, c: usize, k: usize) -> Pass
    requires { (c < 16) × (k < 128) × (tick ≤ 2 * (most_events * largest_delta)) × Within most_events (reached counts.old p) }
    ensures { reached counts.new result ≡ begin (reached counts.old p) tick c k }
{
    counts[c][k] += 1;
    Pass {
        tick,
        started: p.started + 1,
        end: p.end.max(tick + 1),
        ..p
    }
}

// An off at a tick. With nothing pending it makes no note.
fn finish(counts: &mut [[u32; 128]; 16], p: Pass, tick: u64, c: usize, k: usize) -> Pass
    requires { (c < 16) × (k < 128) × Within most_events (reached counts.old p) }
    ensures { reached counts.new result ≡ finish (reached counts.old p) tick c k }
{
    if counts[c][k] == 0 {
        return Pass { tick, ..p };
    }
    counts[c][k] -= 1;
    Pass {
        tick,
        ended: p.ended + 1,
        end: p.end.max(tick),
        ..p
    }
}

fn step(counts: &mut [[u32; 128]; 16], p: Pass, delta: u32, word: u32) -> Pass
    requires { (delta ≤ largest_delta) × (well_formed word ≡ true) × Within most_events (reached counts.old p) }
    ensures { reached counts.new result ≡ step (reached counts.old p) (p.tick + delta) word }
{
    let tick = p.tick + u64::from(delta);
    let w = track_events::take_apart(word);
    if track_events::is_on(word) {
        return begin(counts, p, tick, w.a as usize, w.b as usize);
    }
    if track_events::is_off(word) {
        return finish(counts, p, tick, w.a as usize, w.b as usize);
    }
    Pass { tick, ..p }
}

// All counts zero, as a track wants them.
fn clear(counts: &mut [[u32; 128]; 16])
    ensures { counts.new ≡ no_counts }
{
    *counts = [[0u32; 128]; 16];
}

// Starts still pending end at the last tick. Only they leave counts above zero.
fn end_of(counts: &mut [[u32; 128]; 16], p: Pass) -> u64
    requires { p.started ≤ p.ended → counts.old ≡ no_counts }
    ensures end { result ≡ end_of p }
    ensures cleared { counts.new ≡ no_counts }
{
    if p.ended < p.started {
        clear(counts);
        return p.end.max(p.tick);
    }
    p.end
}

// The largest end of a track's raw notes, 0 where it has none. The counts come all zero, and are so again afterwards.
fn end_of_track(counts: &mut [[u32; 128]; 16], deltas: &[u32], words: &[u32]) -> u64
    requires { (counts.old ≡ no_counts) × Track deltas.now words.now }
    ensures end { result ≡ track_end (events_of deltas.now words.now) }
    ensures cleared { counts.new ≡ no_counts }
{
    let mut p = Pass {
        tick: 0,
        started: 0,
        ended: 0,
        end: 0,
    };
    for i in 0..deltas.len() {
        p = step(counts, p, deltas[i], words[i]);
    }
    end_of(counts, p)
}

// The parts so far, and the largest end of their notes.
#[derive(Clone, Copy)]
struct Sofar {
    parts: usize,
    end: u64,
}

// One track more, which ends at e: it is no part where it has no notes.
fn taken(s: Sofar, e: u64) -> Sofar
    requires { s.parts < most_parts }
    ensures { result ≡ taken s e }
{
    if e == 0 {
        return s;
    }
    Sofar {
        parts: s.parts + 1,
        end: s.end.max(e),
    }
}

// Whether no note starts at a track's last tick, so that none ends after it.
fn quiet_end(deltas: &[u32], words: &[u32]) -> bool
    requires { Track deltas.now words.now }
    ensures { result ≡ true → track_end (events_of deltas.now words.now) ≤ sum deltas.now }
{
    for i in (0..deltas.len()).rev() {
        if track_events::is_on(words[i]) {
            return false;
        }
        if 0 < deltas[i] {
            return true;
        }
    }
    true
}

// Whether it is soon seen that no note of a track ends after a tick.
fn covered(deltas: &[u32], words: &[u32], end: u64) -> bool
    requires { Track deltas.now words.now }
    ensures { result ≡ true → track_end (events_of deltas.now words.now) ≤ end }
{
    let last = total(deltas);
    if last < end {
        return true;
    }
    if last == end {
        return quiet_end(deltas, words);
    }
    false
}

// One track more: gone through only where a note of it may end later than all before.
fn with_track(counts: &mut [[u32; 128]; 16], s: Sofar, deltas: &[u32], words: &[u32]) -> Sofar
    requires { (counts.old ≡ no_counts) × (s.parts < most_parts) × Track deltas.now words.now }
    ensures taken { result ≡ taken s (track_end (events_of deltas.now words.now)) }
    ensures cleared { counts.new ≡ no_counts }
{
    if covered(deltas, words, s.end) {
        if has_notes(words) {
            return Sofar {
                parts: s.parts + 1,
                end: s.end,
            };
        }
        return s;
    }
    taken(s, end_of_track(counts, deltas, words))
}

// The largest raw end of all parts, the first 32 tracks that have notes. One array of counts serves every track.
pub fn end_of_piece(sizes: &[u32], deltas: &[u32], words: &[u32]) -> u64
    requires { Admitted (piece sizes.now deltas.now words.now) }
    ensures { result ≡ end_of_piece (piece sizes.now deltas.now words.now) }
{
    let mut counts = [[0u32; 128]; 16];
    let mut s = Sofar { parts: 0, end: 0 };
    let mut from = 0;
    for i in 2..sizes.len() {
        if s.parts == MOST_PARTS {
            return s.end;
        }
        let to = from + sizes[i] as usize;
        s = with_track(&mut counts, s, cut(deltas, from, to), cut(words, from, to));
        from = to;
    }
    s.end
}
