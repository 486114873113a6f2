// Section 7: one voice in one bar. Its chords stand in the work area; those that sound in the bar are written as items, with rests for the gaps;
// what their values leave of the bar adds up.
#![tactic(auto)]

ghost use Rattle.std.specs.Prelude.{◌+◌, ◌-◌, ◌*◌, ◌<◌, ◌≤◌, max, ◌&&◌, ◌≡◌, ltb, eqb, length};
ghost use Rattle.chords.specs.Columns as columns;
ghost use Rattle.voices.specs.Placing.{number_at};
ghost use Rattle.items.specs.Writing.{quarter, IsTable, Room, Pushed, start_at, Sounding};
ghost use Rattle.bar_voice.specs.Voices.{voice_of, VoiceHeld, chord_of, Past, Skipped, filled_from, voice_from, gap_and_chord};
ghost use Rattle.bar_voice.specs.Voices.{filled_left_from, voice_left_from, gap_and_chord_left};

use chords::VoiceChord;
use items::Measure;
use values::Split;

// ---- the walk along a voice

// Chord j of voice v.
fn voice_chord(work: &[u64], n: usize, v: usize, j: usize) -> VoiceChord
    requires { (16 * n ≤ length work.now) × (v < 4) × (j < n) × (number_at n work.now v j < n) }
    ensures { columns.chord_of result ≡ columns.chord_at n work.now (number_at n work.now v j) }
{
    let i = work[(10 + v) * n + j] as usize;
    chords::chord_at(work, n, i)
}

// The first chord of voice v, from chord `next` on, that is not over at the tick.
pub fn skip_past(work: &[u64], n: usize, v: usize, len: usize, next: usize, tick: u64) -> usize
    requires { VoiceHeld n work.now v len × Past tick (voice_of n work.now v len) next }
    ensures { Skipped tick (voice_of n work.now v len) result }
{
    for j in next..len {
        let c = voice_chord(work, n, v, j);
        if tick < c.end {
            return j;
        }
    }
    len
}

// Whether chord `next` of voice v is there and starts before the tick.
fn sounds(work: &[u64], n: usize, v: usize, len: usize, next: usize, tick: u64) -> bool
    requires { VoiceHeld n work.now v len }
    ensures { result ≡ (ltb next (len) && ltb (chord_of (voice_of n work.now v len) next).start tick) }
{
    if len <= next {
        return false;
    }
    let c = voice_chord(work, n, v, next);
    c.start < tick
}

// ---- one voice in a bar

// Rests from the tick up to a chord, and the chord.
fn push_gap_and_chord(
    write: bool,
    values: &[u64; 18],
    bar: Measure,
    tick: u64,
    c: VoiceChord,
    heads: &mut [u32],
    keys: &mut [u64],
    from: Split,
) -> Split
    requires { IsTable values.now × Sounding bar (columns.chord_of c) × (tick ≤ max bar.start c.start) × (from.left ≤ tick)
        × Room write (length (gap_and_chord (quarter values.now) bar.start bar.end tick (columns.chord_of c))) from.at heads.old keys.old }
    ensures { Pushed write (gap_and_chord (quarter values.now) bar.start bar.end tick (columns.chord_of c))
        (gap_and_chord_left (quarter values.now) bar.start bar.end tick (columns.chord_of c)) from
        heads.old keys.old heads.new keys.new result }
{
    let gap = bar.start.max(c.start) - tick;
    let rests = items::push_rests(write, values, gap, heads, keys, from);
    items::push_chord(write, values, bar, c, heads, keys, rests)
}

// The chords of voice v from chord `next` on that sound in the bar, with rests for the gaps.
fn push_filled(
    write: bool,
    values: &[u64; 18],
    work: &[u64],
    n: usize,
    v: usize,
    len: usize,
    next: usize,
    bar: Measure,
    heads: &mut [u32],
    keys: &mut [u64],
    from: usize,
) -> Split
    requires { IsTable values.now × VoiceHeld n work.now v len × (bar.start < bar.end)
        × Skipped bar.start (voice_of n work.now v len) next
        × Room write (length (filled_from (quarter values.now) bar.start bar.end (voice_of n work.now v len))) from heads.old keys.old }
    ensures { Pushed write
        (filled_from (quarter values.now) bar.start bar.end (voice_of n work.now v len))
        (filled_left_from (quarter values.now) bar.start bar.end (voice_of n work.now v len)) (start_at from)
        heads.old keys.old heads.new keys.new result }
{
    let mut s = Split { at: from, left: 0 };
    let mut tick = bar.start;
    for j in next..len {
        let c = voice_chord(work, n, v, j);
        if bar.end <= c.start {
            return items::push_rests(write, values, bar.end - tick, heads, keys, s);
        }
        s = push_gap_and_chord(write, values, bar, tick, c, heads, keys, s);
        tick = bar.end.min(c.end);
    }
    items::push_rests(write, values, bar.end - tick, heads, keys, s)
}

// Voice v in the bar. Voices 1 to 3 with nothing sounding are empty; voice 0 gets rests.
pub fn push_voice(
    write: bool,
    values: &[u64; 18],
    work: &[u64],
    n: usize,
    v: usize,
    len: usize,
    next: usize,
    bar: Measure,
    heads: &mut [u32],
    keys: &mut [u64],
    from: usize,
) -> Split
    requires { IsTable values.now × VoiceHeld n work.now v len × (bar.start < bar.end)
        × Skipped bar.start (voice_of n work.now v len) next
        × Room write (length (voice_from (quarter values.now) (eqb v 0) bar.start bar.end (voice_of n work.now v len))) from heads.old keys.old }
    ensures { Pushed write
        (voice_from (quarter values.now) (eqb v 0) bar.start bar.end (voice_of n work.now v len))
        (voice_left_from (quarter values.now) (eqb v 0) bar.start bar.end (voice_of n work.now v len)) (start_at from)
        heads.old keys.old heads.new keys.new result }
{
    if v == 0 || sounds(work, n, v, len, next, bar.end) {
        return push_filled(write, values, work, n, v, len, next, bar, heads, keys, from);
    }
    Split { at: from, left: 0 }
}
