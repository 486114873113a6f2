// Section 7, items: rests and the pieces of chords in a bar, written to lent outputs from a place on. Each function is told whether to
// write: where it is not, the items are counted, and no output changes. Each adds the ticks that no item took to those it is given.
#![tactic(auto)]

ghost use Rattle.std.specs.Prelude.{◌+◌, ◌-◌, ◌*◌, ◌<◌, ◌≤◌, ◌^◌, false, ◌&&◌, ◌≡◌, ltb, length, get_or};
ghost use Rattle.rules.specs.Staff.{rests, chord_in, rests_left, chord_left};
ghost use Rattle.chords.specs.Columns.{chord_of};
ghost use Rattle.items.specs.Putting.{put_at};
ghost use Rattle.items.specs.Writing.{quarter, IsTable, Room, Pushed, chord_ticks, pairs, span_items, SpanPut, untied, freed, BothTied, Sounding};

use chords::{Keys, VoiceChord};
use values::Split;

// A bar's start and end.
#[derive(Clone, Copy)]
pub struct Measure {
    pub start: u64,
    pub end: u64,
}

// ---- spans

// Writes the keys of the items from..to.
fn push_keys(keys: &mut [u64], from: usize, to: usize, low: u64, high: u64)
    requires { (from ≤ to) × (2 * to ≤ length keys.old) }
    ensures { keys.new ≡ put_at (pairs low high (to - from)) (2 * from) keys.old }
{
    for i in from..to {
        keys[2 * i] = low;
        keys[2 * i + 1] = high;
    }
}

// A span as items: its values, each with these bits and keys.
fn push_span(
    write: bool,
    values: &[u64; 18],
    ticks: u64,
    bits: u32,
    chord: Keys,
    heads: &mut [u32],
    keys: &mut [u64],
    from: Split,
) -> Split
    requires { IsTable values.now × (bits < 2 ^ 16) × (from.left + ticks < 2 ^ 64)
        × Room write (span_items (quarter values.now) ticks) from.at heads.old keys.old }
    ensures { SpanPut write (quarter values.now) ticks bits chord.low chord.high from
        heads.old keys.old heads.new keys.new result }
{
    if write {
        let split = values::split_span(values, ticks, heads, from.at, bits);
        push_keys(keys, from.at, split.at, chord.low, chord.high);
        return Split {
            at: split.at,
            left: from.left + split.left,
        };
    }
    let count = values::count_pieces(values, ticks);
    Split {
        at: from.at + count.pieces as usize,
        left: from.left + count.left,
    }
}

// ---- rests

// Rests for a gap.
pub fn push_rests(
    write: bool,
    values: &[u64; 18],
    ticks: u64,
    heads: &mut [u32],
    keys: &mut [u64],
    from: Split,
) -> Split
    requires { IsTable values.now × (from.left + ticks < 2 ^ 64)
        × Room write (length (rests (quarter values.now) ticks)) from.at heads.old keys.old }
    ensures { Pushed write (rests (quarter values.now) ticks) (rests_left (quarter values.now) ticks) from
        heads.old keys.old heads.new keys.new result }
{
    let no_keys = Keys { low: 0, high: 0 };
    push_span(write, values, ticks, 256, no_keys, heads, keys, from)
}

// ---- chords

// Takes a tie off the item at place i, unless it is tied there.
fn untie(heads: &mut [u32], i: usize, tied: bool, bit: u32)
    requires { (i < length heads.old) × (tied ≡ false → bit ≤ get_or heads.old i 0) }
    ensures { heads.new ≡ untied bit i tied heads.old }
{
    if tied {
        return;
    }
    heads[i] -= bit;
}

// Items from..to that are tied on both sides: the first loses its tie-in and the last its tie-out, unless they are tied so.
fn free_ends(write: bool, heads: &mut [u32], from: usize, to: usize, tie_in: bool, tie_out: bool)
    requires { BothTied (write && ltb from to) from to heads.old }
    ensures { heads.new ≡ freed write from to tie_in tie_out heads.old }
{
    if write && from < to {
        untie(heads, from, tie_in, 32);
        untie(heads, to - 1, tie_out, 64);
    }
}

// A chord that sounds in the bar: its pieces, tied. Tie-in: not the first piece, or the chord began before the bar. Tie-out: not
// the last piece, or the chord ends after the bar.
pub fn push_chord(
    write: bool,
    values: &[u64; 18],
    bar: Measure,
    c: VoiceChord,
    heads: &mut [u32],
    keys: &mut [u64],
    from: Split,
) -> Split
    requires { IsTable values.now × Sounding bar (chord_of c) × (from.left + chord_ticks bar (chord_of c) < 2 ^ 64)
        × Room write (length (chord_in (quarter values.now) bar.start bar.end (chord_of c))) from.at heads.old keys.old }
    ensures { Pushed write (chord_in (quarter values.now) bar.start bar.end (chord_of c))
        (chord_left (quarter values.now) bar.start bar.end (chord_of c)) from
        heads.old keys.old heads.new keys.new result }
{
    let ticks = bar.end.min(c.end) - bar.start.max(c.start);
    let bits = 96 + u32::from(c.unpitched) * 128;
    let chord = c.keys;
    let to = push_span(write, values, ticks, bits, chord, heads, keys, from);
    free_ends(
        write,
        heads,
        from.at,
        to.at,
        c.start < bar.start,
        bar.end < c.end,
    );
    to
}
