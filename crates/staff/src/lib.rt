// Section 7: the staff along the bars. In each bar the four voices are written as items, with a count and a leftover for each; the bars are walked,
// not stored.
#![tactic(auto)]

ghost use Rattle.std.specs.Prelude.{◌+◌, ◌-◌, ◌*◌, ◌<◌, ◌^◌, true, [], ◌∷◌, ◌≡◌, eqb, length};
ghost use Rattle.rules.specs.Staff.{staff_of, leftovers_of};
ghost use Rattle.bar_walk.specs.Walk.{CanWalk};
ghost use Rattle.items.specs.Putting.{Put};
ghost use Rattle.items.specs.Writing.{quarter, IsTable};
ghost use Rattle.bar_voice.specs.Voices.{voice_of, VoiceHeld};
ghost use Rattle.staff.specs.Bars.{CanCount, Counted, voices_of, VoicesHeld, engraving, CanPush, BarPut};
ghost use Rattle.staff.specs.Staffs.{bars_of, StaffRoom, StaffPut};

use items::Measure;

// ---- one bar

// A staff so far: how many bars and items there are, and each voice's next chord.
#[derive(Drop)]
pub struct Engraving {
    pub bars: usize,
    pub items: usize,
    pub nexts: [usize; 4],
}

// Writes a number of a voice: its item count, or its leftover.
fn put_number(write: bool, out: &mut [u32], at: usize, number: u64)
    requires { (write ≡ true → at < length out.old) × (number < 2 ^ 32) }
    ensures { Put write (number ∷ []) at out.old out.new }
{
    if write {
        out[at] = number as u32;
    }
}

// Where a voice has come to: the place behind its items, and its next chord.
#[derive(Clone, Copy)]
pub struct Reached {
    pub at: usize,
    pub next: usize,
}

// Voice v in the bar, and its count and its leftover at a place.
fn push_counted(
    write: bool,
    values: &[u64; 18],
    work: &[u64],
    n: usize,
    v: usize,
    len: usize,
    next: usize,
    bar: Measure,
    counts: &mut [u32],
    place: usize,
    heads: &mut [u32],
    keys: &mut [u64],
    leftovers: &mut [u32],
    from: usize,
) -> Reached
    requires { IsTable values.now × VoiceHeld n work.now v len
        × CanCount write (quarter values.now) (eqb v 0) (voice_of n work.now v len) next bar place from
        counts.old heads.old keys.old leftovers.old }
    ensures { Counted write (quarter values.now) (eqb v 0) (voice_of n work.now v len) bar place from
        counts.old heads.old keys.old leftovers.old
        counts.new heads.new keys.new leftovers.new result }
{
    let first = bar_voice::skip_past(work, n, v, len, next, bar.start);
    let pushed = bar_voice::push_voice(
        write, values, work, n, v, len, first, bar, heads, keys, from,
    );
    put_number(write, counts, place, (pushed.at - from) as u64);
    put_number(write, leftovers, place, pushed.left);
    Reached {
        at: pushed.at,
        next: first,
    }
}

// The bar's four voices: their items, and a count and a leftover for each. The answer is the place behind the items; the next chords are
// written in place, since a copy right after a store is slow.
fn push_bar(
    write: bool,
    values: &[u64; 18],
    work: &[u64],
    n: usize,
    lens: [usize; 4],
    bar: Measure,
    bars: usize,
    items: usize,
    nexts: &mut [usize; 4],
    counts: &mut [u32],
    heads: &mut [u32],
    keys: &mut [u64],
    leftovers: &mut [u32],
) -> usize
    requires { IsTable values.now × VoicesHeld n work.now lens
        × CanPush write (quarter values.now) n work.now lens bar (engraving bars items nexts.old)
        counts.old heads.old keys.old leftovers.old }
    ensures { BarPut write (quarter values.now) n work.now lens bar (engraving bars items nexts.old)
        counts.old heads.old keys.old leftovers.old
        counts.new heads.new keys.new leftovers.new
        (engraving (bars + 1) result nexts.new) }
{
    let mut at = items;
    for v in 0..4 {
        let place = 4 * bars + v;
        let r = push_counted(
            write, values, work, n, v, lens[v], nexts[v], bar, counts, place, heads, keys,
            leftovers, at,
        );
        nexts[v] = r.next;
        at = r.at;
    }
    at
}

// ---- the staff

// The staff of four voices in the bars that a first track's changes make, up to the end tick, max_bars of them at most.
pub fn transcribe_track(
    write: bool,
    values: &[u64; 18],
    deltas: &[u32],
    words: &[u32],
    end: u64,
    max_bars: usize,
    work: &[u64],
    n: usize,
    lens: [usize; 4],
    counts: &mut [u32],
    heads: &mut [u32],
    keys: &mut [u64],
    leftovers: &mut [u32],
) -> Engraving
    requires { IsTable values.now × CanWalk deltas.now words.now (quarter values.now) end × (max_bars < 2 ^ 32) × VoicesHeld n work.now lens
        × StaffRoom write (staff_of (quarter values.now) (voices_of n work.now lens) (bars_of deltas.now words.now (quarter values.now) end max_bars))
        (leftovers_of (quarter values.now) (voices_of n work.now lens) (bars_of deltas.now words.now (quarter values.now) end max_bars))
        counts.old heads.old keys.old leftovers.old }
    ensures { StaffPut write (bars_of deltas.now words.now (quarter values.now) end max_bars)
        (staff_of (quarter values.now) (voices_of n work.now lens)
        (bars_of deltas.now words.now (quarter values.now) end max_bars))
        (leftovers_of (quarter values.now) (voices_of n work.now lens)
        (bars_of deltas.now words.now (quarter values.now) end max_bars))
        counts.old heads.old keys.old leftovers.old
        counts.new heads.new keys.new leftovers.new result }
{
    let mut w = bar_walk::first_bar(values[9], deltas, words);
    let mut items = 0;
    let mut nexts = [0usize; 4];
    for bars in 0..max_bars {
        let bar = Measure {
            start: w.start,
            end: w.start + w.length(),
        };
        items = push_bar(
            write, values, work, n, lens, bar, bars, items, &mut nexts, counts, heads, keys,
            leftovers,
        );
        w = w.next_bar();
        if end <= w.start {
            return Engraving {
                bars: bars + 1,
                items,
                nexts,
            };
        }
        w = w.take_changes(deltas, words);
    }
    Engraving {
        bars: max_bars,
        items,
        nexts,
    }
}
