// The staff of four voices that stand in the work area: its size, and the staff itself, counted before it is written. The bars go by a first track's changes.
#![tactic(auto)]

ghost use Rattle.std.specs.Prelude.{◌<◌, ◌^◌, ◌≡◌};
ghost use Rattle.bar_walk.specs.Walk.{CanWalk};
ghost use Rattle.staff.specs.Bars.{voices_of, VoicesHeld};
ghost use Rattle.staff.specs.Staffs.{bars_of};
ghost use Rattle.engraver.specs.Sizes.{size_by, size_of, room_for, StaffWritten};

// A staff's size.
#[derive(Clone, Copy)]
pub struct Size {
    pub bars: usize,
    pub items: usize,
}

// The size of the staff of the voices in the work area, in at most max_bars bars.
pub fn measure_staff(
    p: u64,
    deltas: &[u32],
    words: &[u32],
    end: u64,
    max_bars: usize,
    work: &[u64],
    n: usize,
    lens: [usize; 4],
) -> Size
    requires { CanWalk deltas.now words.now p end × (0 < p) × (max_bars < 2 ^ 32) × VoicesHeld n work.now lens }
    ensures { size_of result
        ≡ size_by p (bars_of deltas.now words.now p end max_bars) (voices_of n work.now lens) }
{
    let values = values::note_values(p);
    let mut counts = [0u32; 1];
    let mut heads = [0u32; 1];
    let mut keys = [0u64; 1];
    let mut leftovers = [0u32; 1];
    let s = staff::transcribe_track(
        false,
        &values,
        deltas,
        words,
        end,
        max_bars,
        work,
        n,
        lens,
        &mut counts[..],
        &mut heads[..],
        &mut keys[..],
        &mut leftovers[..],
    );
    Size {
        bars: s.bars,
        items: s.items,
    }
}

// Whether outputs of these lengths have room: four counts and four leftovers a bar, a head and two words of keys an item.
fn has_room(size: Size, counts: usize, heads: usize, keys: usize, leftovers: usize) -> bool
    ensures { result ≡ room_for (size_of size) counts heads keys leftovers }
{
    if counts / 4 < size.bars {
        return false;
    }
    if heads < size.items {
        return false;
    }
    if keys / 2 < size.items {
        return false;
    }
    size.bars <= leftovers / 4
}

// The staff of the voices in the work area, and its size; none where the outputs have no room for it, and they are left as they are.
pub fn write_staff(
    p: u64,
    deltas: &[u32],
    words: &[u32],
    end: u64,
    max_bars: usize,
    work: &[u64],
    n: usize,
    lens: [usize; 4],
    counts: &mut [u32],
    heads: &mut [u32],
    keys: &mut [u64],
    leftovers: &mut [u32],
) -> Option<Size>
    requires { CanWalk deltas.now words.now p end × (0 < p) × (max_bars < 2 ^ 32) × VoicesHeld n work.now lens }
    ensures { StaffWritten p (bars_of deltas.now words.now p end max_bars) (voices_of n work.now lens)
        counts.old heads.old keys.old leftovers.old
        counts.new heads.new keys.new leftovers.new result }
{
    let size = measure_staff(p, deltas, words, end, max_bars, work, n, lens);
    if has_room(size, counts.len(), heads.len(), keys.len(), leftovers.len()) {
        let values = values::note_values(p);
        staff::transcribe_track(
            true, &values, deltas, words, end, max_bars, work, n, lens, counts, heads, keys,
            leftovers,
        );
        return Some(size);
    }
    None
}
