// Section 8: the proof-reader. It goes by raw notes, their grid and the bars alone, and works out the grid, snapping and values by itself.
// Kept: small functions that the engraver's crates have too stand here and in the three crates below once more, since the two are independent
// parties that share no code, and so neither's mistake is the other's.
#![tactic(auto)]

ghost use Rattle.std.specs.Prelude.{◌*◌, ◌≤◌, ◌<◌, ◌≡◌, length};
ghost use Rattle.rules.specs.Bars.{bars_in, most_bars, last_bar_end};
ghost use Rattle.rules.specs.Grid.{is_off_grid, off_count, grid};
ghost use Rattle.rules.specs.Values.{smallest};
ghost use Rattle.rules.specs.Items.{read_staff};
ghost use Rattle.rules.specs.ProofReaderTests.{right?};
ghost use Rattle.track_events.specs.Track.{events_of};
ghost use Rattle.bar_walk.specs.Walk.{CanWalk};
ghost use Rattle.proofread_notes.specs.Columns.{Readable};
ghost use Rattle.proofread_voices.specs.Voices.{Fits};
ghost use Rattle.proofread_staff.specs.Staffs.{raws_at, heads_mean?, Shapes, with_bar, Measures, answer_of, answer_on};

// The bars: how many, the last one's end, and whether each length is a multiple of the smallest written value.
#[derive(Clone, Copy)]
pub struct Measured {
    pub bars: usize,
    pub end: u64,
    pub even: bool,
}

// The answer: yes, no, or that the part is uneven, so that neither is given.
#[derive(Clone, Copy)]
pub enum Reading {
    Yes,
    No,
    Uneven,
}

// ---- the grid

// Whether a start is off the sixteenths.
fn is_off(p: u64, start: u64) -> bool
    ensures { result ≡ is_off_grid p start }
{
    let q = (p / 4).max(1);
    let t = q / 4;
    let offset = start % q;
    t < offset && offset < q - t
}

// How many of the m notes start off the sixteenths.
fn count_off(work: &[u64], n: usize, m: usize, p: u64) -> usize
    requires { (m ≤ n) × (16 * n ≤ length work.now) }
    ensures { (result ≡ off_count p (raws_at n m work.now)) × (result ≤ m) }
{
    let mut offs = 0;
    for i in 0..m {
        offs += usize::from(is_off(p, work[n + i] / 128));
    }
    offs
}

// The grid: a thirty-second if more than a tenth of the notes are off, else a sixteenth.
pub fn grid_of(work: &[u64], n: usize, m: usize, p: u64) -> u64
    requires { (m ≤ n) × (16 * n ≤ length work.now) }
    ensures { result ≡ grid p (raws_at n m work.now) }
{
    let offs = count_off(work, n, m, p);
    if m < offs * 10 {
        return (p / 8).max(1);
    }
    (p / 4).max(1)
}

// ---- even pieces

// The smallest written value: p halved while it is even, at most four times.
fn smallest_value(p: u64) -> u64
    requires { 0 < p }
    ensures { (result ≡ smallest p) × (0 < result) }
{
    let mut u = p;
    for _ in 0..4u32 {
        if u % 2 != 0 {
            return u;
        }
        u /= 2;
    }
    u
}

// One bar more, of a length and an end.
fn with_bar(x: Measured, len: u64, end: u64, u: u64) -> Measured
    requires { (0 < u) × (x.bars < most_bars) }
    ensures { result ≡ with_bar x len end u }
{
    Measured {
        bars: x.bars + 1,
        end,
        even: x.even && len % u == 0,
    }
}

// Measures the bars.
fn measure(p: u64, deltas: &[u32], words: &[u32], end: u64, max_bars: usize, u: u64) -> Measured
    requires { CanWalk deltas.now words.now p end × (max_bars ≤ most_bars) × (0 < u) }
    ensures { Measures max_bars (bars_in max_bars p (events_of deltas.now words.now) end) u result }
{
    let mut walker = bar_walk::first_bar(p, deltas, words);
    let mut x = Measured {
        bars: 0,
        end: 0,
        even: true,
    };
    for _ in 0..max_bars {
        let next = walker.next_bar();
        x = with_bar(x, next.start - walker.start, next.start, u);
        if end <= next.start {
            return x;
        }
        walker = next.take_changes(deltas, words);
    }
    x
}

// ---- the arrays

// Whether no head has a bit that has no meaning.
#[tactic(auto, using(crate::proofs::Shapes::mean_fails))]
fn heads_mean(heads: &[u32]) -> bool
    ensures { result ≡ heads_mean? heads.now }
{
    for head in heads {
        if 512 <= *head {
            return false;
        }
    }
    true
}

// Whether the arrays fit their counts, four a bar, and no head has a bit that has no meaning.
fn shaped(counts: &[u32], heads: &[u32], keys: &[u64], bars: usize) -> bool
    requires { bars ≤ most_bars }
    ensures { Shapes bars counts.now heads.now keys.now result }
{
    if counts.len() != 4 * bars {
        return false;
    }
    let total = proofread_voices::sum_counts(counts, 0, counts.len());
    if heads.len() != total {
        return false;
    }
    if keys.len() != 2 * total {
        return false;
    }
    heads_mean(heads)
}

// ---- the staff

// Whether the staff is right: each voice, and each note found. The notes stand in the work area, e is the last bar's end.
fn read_staff(
    p: u64,
    deltas: &[u32],
    words: &[u32],
    end: u64,
    max_bars: usize,
    counts: &[u32],
    heads: &[u32],
    keys: &[u64],
    work: &mut [u64],
    n: usize,
    m: usize,
    g: u64,
    e: u64,
) -> bool
    requires { Readable g n m work.old × CanWalk deltas.now words.now p end
        × Fits (bars_in max_bars p (events_of deltas.now words.now) end) counts.now heads.now keys.now
        × (e ≡ last_bar_end (bars_in max_bars p (events_of deltas.now words.now) end)) }
    ensures { result ≡ right? p g (raws_at n m work.old) (bars_in max_bars p (events_of deltas.now words.now) end)
        (read_staff (record { counts = counts.entry.now; heads = heads.now; keys = keys.now })) }
{
    proofread_notes::clear_marks(work, n, m);
    for v in 0..4 {
        if !proofread_voices::read_voice(
            p, deltas, words, end, max_bars, counts, heads, keys, work, n, m, g, e, v,
        ) {
            return false;
        }
    }
    proofread_notes::all_found(work, n, m, g, e)
}

// Reads a staff. The bars go by a track's changes up to an end tick, max_bars of them at most; the m notes stand in the work area, whose
// columns have n words, on the grid g.
pub fn read_part(
    p: u64,
    deltas: &[u32],
    words: &[u32],
    end: u64,
    max_bars: usize,
    counts: &[u32],
    heads: &[u32],
    keys: &[u64],
    work: &mut [u64],
    n: usize,
    m: usize,
    g: u64,
) -> Reading
    requires { CanWalk deltas.now words.now p end × (0 < p) × (max_bars ≤ most_bars) × Readable g n m work.old }
    ensures { answer_of result ≡ answer_on p g (raws_at n m work.old)
        (bars_in max_bars p (events_of deltas.now words.now) end)
        (record { counts = counts.entry.now; heads = heads.now; keys = keys.now }) }
{
    let u = smallest_value(p);
    let x = measure(p, deltas, words, end, max_bars, u);
    if g % u != 0 {
        return Reading::Uneven;
    }
    if !x.even {
        return Reading::Uneven;
    }
    if !shaped(counts, heads, keys, x.bars) {
        return Reading::No;
    }
    if read_staff(
        p, deltas, words, end, max_bars, counts, heads, keys, work, n, m, g, x.end,
    ) {
        return Reading::Yes;
    }
    Reading::No
}
