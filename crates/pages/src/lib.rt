// The page of a piece: its definition, and a part's lines put into lent bytes one after another.
#![tactic(auto)]

ghost use Rattle.std.specs.Prelude.{◌+◌, ◌*◌, ◌≤◌, ◌<◌, ◌≡◌, length, get_or};
ghost use Rattle.item_lines.specs.Items.{item_line};
ghost use Rattle.bar_lines.specs.Lines.{bar_line, part_line};
ghost use Rattle.pages.specs.Spots.{sheet, begun, Fits, LinePut, PutsLine, PutsLines};
ghost use Rattle.pages.specs.Steps.{titled_of, item_put, in_voice, Steps, Due, DueAt};

// Where a part's page stands: the part, until its own line is put, and its bars, the next count, and the voice whose items are put, with how
// many of them are left and which is the next.
#[derive(Clone, Copy, Debug, PartialEq, Eq)]
pub struct Spot {
    pub title: Option<u32>,
    pub p: u64,
    pub bars: usize,
    pub next: usize,
    pub voice: u64,
    pub left: u32,
    pub item: usize,
}

// A line that was put: where the bytes end, and the spot behind it.
#[derive(Clone, Copy, Debug, PartialEq, Eq)]
pub struct Put {
    pub at: usize,
    pub spot: Spot,
}

// Lines that were put: where the bytes end, and the spot behind them, unless nothing is left to put.
#[derive(Clone, Copy, Debug, PartialEq, Eq)]
pub struct Lines {
    pub at: usize,
    pub rest: Option<Spot>,
}

// The spot at a part's front.
pub fn begin(part: u32, p: u64, bars: usize) -> Spot
    ensures { result ≡ begun part p bars }
{
    Spot {
        title: Some(part),
        p,
        bars,
        next: 0,
        voice: 0,
        left: 0,
        item: 0,
    }
}

// The part's line.
fn put_title(spot: Spot, part: u32, out: &mut [u8], at: usize) -> Put
    requires { at + 4096 ≤ length out.old }
    ensures { Steps (part_line part spot.bars) (titled_of spot) at out.old result out.new }
{
    let end = bar_lines::put_part(out, at, part as u64, spot.bars as u64);
    Put {
        at: end,
        spot: Spot {
            title: None,
            ..spot
        },
    }
}

// The next item of the voice.
fn put_next_item(spot: Spot, heads: &[u32], keys: &[u64], out: &mut [u8], at: usize) -> Put
    requires { (0 < spot.left) × (spot.item < length heads.now) × (2 * spot.item + 1 < length keys.now)
        × (at + 4096 ≤ length out.old) }
    ensures { Steps
        (item_line spot.voice (get_or heads.now spot.item 0) (get_or keys.now (2 * spot.item) 0)
        (get_or keys.now (2 * spot.item + 1) 0))
        (item_put spot) at out.old result out.new }
{
    let item = spot.item;
    let end = item_lines::put_item(
        out,
        at,
        spot.voice,
        heads[item],
        keys[2 * item],
        keys[2 * item + 1],
    );
    Put {
        at: end,
        spot: Spot {
            left: spot.left - 1,
            item: item + 1,
            ..spot
        },
    }
}

// The line of bar `b` of the part; the spot is the one behind it.
fn put_bar_at(spot: Spot, b: usize, starts: &[u64], marks: &[u64], out: &mut [u8], at: usize) -> Put
    requires { (spot.p ≤ 65535) × (b < length starts.now) × (b < length marks.now) × (at + 4096 ≤ length out.old) }
    ensures { Steps (bar_line spot.p (b + 1) (get_or starts.now b 0) (get_or marks.now b 0))
        spot at out.old result out.new }
{
    let number = (b + 1) as u64;
    let end = bar_lines::put_bar(out, at, spot.p, number, starts[b], marks[b]);
    Put { at: end, spot }
}

// The spot in the voice of count `c`.
fn enter(spot: Spot, counts: &[u32], c: usize) -> Spot
    requires { c < length counts.now }
    ensures { result ≡ in_voice spot c (get_or counts.now c 0) }
{
    Spot {
        next: c + 1,
        voice: (c % 4) as u64,
        left: counts[c],
        ..spot
    }
}

// From count `c` on, the first at which a line is due, or the end.
fn due(counts: &[u32], c: usize, end: usize) -> usize
    requires { (c ≤ end) × (end ≤ length counts.now) }
    ensures { Due counts.now c end result }
{
    for k in c..end {
        if k % 4 == 0 {
            return k;
        }
        if counts[k] != 0 {
            return k;
        }
    }
    end
}

// The first line at count `c`, which is due: its bar's, or its first item's.
fn put_count(
    spot: Spot,
    c: usize,
    counts: &[u32],
    heads: &[u32],
    keys: &[u64],
    starts: &[u64],
    marks: &[u64],
    out: &mut [u8],
    at: usize,
) -> Put
    requires { DueAt (sheet counts.now heads.now keys.now starts.now marks.now) spot c × (at + 4096 ≤ length out.old) }
    ensures { LinePut
        (sheet counts.now heads.now keys.now starts.now marks.now)
        spot at out.old result out.new }
{
    let here = enter(spot, counts, c);
    if c % 4 == 0 {
        return put_bar_at(here, c / 4, starts, marks, out, at);
    }
    put_next_item(here, heads, keys, out, at)
}

// The next line of a part's page, where there is one.
pub fn next_line(
    spot: Spot,
    counts: &[u32],
    heads: &[u32],
    keys: &[u64],
    starts: &[u64],
    marks: &[u64],
    out: &mut [u8],
    at: usize,
) -> Option<Put>
    requires { Fits (sheet counts.now heads.now keys.now starts.now marks.now) spot × (at + 4096 ≤ length out.old) }
    ensures { PutsLine
        (sheet counts.now heads.now keys.now starts.now marks.now)
        spot at out.old result out.new }
{
    if let Some(part) = spot.title {
        return Some(put_title(spot, part, out, at));
    }
    if spot.left != 0 {
        return Some(put_next_item(spot, heads, keys, out, at));
    }
    let end = 4 * spot.bars;
    let c = due(counts, spot.next, end);
    if c == end {
        return None;
    }
    Some(put_count(spot, c, counts, heads, keys, starts, marks, out, at))
}

// Lines of a part's page from the front of `out`, while there are any and 4,096 bytes are left.
pub fn next_lines(
    spot: Spot,
    counts: &[u32],
    heads: &[u32],
    keys: &[u64],
    starts: &[u64],
    marks: &[u64],
    out: &mut [u8],
) -> Lines
    requires { Fits (sheet counts.now heads.now keys.now starts.now marks.now) spot × (4096 ≤ length out.old) }
    ensures { PutsLines
        (sheet counts.now heads.now keys.now starts.now marks.now)
        spot result out.new }
{
    let mut at = 0;
    let mut here = spot;
    // Kept: a line's length is found on the way, so no range says which places there are.
    while 4096 <= out.len() - at {
        let Some(put) = next_line(here, counts, heads, keys, starts, marks, out, at) else {
            return Lines { at, rest: None };
        };
        at = put.at;
        here = put.spot;
    }
    Lines {
        at,
        rest: Some(here),
    }
}
