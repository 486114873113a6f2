// The proof-reader's half that knows a staff's items: a voice is read item by item, its ties are followed, and it is played back.
#![tactic(auto)]

ghost use Rattle.std.specs.Prelude.{ℕ, ◌+◌, ◌*◌, ◌^◌, ◌≤◌, ◌<◌, true, not, ◌&&◌, ◌≡◌, eqb, leb, length, take, drop};
ghost use Rattle.std.specs.Bool.{beq};
ghost use Rattle.rules.specs.Values.{ticks_of, is_whole};
ghost use Rattle.rules.specs.Items.{item_of, read_items};
ghost use Rattle.rules.specs.ProofReaderTests.{clean?, meets?};
ghost use Rattle.proofread_notes.specs.Columns.{Readable};
ghost use Rattle.proofread_items.specs.Playing.{prolonged_to, as_item, timed_at, as_tie, tie_of, tie_left, as_chord, last_start, fits?, Paced, Closes, Sounds, Takes, TakesAll};

use proofread_notes::Chord;

// An item of a staff, taken apart. dots is 0 or 1.
#[derive(Clone, Copy)]
pub struct Item {
    pub code: u32,
    pub dots: u32,
    pub tie_in: bool,
    pub tie_out: bool,
    pub unpitched: bool,
    pub rest: bool,
    pub low: u64,
    pub high: u64,
}

// A tie-out: where it stands, its keys and mark.
#[derive(Clone, Copy)]
pub struct Tie {
    pub tick: u64,
    pub low: u64,
    pub high: u64,
    pub unpitched: bool,
}

// A voice as it is read.
#[derive(Clone, Copy)]
pub struct Voice {
    // where the next item starts
    pub tick: u64,
    // the open tie-out
    pub tie: Option<Tie>,
    // the last chord that was opened
    pub chord: Option<Chord>,
    // no note before this one starts with a later chord
    pub from: usize,
}

// ---- items

// The item of a head and two words of keys.
fn item_of(head: u32, low: u64, high: u64) -> Item
    ensures { (as_item result ≡ item_of head low high) × (result.dots ≤ 1) }
{
    Item {
        code: head % 16,
        dots: head / 16 % 2,
        tie_in: head / 32 % 2 == 1,
        tie_out: head / 64 % 2 == 1,
        unpitched: head / 128 % 2 == 1,
        rest: head / 256 % 2 == 1,
        low,
        high,
    }
}

// Whether a code and dots are a value of staffs: a whole number of ticks.
#[tactic(auto, using(crate::proofs::Lengths::value_not))]
fn is_value(p: u64, code: u32, dots: u32) -> bool
    requires { (p ≤ 65535) × (dots ≤ 1) }
    ensures { result ≡ (leb code 8 && leb dots 1 && is_whole p code dots) }
{
    if 8 < code {
        return false;
    }
    16 * p * (2 * dots + 1) as u64 % (1u64 << (code + dots)) == 0
}

// A value's length in ticks.
fn ticks_of(p: u64, code: u32, dots: u32) -> u64
    requires { (p ≤ 65535) × (code ≤ 8) × (dots ≤ 1) }
    ensures { (result ≡ ticks_of p code dots) × (result ≤ 3145680) }
{
    16 * p * (2 * dots + 1) as u64 / (1u64 << (code + dots))
}

// Whether an item has no tie and is not unpitched.
fn unmarked(i: Item) -> bool
    ensures { result ≡ (not i.tie_in && not i.tie_out && not i.unpitched) }
{
    !i.tie_in && !i.tie_out && !i.unpitched
}

// Whether a rest has no keys or marks, and another item a key.
fn is_clean(i: Item) -> bool
    ensures { result ≡ clean? (as_item i) }
{
    if i.rest {
        if i.low != 0 {
            return false;
        }
        if i.high != 0 {
            return false;
        }
        return unmarked(i);
    }
    if i.low != 0 {
        return true;
    }
    i.high != 0
}

// Whether the item has the keys and the mark of the tie.
fn same_keys(i: Item, t: Tie) -> bool
    ensures { result ≡ (eqb (i.low + i.high * 2 ^ 64) (t.low + t.high * 2 ^ 64) && beq i.unpitched t.unpitched) }
{
    if i.low != t.low {
        return false;
    }
    if i.high != t.high {
        return false;
    }
    i.unpitched == t.unpitched
}

// Whether an open tie-out and the item's tie-in meet; with none open the item has no tie-in.
fn meets(v: Voice, i: Item, p: u64) -> bool
    ensures { result ≡ meets? (tie_of v) (timed_at p v i) }
{
    match v.tie {
        Some(t) => i.tie_in && v.tick == t.tick && same_keys(i, t),
        None => !i.tie_in,
    }
}

// Whether the item can follow: its value, its keys and marks, and its tie-in.
fn item_fits(v: Voice, i: Item, p: u64) -> bool
    requires { (p ≤ 65535) × (i.dots ≤ 1) }
    ensures { result ≡ fits? p (tie_of v) (timed_at p v i) }
{
    is_value(p, i.code, i.dots) && is_clean(i) && meets(v, i, p)
}

// ---- chords

// The last chord is closed, where it ends with a note of its start, at the tick `next`, or at the last bar's end.
// The answer is the voice's new `from`, an Err where the chord is not right.
pub fn close_chord(
    work: &mut [u64],
    n: usize,
    m: usize,
    g: u64,
    e: u64,
    v: Voice,
    next: u64,
) -> Result<usize, usize>
    requires { Readable g n m work.old × Paced g n m work.old v }
    ensures { Closes g n m e next work.old work.new v result }
{
    match v.chord {
        Some(c) => proofread_notes::check_chord(work, n, m, g, e, v.from, c, next),
        None => Ok(v.from),
    }
}

// The last chord, prolonged to the tick `end`.
fn prolonged(chord: Option<Chord>, end: u64) -> Option<Chord>
    ensures { (as_chord result ≡ prolonged_to end (as_chord chord)) × ((t : ℕ) → last_start t result ≡ last_start t chord) }
{
    match chord {
        Some(c) => Some(Chord { end, ..c }),
        None => None,
    }
}

// Plays the item, which ends at the tick `end`: one without tie-in that is no rest opens a chord, one with tie-in prolongs the last.
fn sound(
    work: &mut [u64],
    n: usize,
    m: usize,
    g: u64,
    e: u64,
    v: Voice,
    i: Item,
    end: u64,
) -> Option<Voice>
    requires { Readable g n m work.old × Paced g n m work.old v }
    ensures { Sounds g n m e i end work.old work.new v result }
{
    if i.rest {
        return Some(v);
    }
    if i.tie_in {
        let chord = prolonged(v.chord, end);
        return Some(Voice { chord, ..v });
    }
    let from = close_chord(work, n, m, g, e, v, v.tick).ok()?;
    let chord = Chord {
        start: v.tick,
        end,
        low: i.low,
        high: i.high,
        unpitched: i.unpitched,
    };
    Some(Voice {
        chord: Some(chord),
        from,
        ..v
    })
}

// The tie-out that the item leaves open at the tick `end`.
fn tie_out(i: Item, end: u64) -> Option<Tie>
    ensures { as_tie result ≡ tie_left i end }
{
    let tie = Tie {
        tick: end,
        low: i.low,
        high: i.high,
        unpitched: i.unpitched,
    };
    if i.tie_out { Some(tie) } else { None }
}

// Takes one item.
fn take_item(
    work: &mut [u64],
    n: usize,
    m: usize,
    g: u64,
    e: u64,
    p: u64,
    v: Voice,
    i: Item,
) -> Option<Voice>
    requires { Readable g n m work.old × Paced g n m work.old v × (p ≤ 65535) × (i.dots ≤ 1) × (v.tick < 2 ^ 60) }
    ensures { Takes g n m e p i work.old work.new v result }
{
    if !item_fits(v, i, p) {
        return None;
    }
    let end = v.tick + ticks_of(p, i.code, i.dots);
    let r = sound(work, n, m, g, e, v, i, end)?;
    let tie = tie_out(i, end);
    Some(Voice {
        tick: end,
        tie,
        ..r
    })
}

// Takes the items of a voice in a bar, `count` of them from the item `first` on.
pub fn take_items(
    work: &mut [u64],
    n: usize,
    m: usize,
    g: u64,
    e: u64,
    p: u64,
    heads: &[u32],
    keys: &[u64],
    first: usize,
    count: usize,
    v: Voice,
) -> Option<Voice>
    requires { Readable g n m work.old × Paced g n m work.old v × (p ≤ 65535) × (v.tick < 2 ^ 50)
        × (count < 2 ^ 32) × (first + count ≤ length heads.now) × (2 * length heads.now ≤ length keys.now) }
    ensures { TakesAll g n m e p (take count (drop first (read_items heads.now keys.now))) work.old work.new v result }
{
    let mut r = v;
    for i in 0..count {
        let k = first + i;
        let item = item_of(heads[k], keys[2 * k], keys[2 * k + 1]);
        r = take_item(work, n, m, g, e, p, r, item)?;
    }
    Some(r)
}
