// The proof-reader's walk along a voice: its items in each bar, and what is asked at the bar's and at the voice's end.
#![tactic(auto)]

ghost use Rattle.std.specs.Prelude.{◌+◌, ◌*◌, ◌^◌, ◌≤◌, ◌<◌, true, cond, ◌≡◌, eqb, length, take, drop};
ghost use Rattle.rules.specs.Lists.{sum};
ghost use Rattle.rules.specs.Bars.{bars_in};
ghost use Rattle.rules.specs.Items.{read_items, read_staff};
ghost use Rattle.rules.specs.ProofReaderTests.{free_at?};
ghost use Rattle.track_events.specs.Track.{events_of};
ghost use Rattle.bar_walk.specs.Walk.{CanWalk};
ghost use Rattle.proofread_notes.specs.Columns.{Readable, Before};
ghost use Rattle.proofread_items.specs.Playing.{tie_of, last_start, Paced};
ghost use Rattle.proofread_voices.specs.Voices.{Fits, NewVoice, ReadsBar, EndsVoice, ReadsVoice};

use proofread_items::Voice;

// The sum of n counts from `from` on.
pub fn sum_counts(counts: &[u32], from: usize, n: usize) -> usize
    requires { (from + n ≤ length counts.now) × (length counts.now ≤ 40000) }
    ensures { (result ≡ sum (take n (drop from counts.now))) × (result ≤ n * 4294967295) }
{
    let mut total = 0;
    for i in 0..n {
        total += counts[from + i] as usize;
    }
    total
}

// A voice of which nothing is read yet.
fn new_voice() -> Voice
    ensures { NewVoice result }
{
    Voice {
        tick: 0,
        tie: None,
        chord: None,
        from: 0,
    }
}

// Whether a voice of `count` items that reached a tick fills its bar, which ends at the tick `until`: voice 0 always does, others may be empty.
fn is_full(v: usize, count: usize, tick: u64, until: u64) -> bool
    ensures { result ≡ cond (eqb v 0) (eqb tick until) (cond (eqb count 0) true (eqb tick until)) }
{
    if v == 0 {
        return tick == until;
    }
    count == 0 || tick == until
}

// Reads a voice in a bar from `start` to `until`: `count` items from the item `first` on.
fn read_bar(
    work: &mut [u64],
    n: usize,
    m: usize,
    g: u64,
    e: u64,
    p: u64,
    heads: &[u32],
    keys: &[u64],
    v: usize,
    first: usize,
    count: usize,
    start: u64,
    until: u64,
    voice: Voice,
) -> Option<Voice>
    requires { Readable g n m work.old × (voice.from ≤ m) × Before g n work.old voice.from (last_start start voice.chord)
        × (last_start start voice.chord ≤ start) × (p ≤ 65535) × (start < 2 ^ 50) × (start ≤ until)
        × (count < 2 ^ 32) × (first + count ≤ length heads.now) × (2 * length heads.now ≤ length keys.now) }
    ensures { ReadsBar g n m e p v start until (take count (drop first (read_items heads.now keys.now))) work.old work.new voice result }
{
    let at = Voice {
        tick: start,
        ..voice
    };
    let r = proofread_items::take_items(work, n, m, g, e, p, heads, keys, first, count, at)?;
    if is_full(v, count, r.tick, until) {
        Some(r)
    } else {
        None
    }
}

// Whether the open tie-out, if there is one, stands at the tick e.
fn free_at(v: Voice, e: u64) -> bool
    ensures { result ≡ free_at? e (tie_of v) }
{
    match v.tie {
        Some(t) => t.tick == e,
        None => true,
    }
}

// The voice's end: a tie-out is free at the staff's end alone, and the last chord is closed.
fn end_voice(work: &mut [u64], n: usize, m: usize, g: u64, e: u64, v: Voice) -> bool
    requires { Readable g n m work.old × Paced g n m work.old v }
    ensures { EndsVoice g n m e work.old work.new v result }
{
    free_at(v, e) && proofread_items::close_chord(work, n, m, g, e, v, e).is_ok()
}

// Reads voice v through all bars: the notes stand in the work area, e is the last bar's end.
pub fn read_voice(
    p: u64,
    deltas: &[u32],
    words: &[u32],
    end: u64,
    max_bars: usize,
    counts: &[u32],
    heads: &[u32],
    keys: &[u64],
    work: &mut [u64],
    n: usize,
    m: usize,
    g: u64,
    e: u64,
    v: usize,
) -> bool
    requires { Readable g n m work.old × CanWalk deltas.now words.now p end × (v < 4)
        × Fits (bars_in max_bars p (events_of deltas.now words.now) end) counts.now heads.now keys.now }
    ensures { ReadsVoice g n m e p v (bars_in max_bars p (events_of deltas.now words.now) end)
        (read_staff (record { counts = counts.entry.now; heads = heads.now; keys = keys.now })) work.old work.new result }
{
    let mut walker = bar_walk::first_bar(p, deltas, words);
    let mut voice = new_voice();
    let mut first = 0;
    for bar in 0..max_bars {
        let next = walker.next_bar();
        let here = first + sum_counts(counts, 4 * bar, v);
        let count = counts[4 * bar + v] as usize;
        let Some(read) = read_bar(
            work,
            n,
            m,
            g,
            e,
            p,
            heads,
            keys,
            v,
            here,
            count,
            walker.start,
            next.start,
            voice,
        ) else {
            return false;
        };
        voice = read;
        first += sum_counts(counts, 4 * bar, 4);
        if end <= next.start {
            return end_voice(work, n, m, g, e, voice);
        }
        walker = next.take_changes(deltas, words);
    }
    end_voice(work, n, m, g, e, voice)
}
