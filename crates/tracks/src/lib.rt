// The tracks of a piece: its ticks per quarter, first track and parts.
#![tactic(auto)]

ghost use Rattle.std.specs.Prelude.{◌+◌, ◌-◌, ◌≤◌, ◌<◌, max, true, [], ◌≡◌, length, get_or, drop};
ghost use Rattle.rules.specs.Lists.{any, keep};
ghost use Rattle.rules.specs.Piece.{piece, sizes_agree, ticks_per_quarter, is_on};
ghost use Rattle.rules.specs.RawNotes.{parts, most_notes};
ghost use Rattle.tracks.specs.Spans.{IsSpan, FirstSpan};

use basics::MOST_PARTS;
use track_events::{cut, is_on};

// A track as a stretch of deltas and words: &deltas[from..to] and &words[from..to].
#[derive(Clone, Copy)]
pub struct Span {
    pub from: usize,
    pub to: usize,
}

// The ticks per quarter: 480 for timecode, else the division.
pub fn ticks_per_quarter(sizes: &[u32]) -> u64
    ensures { result ≡ ticks_per_quarter (piece sizes.now [] []) }
{
    let Some(&division) = sizes.first() else {
        return 0;
    };
    if division / 32768 % 2 == 1 {
        return 480;
    }
    u64::from(division)
}

// The first track; 0..0 where there is no track.
pub fn first_track(sizes: &[u32]) -> Span
    ensures { FirstSpan sizes.now result }
{
    if sizes.len() < 3 {
        return Span { from: 0, to: 0 };
    }
    Span {
        from: 0,
        to: sizes[2] as usize,
    }
}

// Words are counted block by block, for speed: a block's count is no wider than a word.
const BLOCK: usize = 256;

// How many words of a block are note-ons above velocity 0.
fn ons_in_block(block: &[u32]) -> u32
    requires { length block.now ≤ 256 }
    ensures { result ≡ length (keep is_on block.now) }
{
    let mut n: u32 = 0;
    for w in block {
        if is_on(*w) {
            n += 1;
        }
    }
    n
}

// How many of the words are note-ons above velocity 0.
fn ons(words: &[u32]) -> usize
    ensures { result ≡ length (keep is_on words.now) }
{
    let mut n = 0;
    for block in words.chunks(BLOCK) {
        n += ons_in_block(block) as usize;
    }
    n
}

// Whether a track has notes.
pub fn has_notes(words: &[u32]) -> bool
    ensures { result ≡ any is_on words.now }
{
    for word in words {
        if is_on(*word) {
            return true;
        }
    }
    false
}

// The number of parts: at most 32 tracks with notes are parts. It reads no track behind its first note.
pub fn count_parts(sizes: &[u32], deltas: &[u32], words: &[u32]) -> usize
    requires { sizes_agree (piece sizes.now deltas.now words.now) ≡ true }
    ensures { result ≡ length (parts (piece sizes.now deltas.now words.now)) }
{
    let mut n = 0;
    let mut from = 0;
    for i in 2..sizes.len() {
        if n == MOST_PARTS {
            return n;
        }
        let to = from + sizes[i] as usize;
        if has_notes(cut(words, from, to)) {
            n += 1;
        }
        from = to;
    }
    n
}

// The most note-ons with one track more. A track that is no longer than the most so far cannot have more of them.
fn with_track(most: usize, words: &[u32]) -> usize
    ensures { result ≡ max most (length (keep is_on words.now)) }
{
    if words.len() <= most {
        return most;
    }
    most.max(ons(words))
}

// N: the most note-ons in one track.
pub fn most_notes(sizes: &[u32], deltas: &[u32], words: &[u32]) -> usize
    requires { sizes_agree (piece sizes.now deltas.now words.now) ≡ true }
    ensures { result ≡ most_notes (piece sizes.now deltas.now words.now) }
{
    let mut most = 0;
    let mut from = 0;
    for t in 2..sizes.len() {
        let to = from + sizes[t] as usize;
        most = with_track(most, cut(words, from, to));
        from = to;
    }
    most
}

// The track of part k, counted from 0. It reads no event behind that track.
pub fn part_track(sizes: &[u32], deltas: &[u32], words: &[u32], k: usize) -> Span
    requires { (sizes_agree (piece sizes.now deltas.now words.now) ≡ true)
        × (k < length (parts (piece sizes.now deltas.now words.now))) }
    ensures { IsSpan deltas.now words.now
        (get_or (parts (piece sizes.now deltas.now words.now)) k []) result }
{
    let mut before = k;
    let mut from = 0;
    for i in 2..sizes.len() {
        let to = from + sizes[i] as usize;
        if has_notes(cut(words, from, to)) {
            if before == 0 {
                return Span { from, to };
            }
            before -= 1;
        }
        from = to;
    }
    Span { from: 0, to: 0 }
}
