// Numbers 1 to 5: whether a piece, as its three arrays sizes, deltas and words, is admitted.
#![tactic(auto)]

ghost use Rattle.std.specs.Prelude.{◌+◌, ◌-◌, ◌≤◌, true, false, ◌≡◌, length};
ghost use Rattle.rules.specs.Lists.{sum};
ghost use Rattle.rules.specs.Piece.{piece, sizes_agree, well_formed};
ghost use Rattle.rules.specs.Refusals.{first_number, piece_refusals, event_refusals, most_events, largest_delta};
ghost use Rattle.basics.specs.Refusals.{number_of};
ghost use Rattle.admission.specs.Bad.{bad, FirstBad, HasMasks, AllFormed, AllSmall};

use basics::{LARGEST_DELTA, LARGEST_SIZE, MOST_EVENTS, Refusal};
use track_events::{block_end, well_formed};

// The sum of event counts or deltas.
pub fn total(counts: &[u32]) -> u64
    requires { length counts.now ≤ most_events }
    ensures { result ≡ sum counts.now }
{
    let mut n: u64 = 0;
    for count in counts {
        n += u64::from(*count);
    }
    n
}

// Whether the three lengths fit the sizes, and no size is too large.
fn sizes_agree(sizes: &[u32], deltas: &[u32], words: &[u32]) -> bool
    ensures { result ≡ sizes_agree (piece sizes.now deltas.now words.now) }
{
    if sizes.len() < 2 {
        return false;
    }
    if LARGEST_SIZE < sizes[1] {
        return false;
    }
    if sizes.len() != 2 + sizes[1] as usize {
        return false;
    }
    if LARGEST_SIZE < sizes[0] {
        return false;
    }
    let events = total(&sizes[2..]);
    if deltas.len() as u64 != events {
        return false;
    }
    if words.len() as u64 != events {
        return false;
    }
    true
}

// False only where no delta of a block is too large. No branch, so that several are looked at together.
fn bad_deltas(deltas: &[u32], from: usize, to: usize) -> bool
    requires { (from ≤ to) × (to ≤ length deltas.now) }
    ensures { result ≡ false → AllSmall deltas.now from to }
{
    let mut all: u32 = 0;
    for i in from..to {
        all |= deltas[i];
    }
    LARGEST_DELTA < all
}

// 0 only for a plain word: a note off, note on, key pressure or controller that is well formed. Of the upper six bits of the kind just
// that of 8 is set, a is at most 15, b and c at most 127.
fn not_plain(word: u32) -> u32
    ensures { result ≡ 0 → well_formed word ≡ true }
{
    word & 0xFCF0_8080 ^ 0x0800_0000
}

// False only where all words of a block are plain, as most are.
fn not_plain_words(words: &[u32], from: usize, to: usize) -> bool
    requires { (from ≤ to) × (to ≤ length words.now) }
    ensures { result ≡ false → AllFormed words.now from to }
{
    let mut all: u32 = 0;
    for i in from..to {
        all |= not_plain(words[i]);
    }
    all != 0
}

// The bits that a word must not have, by its kind.
const FORBIDDEN: [u32; 15] = [
    0x00FF_FFFF, // 0, other meta: no a, b, c
    0x00FF_FFFF, // 1, system event: no a, b, c
    0x0000_0000, // 2, tempo: all 24 bits are used
    0x0000_F8FF, // 3, meter: b at most 7, no c
    0x0000_FEFF, // 4, key: b at most 1, no c
    0x0000_00FF, // 5, marker: no c
    0x00FF_FFFF, // 6, end of track: no a, b, c
    0xFFFF_FFFF, // 7 is no kind
    0x00F0_8080, // 8, note off: a at most 15, b and c at most 127
    0x00F0_8080, // 9, note on: the same
    0x00F0_8080, // 10, key pressure: the same
    0x00F0_8080, // 11, controller: the same
    0x00F0_80FF, // 12, program: a at most 15, b at most 127, no c
    0x00F0_80FF, // 13, channel pressure: the same
    0x00F0_8080, // 14, bend: as 8
];

// The same for all 256 numbers that a word's first byte may be: what is no kind must have no bit at all.
fn forbidden_bits() -> [u32; 256]
    ensures { HasMasks result }
{
    let kinds = FORBIDDEN;
    let mut table = [0xFFFF_FFFFu32; 256];
    for k in 0..15 {
        table[k] = kinds[k];
    }
    table
}

// 0 only for a word that is well formed: the bits that it must not have.
fn forbidden_in(table: &[u32; 256], word: u32) -> u32
    requires { HasMasks table.now }
    ensures { result ≡ 0 → well_formed word ≡ true }
{
    word & table[(word / 16777216) as usize]
}

// False only where all words of a block are well formed, whatever their kinds.
fn bad_words(table: &[u32; 256], words: &[u32], from: usize, to: usize) -> bool
    requires { HasMasks table.now × (from ≤ to) × (to ≤ length words.now) }
    ensures { result ≡ false → AllFormed words.now from to }
{
    let mut bad: u32 = 0;
    for i in from..to {
        bad |= forbidden_in(table, words[i]);
    }
    bad != 0
}

// What the first bad event of a block is refused for.
fn bad_event(deltas: &[u32], words: &[u32], from: usize, to: usize) -> Result<(), Refusal>
    requires { (length words.now ≡ length deltas.now) × (from ≤ to) × (to ≤ length deltas.now) }
    ensures { FirstBad deltas.now words.now from to (number_of result) }
{
    for i in from..to {
        if LARGEST_DELTA < deltas[i] {
            return Err(Refusal::LargeDelta);
        }
        if !well_formed(words[i]) {
            return Err(Refusal::BadWord);
        }
    }
    Ok(())
}

// The same, soon where all are plain, and soon enough where all are good.
fn bad_in_block(
    table: &[u32; 256],
    deltas: &[u32],
    words: &[u32],
    from: usize,
    to: usize,
) -> Result<(), Refusal>
    requires { HasMasks table.now × (length words.now ≡ length deltas.now) × (from ≤ to) × (to ≤ length deltas.now) }
    ensures { FirstBad deltas.now words.now from to (number_of result) }
{
    if !bad_deltas(deltas, from, to) {
        if !not_plain_words(words, from, to) {
            return Ok(());
        }
        if !bad_words(table, words, from, to) {
            return Ok(());
        }
    }
    bad_event(deltas, words, from, to)
}

// What the first bad event is refused for, a delta that is too large or a bad word.
fn first_bad_event(deltas: &[u32], words: &[u32]) -> Result<(), Refusal>
    requires { length words.now ≡ length deltas.now }
    ensures { number_of result ≡ first_number (event_refusals deltas.now words.now) }
{
    let table = forbidden_bits();
    let mut i = 0;
    // Kept: a range by 256 was tried; its proof wants to know where block_end ends a block, and the clause only bounds it.
    while i < deltas.len() {
        let to = block_end(i, deltas.len());
        bad_in_block(&table, deltas, words, i, to)?;
        i = to;
    }
    Ok(())
}

// Admits a piece, or tells which of 1 to 5 refuses it.
pub fn admission(sizes: &[u32], deltas: &[u32], words: &[u32]) -> Result<(), Refusal>
    ensures { number_of result ≡ first_number (piece_refusals (piece sizes.now deltas.now words.now)) }
{
    if !sizes_agree(sizes, deltas, words) {
        return Err(Refusal::SizesDisagree);
    }
    if sizes[0] == 0 {
        return Err(Refusal::DivisionZero);
    }
    if MOST_EVENTS < deltas.len() {
        return Err(Refusal::TooManyEvents);
    }
    first_bad_event(deltas, words)
}
