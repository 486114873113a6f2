// Written values: the lengths of a staff's values, and the split of a span into them.
#![tactic(auto)]

ghost use Rattle.std.specs.Prelude.{ℕ, ◌+◌, ◌*◌, ◌-◌, ◌/◌, ◌%◌, ◌<◌, ◌≤◌, ◌^◌, ◌&&◌, ◌≡◌, leb, ltb, length};
ghost use Rattle.values.specs.Table.{entry_of, table_of, Skips, Room, Counts, Spanned};

fn power_of_two(k: u64) -> u64
    requires { k < 64 }
    ensures { result ≡ 2 ^ k }
{
    1u64 << k
}

// The ticks of a value: 0 where they are no whole number.
// Kept: `note_values` promises a table of numbers (`table_of`), with a 0 for what is no value.
fn whole_ticks(p: u64, code: u64, dots: u64) -> u64
    requires { (p ≤ 65535) × (code ≤ 8) × (dots ≤ 1) }
    ensures { result ≡ entry_of p code dots }
{
    let numerator = 16 * p * (power_of_two(dots + 1) - 1);
    let denominator = power_of_two(code + dots);
    if numerator % denominator == 0 {
        numerator / denominator
    } else {
        0
    }
}

// The ticks of a staff's eighteen values, longest first: each code with a dot, then without; 0 where they are no whole number.
pub fn note_values(p: u64) -> [u64; 18]
    requires { p ≤ 65535 }
    ensures { result ≡ table_of p }
{
    let mut values = [0u64; 18];
    for code in 0..9 {
        values[2 * code] = whole_ticks(p, code as u64, 1);
        values[2 * code + 1] = whole_ticks(p, code as u64, 0);
    }
    values
}

// The entry to begin with: none before it fits.
fn first_entry(values: &[u64; 18], ticks: u64) -> usize
    ensures { Skips values.now ticks result }
{
    if ticks < values[13] {
        return 14;
    }
    if ticks < values[9] {
        return 10;
    }
    if ticks < values[5] {
        return 6;
    }
    0
}

// How many pieces a span takes, and the ticks that none of them takes.
#[derive(Clone, Copy)]
pub struct Count {
    pub pieces: u64,
    pub left: u64,
}

// The count of a span: a division for each entry that fits, however long it is.
pub fn count_pieces(values: &[u64; 18], ticks: u64) -> Count
    ensures { (p : ℕ) → 0 < p → values.now ≡ table_of p → Counts p ticks result }
{
    let mut pieces: u64 = 0;
    let mut left = ticks;
    for i in first_entry(values, ticks)..18 {
        if left == 0 {
            return Count { pieces, left };
        }
        let length = values[i];
        if fits(length, left) {
            pieces += left / length;
            left %= length;
        }
    }
    Count { pieces, left }
}

// Whether an entry is a value, and fits.
fn fits(length: u64, ticks: u64) -> bool
    ensures { result ≡ (ltb 0 length && leb length ticks) }
{
    0 < length && length <= ticks
}

// The word of entry i of the table, code i / 2, with a dot where i is even: code, dot and the caller's bits.
fn word(i: usize, bits: u32) -> u32
    requires { (i < 18) × (bits < 2 ^ 16) }
    ensures { result ≡ i / 2 + (1 - i % 2) * 16 + bits }
{
    (i / 2) as u32 + (1 - i % 2) as u32 * 16 + bits
}

// A span that was split: the place behind its pieces, and the ticks that none of them took.
#[derive(Clone, Copy)]
pub struct Split {
    pub at: usize,
    pub left: u64,
}

// Writes a span's pieces from out[from] on, again and again the longest that fits.
pub fn split_span(values: &[u64; 18], ticks: u64, out: &mut [u32], from: usize, bits: u32) -> Split
    requires { Room values.now ticks from (length out.old) × (bits < 2 ^ 16) }
    ensures { (p : ℕ) → 0 < p → values.now ≡ table_of p
        → Spanned p ticks from bits out.old out.new result }
{
    let mut left = ticks;
    let mut at = from;
    let mut i: usize = first_entry(values, ticks);
    // Kept: an entry that fits is taken again, so the turns are no range.
    while i < 18 {
        if left == 0 {
            return Split { at, left };
        }
        let length = values[i];
        if fits(length, left) {
            out[at] = word(i, bits);
            at += 1;
            left -= length;
        } else {
            i += 1;
        }
    }
    Split { at, left }
}
