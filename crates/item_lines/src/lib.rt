// The line of an item on a printed page.
#![tactic(auto)]

ghost use Rattle.std.specs.Prelude.{ℕ, ◌+◌, ◌≤◌, ◌<◌, List, [], ◌∷◌, ◌++◌, length};
ghost use Rattle.line_text.specs.Text.{Adds};
ghost use Rattle.item_lines.specs.Items.{bit_key, word_keys, sound_text, letter, item_end, value_text, ties_text, item_line, Keyed};

// Where the page ends, and whether no key is put yet.
#[derive(Clone, Copy)]
struct Keys {
    at: usize,
    none: bool,
}

// A key more, behind a comma unless it is the first.
fn put_key(out: &mut [u8], keys: Keys, key: u64) -> Keys
    requires { keys.at + 21 ≤ length out.old }
    ensures grown { result.at ≤ keys.at + 21 }
    ensures keyed { (t ks : List ℕ) → Keyed t ks keys.at keys.none out.old
        → Keyed t (ks ++ (key ∷ [])) result.at result.none out.new }
{
    if keys.none {
        let at = line_text::put_decimal(out, keys.at, key);
        return Keys { at, none: false };
    }
    let a = line_text::put(out, keys.at, b',');
    let at = line_text::put_decimal(out, a, key);
    Keys { at, none: false }
}

// Key base + k, where bit k of a word is set.
fn put_bit(out: &mut [u8], keys: Keys, word: u64, k: u64, base: u64) -> Keys
    requires { (keys.at + 21 ≤ length out.old) × (k < 64) × (base ≤ 64) }
    ensures grown { result.at ≤ keys.at + 21 }
    ensures keyed { (t ks : List ℕ) → Keyed t ks keys.at keys.none out.old
        → Keyed t (ks ++ bit_key k word base) result.at result.none out.new }
{
    if (word >> k) % 2 == 1 {
        return put_key(out, keys, base + k);
    }
    keys
}

// The keys of a word, ascending, bit k for key base + k.
fn put_keys(out: &mut [u8], keys: Keys, word: u64, base: u64) -> Keys
    requires { (keys.at + 1344 ≤ length out.old) × (base ≤ 64) }
    ensures grown { result.at ≤ keys.at + 1344 }
    ensures keyed { (t ks : List ℕ) → Keyed t ks keys.at keys.none out.old
        → Keyed t (ks ++ word_keys 64 word base) result.at result.none out.new }
{
    let mut spot = keys;
    for k in 0..64 {
        spot = put_bit(out, spot, word, k, base);
    }
    spot
}

// `rest`, or the keys.
fn put_sound(out: &mut [u8], at: usize, head: u32, low: u64, high: u64) -> usize
    requires { at + 2688 ≤ length out.old }
    ensures { Adds 2688 (sound_text head low high) at out.old result out.new }
{
    if head / 256 % 2 == 1 {
        return line_text::put_text(out, at, b"rest");
    }
    let lower = put_keys(out, Keys { at, none: true }, low, 0);
    let all = put_keys(out, lower, high, 64);
    all.at
}

// A letter where a bit is set, else `-`.
fn put_letter(out: &mut [u8], at: usize, set: u32, b: u8) -> usize
    requires { at + 1 ≤ length out.old }
    ensures { Adds 1 (letter set b) at out.old result out.new }
{
    if set == 1 {
        return line_text::put(out, at, b);
    }
    line_text::put(out, at, b'-')
}

// ` u` where the item is unpitched, and the line's end.
fn put_item_end(out: &mut [u8], at: usize, head: u32) -> usize
    requires { at + 3 ≤ length out.old }
    ensures { Adds 3 (item_end head) at out.old result out.new }
{
    if head / 128 % 2 == 1 {
        return line_text::put_text(out, at, b" u\n");
    }
    line_text::put(out, at, b'\n')
}

// Voice, code, dots.
fn put_value(out: &mut [u8], at: usize, voice: u64, head: u32) -> usize
    requires { at + 62 ≤ length out.old }
    ensures { Adds 62 (value_text voice head) at out.old result out.new }
{
    let a = line_text::put_decimal(out, at, voice);
    let b = line_text::put_next(out, a, u64::from(head % 16));
    line_text::put_next(out, b, u64::from(head / 16 % 2))
}

// `e` tie-in, `s` tie-out, between spaces.
fn put_ties(out: &mut [u8], at: usize, head: u32) -> usize
    requires { at + 4 ≤ length out.old }
    ensures { Adds 4 (ties_text head) at out.old result out.new }
{
    let a = line_text::put(out, at, b' ');
    let b = put_letter(out, a, head / 32 % 2, b'e');
    let c = put_letter(out, b, head / 64 % 2, b's');
    line_text::put(out, c, b' ')
}

// An item's line: voice, code, dots, ties, keys.
pub fn put_item(out: &mut [u8], at: usize, voice: u64, head: u32, low: u64, high: u64) -> usize
    requires { at + 4096 ≤ length out.old }
    ensures { Adds 4096 (item_line voice head low high) at out.old result out.new }
{
    let a = put_value(out, at, voice, head);
    let b = put_ties(out, a, head);
    let c = put_sound(out, b, head, low, high);
    put_item_end(out, c, head)
}
