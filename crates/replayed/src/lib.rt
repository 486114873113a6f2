// What a replay does on slices: decimals read from a text byte by byte, numbers put into arrays before they are lent, and the first index at which lists differ.
#![tactic(auto)]

ghost use Rattle.std.specs.Prelude.{ℕ, ◌≤◌, ◌≡◌, ◌++◌, ◌-◌, ◌^◌, List, length, drop, map, replicate};
ghost use Rattle.std.proofs.Common.{rules};
ghost use Rattle.replayed.specs.Decimals.{begun_by, gone_on_by, stepped, ended, scanned};
ghost use Rattle.replayed.specs.Differences.{others, bit, difference, same_numbers};

// What is known of a number while its text is read.
#[derive(Clone, Copy)]
pub enum Scanned {
    // No digit of it was read yet.
    Before,
    // Its digits so far.
    Inside(u64),
    // Whole: a byte that is no digit stood behind it.
    Number(u64),
    // Something that is no number stands in its place.
    Word,
    // Above 2^64 - 1.
    Large,
}

// A number's first byte, or one before it. Where no label may stand, only blanks and line ends may.
fn begun(byte: u8, label: bool) -> Scanned
    ensures { result ≡ begun_by label byte }
{
    if byte.is_ascii_digit() {
        return Scanned::Inside(byte as u64 - 48);
    }
    if label {
        return Scanned::Before;
    }
    if byte <= 32 {
        return Scanned::Before;
    }
    Scanned::Word
}

// A byte behind digits.
fn gone_on(value: u64, byte: u8, label: bool) -> Scanned
    ensures { result ≡ gone_on_by label value byte }
{
    if byte.is_ascii_digit() {
        let next = byte as u64 - 48;
        if value <= (18446744073709551615 - next) / 10 {
            return Scanned::Inside(value * 10 + next);
        }
        return Scanned::Large;
    }
    if label {
        return Scanned::Number(value);
    }
    if byte <= 32 {
        return Scanned::Number(value);
    }
    Scanned::Word
}

// One byte more.
pub fn step(s: Scanned, byte: u8, label: bool) -> Scanned
    ensures { result ≡ stepped label s byte }
{
    match s {
        Scanned::Before => begun(byte, label),
        Scanned::Inside(value) => gone_on(value, byte, label),
        Scanned::Number(value) => Scanned::Number(value),
        Scanned::Word => Scanned::Word,
        Scanned::Large => Scanned::Large,
    }
}

// Whether no byte more is read.
pub fn is_ended(s: Scanned) -> bool
    ensures { result ≡ ended s }
{
    match s {
        Scanned::Before => false,
        Scanned::Inside(_) => false,
        Scanned::Number(_) => true,
        Scanned::Word => true,
        Scanned::Large => true,
    }
}

// Where reading stopped, and what it knows.
#[derive(Clone, Copy)]
pub struct Stopped {
    pub found: Scanned,
    pub at: usize,
}

// Reads on from an index until the number has ended, or the text has.
pub fn scan(text: &[u8], from: usize, label: bool, known: Scanned) -> Stopped
    ensures { result ≡ scanned label (drop from text.now) known from }
{
    let mut found = known;
    for at in from..text.len() {
        if is_ended(found) {
            return Stopped { found, at };
        }
        found = step(found, text[at], label);
    }
    Stopped {
        found,
        at: from.max(text.len()),
    }
}

// A type of numbers from 0 to a largest. As a list it stands for the list of its numbers.
pub trait Number: Copy {
    ghost MOST: { ℕ };

    ghost value: { Self → ℕ };

    ghost values: { List Self → List ℕ };

    const MOST: u64;

    fn from_u64(n: u64) -> Self
        requires { n ≤ MOST }
        ensures { value result ≡ n };

    fn to_u64(self) -> u64
        ensures { result ≡ value self };

    ghost one_by_one: { (l : List Self) → values l ≡ map value l };
}

impl Number for u64 {
    ghost MOST = { 2 ^ 64 - 1 };

    ghost value = { λ n. n };

    ghost values = { λ l. l };

    ghost one_by_one = { same_numbers };

    const MOST: u64 = u64::MAX;

    fn from_u64(n: u64) -> u64 {
        n
    }

    fn to_u64(self) -> u64 {
        self
    }
}

impl Number for u32 {
    ghost MOST = { 2 ^ 32 - 1 };

    ghost value = { λ n. n };

    ghost values = { λ l. l };

    ghost one_by_one = { same_numbers };

    const MOST: u64 = 4294967295;

    fn from_u64(n: u64) -> u32 {
        n as u32
    }

    fn to_u64(self) -> u64 {
        u64::from(self)
    }
}

impl Number for u8 {
    ghost MOST = { 255 };

    ghost value = { λ n. n };

    ghost values = { λ l. l };

    ghost one_by_one = { same_numbers };

    const MOST: u64 = 255;

    fn from_u64(n: u64) -> u8 {
        n as u8
    }

    fn to_u64(self) -> u64 {
        u64::from(self)
    }
}

// One that has every number of 32 bits.
pub trait Wide: Number {
    ghost holds: { 2 ^ 32 - 1 ≤ Self.MOST };
}

impl Wide for u64 {
    ghost holds = { Prim.search rules };
}

impl Wide for u32 {
    ghost holds = { Prim.search rules };
}

// Fills an array with other numbers.
pub fn fill<T: Wide>(l: &mut [T])
    ensures { T.Number.values l.new ≡ others 0 (length l.old) }
{
    for i in 0..l.len() {
        l[i] = T::from_u64(4000000000 + (i % 65536) as u64);
    }
}

// Zeroes so many numbers of an array's front.
pub fn clear_front(l: &mut [u32], n: usize)
    requires { n ≤ length l.old }
    ensures { l.new ≡ replicate n 0 ++ drop n l.old }
{
    l[..n].fill(0);
}

// 1 where there is a difference.
pub fn different(at: Option<usize>) -> u64
    ensures is { result ≡ bit at }
    ensures few { result ≤ 1 }
{
    u64::from(at.is_some())
}

// The first index at which two lists differ: in a number, or since one has ended.
pub fn first_difference<T: Number>(wanted: &[u64], found: &[T]) -> Option<usize>
    ensures { result ≡ difference 0 wanted.now (T.values found.now) }
{
    for i in 0..wanted.len() {
        if found.len() <= i {
            return Some(i);
        }
        if wanted[i] != found[i].to_u64() {
            return Some(i);
        }
    }
    if wanted.len() < found.len() {
        return Some(wanted.len());
    }
    None
}

// The first number that is not 0.
pub fn first_not_zero(l: &[u64]) -> Option<usize>
    ensures { result ≡ difference 0 (replicate (length l.now) 0) l.now }
{
    l.iter().position(|n| *n != 0)
}
