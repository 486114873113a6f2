// Numbers and lists of a text, each read from a cursor on, and a list of the text against an array. All of it is on slices; docs/REPLAY.md has the form.
#![tactic(auto)]

ghost use Rattle.std.specs.Prelude.{◌≤◌, ◌≡◌, length};
ghost use Rattle.replay_text.specs.Numbers.{numbered, settled, number_at, held_to, bounded_at, list_at, ListRead, most_wide};
ghost use Rattle.replay_text.specs.Checks.{wanted_at, sound, checked_at};
ghost use Rattle.replayed.specs.Differences.{difference};
ghost use Rattle.replay_text.specs.Calls.{Within, asked_at};

use replayed::{Number, Scanned};

// Why a text cannot be read on.
#[derive(Clone, Copy, Debug, PartialEq, Eq)]
pub enum Fault {
    // It ends early.
    Ends,
    // A word stands for a number.
    Word,
    // A number is too large.
    Large,
    // A list is too long.
    Long,
}

// The most that an array which is lent holds.
pub const ROOM: usize = 45056;

// A place of the text, and the fault that was met there.
#[derive(Clone, Copy)]
pub struct Cursor {
    pub at: usize,
    pub fault: Option<Fault>,
}

// A number, and the place behind it.
#[derive(Clone, Copy)]
pub struct Numbered {
    pub value: u64,
    pub next: Cursor,
}

fn behind(value: u64, at: usize, fault: Option<Fault>) -> Numbered
    ensures { result ≡ numbered value at fault }
{
    Numbered {
        value,
        next: Cursor { at, fault },
    }
}

// The value of a number that has ended; 0 and a fault for what is none. The text's end ends a number, too.
fn settle(found: Scanned, at: usize) -> Numbered
    ensures { result ≡ settled found at }
{
    match found {
        Scanned::Number(value) => behind(value, at, None),
        Scanned::Inside(value) => behind(value, at, None),
        Scanned::Before => behind(0, at, Some(Fault::Ends)),
        Scanned::Word => behind(0, at, Some(Fault::Word)),
        Scanned::Large => behind(0, at, Some(Fault::Large)),
    }
}

// The next number. Where a label may stand, it is passed over. After a fault: 0, and the cursor stays.
pub fn number(text: &[u8], p: Cursor, label: bool) -> Numbered
    ensures { result ≡ number_at label text.now p }
{
    if p.fault.is_some() {
        return Numbered { value: 0, next: p };
    }
    let stopped = replayed::scan(text, p.at, label, Scanned::Before);
    let found = stopped.found;
    settle(found, stopped.at)
}

// A number that is no more than a limit; 0 and a fault where it is more.
fn held(n: Numbered, most: u64, why: Fault) -> Numbered
    ensures { result ≡ held_to most why n }
{
    if n.value <= most {
        return n;
    }
    let p = n.next;
    behind(0, p.at, Some(why))
}

// The next number, which is no more than a limit.
pub fn bounded(text: &[u8], p: Cursor, label: bool, most: u64, why: Fault) -> Numbered
    ensures is { result ≡ bounded_at label most why text.now p }
    ensures within { result.value ≤ most }
{
    held(number(text, p, label), most, why)
}

// How many numbers a list has, and the place behind it.
#[derive(Clone, Copy)]
pub struct Listed {
    pub count: usize,
    pub next: Cursor,
}

// A list, to the front of an array: no number above the largest of the array's type.
pub fn list<T: Number>(text: &[u8], p: Cursor, out: &mut [T]) -> Listed
    ensures { ListRead (list_at T.MOST text.now (length out.old) p) (T.values out.old) result (T.values out.new) }
{
    let n = bounded(text, p, true, out.len() as u64, Fault::Long);
    let count = n.value as usize;
    let mut next = n.next;
    for i in 0..count {
        let r = bounded(text, next, false, T::MOST, Fault::Large);
        out[i] = T::from_u64(r.value);
        next = r.next;
    }
    Listed { count, next }
}

// A list's first difference from an array, and the place behind the list.
#[derive(Clone, Copy)]
pub struct Checked {
    pub found: Option<usize>,
    pub next: Cursor,
}

// What an array must hold: the list of the text at its front, and behind it the numbers that stood there before the call.
fn expected(text: &[u8], p: Cursor, wanted: &mut [u64]) -> Cursor
    ensures next { result ≡ (list_at most_wide text.now (length wanted.old) p).next }
    ensures wanted { wanted.new ≡ wanted_at text.now (length wanted.old) p }
{
    replayed::fill(wanted);
    let l = list(text, p, wanted);
    l.next
}

// A difference counts only where the list could be read.
pub fn counted(p: Cursor, at: Option<usize>) -> Option<usize>
    ensures { result ≡ sound p at }
{
    if p.fault.is_some() {
        return None;
    }
    at
}

fn differs<T: Number>(next: Cursor, wanted: &[u64], found: &[T]) -> Option<usize>
    ensures { result ≡ sound next (difference 0 wanted.now (T.values found.now)) }
{
    counted(next, replayed::first_difference(wanted, found))
}

// A list of the text against an array. The scratch array has its room.
pub fn check<T: Number>(text: &[u8], p: Cursor, scratch: &mut [u64], found: &[T]) -> Checked
    requires { length found.now ≤ length scratch.old }
    ensures { result ≡ checked_at text.now (T.values found.now) p }
{
    let n = found.len();
    let wanted = &mut scratch[..n];
    let next = expected(text, p, wanted);
    let found = differs(next, wanted, found);
    Checked { found, next }
}

// A call that is asked: its number, its part, the room of each array that is lent to it, and the place behind its head.
#[derive(Clone, Copy)]
pub struct Asked {
    pub code: usize,
    pub part: u32,
    pub a: usize,
    pub b: usize,
    pub c: usize,
    pub d: usize,
    pub e: usize,
    pub work: usize,
    pub next: Cursor,
}

// The next call that is asked.
pub fn next_call(text: &[u8], p: Cursor) -> Asked
    ensures is { result ≡ asked_at text.now p }
    ensures within { Within result }
{
    let code = bounded(text, p, true, 99, Fault::Long);
    let part = bounded(text, code.next, true, 4294967295, Fault::Large);
    let a = bounded(text, part.next, true, 45056, Fault::Long);
    let b = bounded(text, a.next, true, 45056, Fault::Long);
    let c = bounded(text, b.next, true, 45056, Fault::Long);
    let d = bounded(text, c.next, true, 45056, Fault::Long);
    let e = bounded(text, d.next, true, 45056, Fault::Long);
    let work = bounded(text, e.next, true, 45056, Fault::Long);
    let next = work.next;
    Asked {
        code: code.value as usize,
        part: part.value as u32,
        a: a.value as usize,
        b: b.value as usize,
        c: c.value as usize,
        d: d.value as usize,
        e: e.value as usize,
        work: work.value as usize,
        next,
    }
}
