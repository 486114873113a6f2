// One call of a list: read from the text, made in arrays full of other numbers, and all that it left compared with the list.
#![tactic(auto)]

ghost use Rattle.std.specs.Prelude.{◌≤◌, ◌≡◌, length};
ghost use Rattle.rules.specs.Piece.{piece};
ghost use Rattle.replay_calls.specs.Outcomes.{left};
ghost use Rattle.replay_one.specs.Comparing.{compared_at, uncompared, called_at, wrong_of};
ghost use Rattle.replay_one.specs.Rooms.{CutTo, Roomy};
ghost use Rattle.replay_lent.specs.Lent.{leaves};

use replay_text::{Asked, Cursor};

// What a call left, against the text: the first difference of the answer, of each list and of the work area, and the place behind the call.
#[derive(Clone, Copy)]
pub struct Compared {
    pub said: Option<usize>,
    pub a: Option<usize>,
    pub b: Option<usize>,
    pub c: Option<usize>,
    pub d: Option<usize>,
    pub e: Option<usize>,
    pub work: Option<usize>,
    pub next: Cursor,
}

// What the call left, against the text.
fn compare(
    text: &[u8],
    p: Cursor,
    scratch: &mut [u64],
    said: &[u64],
    a: &[u64],
    b: &[u64],
    c: &[u32],
    d: &[u32],
    e: &[u32],
    work: &[u64],
) -> Compared
    requires { (length said.now ≤ length scratch.old) × (length a.now ≤ length scratch.old) × (length b.now ≤ length scratch.old)
        × (length c.now ≤ length scratch.old) × (length d.now ≤ length scratch.old) × (length e.now ≤ length scratch.old) }
    ensures { result ≡ compared_at text.now p
        (left said.now a.now b.now c.now d.now e.now work.now) }
{
    let answer = replay_text::check(text, p, scratch, said);
    let first = replay_text::check(text, answer.next, scratch, a);
    let second = replay_text::check(text, first.next, scratch, b);
    let third = replay_text::check(text, second.next, scratch, c);
    let fourth = replay_text::check(text, third.next, scratch, d);
    let fifth = replay_text::check(text, fourth.next, scratch, e);
    let next = fifth.next;
    let zero = replay_text::counted(next, replayed::first_not_zero(work));
    let in_said = answer.found;
    let in_a = first.found;
    let in_b = second.found;
    let in_c = third.found;
    let in_d = fourth.found;
    let in_e = fifth.found;
    Compared {
        said: in_said,
        a: in_a,
        b: in_b,
        c: in_c,
        d: in_d,
        e: in_e,
        work: zero,
        next,
    }
}

// Makes the call that is asked and compares all that it left.
fn ask(
    text: &[u8],
    q: Asked,
    sizes: &[u32],
    deltas: &[u32],
    words: &[u32],
    bytes: &[u8],
    scratch: &mut [u64],
    a: &mut [u64],
    b: &mut [u64],
    c: &mut [u32],
    d: &mut [u32],
    e: &mut [u32],
    work: &mut [u64],
) -> Compared
    requires { CutTo q (length scratch.old) a.old b.old c.old d.old e.old work.old }
    ensures { result ≡ compared_at text.now q.next
        (leaves text.now (piece sizes.now deltas.now words.now) bytes.now q) }
{
    let mut said = [0u64; 8];
    replay_lent::make(
        text, q, sizes, deltas, words, bytes, &mut said, a, b, c, d, e, work,
    );
    compare(text, q.next, scratch, &said, a, b, c, d, e, work)
}

// Nothing is compared where the call could not be read.
fn unread(next: Cursor) -> Compared
    ensures { result ≡ uncompared next }
{
    Compared {
        said: None,
        a: None,
        b: None,
        c: None,
        d: None,
        e: None,
        work: None,
        next,
    }
}

// The next call of the text: read, made on a piece or a file's bytes, and compared.
pub fn one(
    text: &[u8],
    p: Cursor,
    sizes: &[u32],
    deltas: &[u32],
    words: &[u32],
    bytes: &[u8],
    scratch: &mut [u64],
    a: &mut [u64],
    b: &mut [u64],
    c: &mut [u32],
    d: &mut [u32],
    e: &mut [u32],
    work: &mut [u64],
) -> Compared
    requires { Roomy scratch.old a.old b.old c.old d.old e.old work.old }
    ensures { result ≡ called_at text.now (piece sizes.now deltas.now words.now) bytes.now p }
{
    let q = replay_text::next_call(text, p);
    let behind = q.next;
    if behind.fault.is_some() {
        return unread(behind);
    }
    let la = q.a;
    let lb = q.b;
    let lc = q.c;
    let ld = q.d;
    let le = q.e;
    let lw = q.work;
    ask(
        text,
        q,
        sizes,
        deltas,
        words,
        bytes,
        scratch,
        &mut a[..la],
        &mut b[..lb],
        &mut c[..lc],
        &mut d[..ld],
        &mut e[..le],
        &mut work[..lw],
    )
}

// How many of the seven differ.
pub fn count_wrong(r: Compared) -> u64
    ensures is { result ≡ wrong_of r }
    ensures few { result ≤ 7 }
{
    let said = r.said;
    let a = r.a;
    let b = r.b;
    let c = r.c;
    let d = r.d;
    let e = r.e;
    let work = r.work;
    replayed::different(said)
        + replayed::different(a)
        + replayed::different(b)
        + replayed::different(c)
        + replayed::different(d)
        + replayed::different(e)
        + replayed::different(work)
}
