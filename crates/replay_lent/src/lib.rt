// What is lent to a call that is asked: arrays full of other numbers, for proof read with the lists of the text at their fronts; and the call made in them.
#![tactic(auto)]

ghost use Rattle.std.specs.Prelude.{◌≡◌, length};
ghost use Rattle.rules.specs.Piece.{piece};
ghost use Rattle.replayed.specs.Differences.{others};
ghost use Rattle.replay_calls.specs.Outcomes.{left};
ghost use Rattle.replay_lent.specs.Lent.{lists_at, Loaded, given_to, lent, leaves, Cut};

use replay_text::{Asked, Cursor};

// The number of the call whose lists are given to it.
const PROOF_READ: usize = 11;

// The text's first four lists, which stand behind the answer, to the fronts of the arrays.
fn load(
    text: &[u8],
    p: Cursor,
    said: &mut [u64],
    a: &mut [u64],
    b: &mut [u64],
    c: &mut [u32],
    d: &mut [u32],
)
    ensures { Loaded
        (lists_at text.now p (length said.old) (length a.old) (length b.old)
        (length c.old) (length d.old))
        a.old b.old c.old d.old
        a.new b.new c.new d.new }
{
    let answer = replay_text::list(text, p, said);
    let first = replay_text::list(text, answer.next, a);
    let second = replay_text::list(text, first.next, b);
    let third = replay_text::list(text, second.next, c);
    replay_text::list(text, third.next, d);
}

// The lists that are given to the call.
fn give(
    text: &[u8],
    q: Asked,
    said: &mut [u64],
    a: &mut [u64],
    b: &mut [u64],
    c: &mut [u32],
    d: &mut [u32],
)
    requires { Cut q said.old a.old b.old c.old d.old }
    ensures { Loaded (given_to text.now q) a.old b.old c.old d.old
        a.new b.new c.new d.new }
{
    if q.code == PROOF_READ {
        load(text, q.next, said, a, b, c, d);
    }
}

// Other numbers in the arrays that are lent.
fn fill(a: &mut [u64], b: &mut [u64], c: &mut [u32], d: &mut [u32], e: &mut [u32], work: &mut [u64])
    ensures { (a.new ≡ others 0 (length a.old)) × (b.new ≡ others 0 (length b.old))
        × (c.new ≡ others 0 (length c.old)) × (d.new ≡ others 0 (length d.old))
        × (e.new ≡ others 0 (length e.old)) × (work.new ≡ others 0 (length work.old)) }
{
    replayed::fill(a);
    replayed::fill(b);
    replayed::fill(c);
    replayed::fill(d);
    replayed::fill(e);
    replayed::fill(work);
}

// What is lent to the call.
fn prepare(
    text: &[u8],
    q: Asked,
    said: &mut [u64],
    a: &mut [u64],
    b: &mut [u64],
    c: &mut [u32],
    d: &mut [u32],
    e: &mut [u32],
    work: &mut [u64],
)
    requires { Cut q said.old a.old b.old c.old d.old × (length e.old ≡ q.e) × (length work.old ≡ q.work) }
    ensures { left said.new a.new b.new c.new d.new e.new work.new
        ≡ lent text.now q }
{
    fill(a, b, c, d, e, work);
    give(text, q, said, a, b, c, d);
    replayed::fill(said);
}

// Makes the call that is asked in what is lent to it.
pub fn make(
    text: &[u8],
    q: Asked,
    sizes: &[u32],
    deltas: &[u32],
    words: &[u32],
    bytes: &[u8],
    said: &mut [u64],
    a: &mut [u64],
    b: &mut [u64],
    c: &mut [u32],
    d: &mut [u32],
    e: &mut [u32],
    work: &mut [u64],
)
    requires { Cut q said.old a.old b.old c.old d.old × (length e.old ≡ q.e) × (length work.old ≡ q.work) }
    ensures { left said.new a.new b.new c.new d.new e.new work.new
        ≡ leaves text.now (piece sizes.now deltas.now words.now) bytes.now q }
{
    prepare(text, q, said, a, b, c, d, e, work);
    replay_calls::call(
        q.code, q.part, sizes, deltas, words, bytes, a, b, c, d, e, work, said,
    );
}
