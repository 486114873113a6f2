// The pairing of ons and offs: starts that wait for their offs, in a queue for each channel and key, the oldest first.
//
// heads[c][k] and tails[c][k] lead to the first and the last start of channel c and key k. A start's node is its number as it
// came, 0, 1, ..; a head, a tail or a link holds the node + 1, and 0 for none. The work area is columns of n words: node i has its
// link in column 4, work[4 * n + i], its tick in column 5 and its event's number in column 6. Other columns are not touched.
#![tactic(auto)]

ghost use Rattle.std.specs.Prelude.{ℕ, ◌*◌, ◌≤◌, ◌<◌, List, length};
ghost use Rattle.rules.specs.Lists.{All};
ghost use Rattle.rules.specs.RawNotes.{NoteEvent, Pairing, by_channel};
ghost use Rattle.pairing.specs.Outcome.{Ready, Stepped};
ghost use Rattle.pairing.specs.Queues.{Queues};
ghost use Rattle.pairing.specs.Steps.{IsStart, Wrote, Pushable, Pushed, Queued, Popped, Somewhere, First, Waiting, Taken};

// A start that was taken from its queue: its tick and its event's number.
#[derive(Clone, Copy)]
pub struct Start {
    pub tick: u64,
    pub number: u64,
}

// A start still pending, taken by channel, key, arrival: its queue is channel * 128 + key.
#[derive(Clone, Copy)]
pub struct Unclosed {
    pub queue: usize,
    pub tick: u64,
    pub number: u64,
}

// What an event was: no note event; a start; an off that closed a start; an off with nothing pending.
#[derive(Clone, Copy)]
pub enum Paired {
    Other,
    Started,
    Closed(Start),
    Unmatched,
}

// Writes node m, with no link.
fn write_node(work: &mut [u64], n: usize, m: usize, tick: u64, number: u64)
    requires { (m < n) × (16 * n ≤ length work.old) }
    ensures { Wrote work.old work.new n m tick number }
{
    work[4 * n + m] = 0;
    work[5 * n + m] = tick;
    work[6 * n + m] = number;
}

// Puts a start, node m, behind the queue of channel c and key k.
fn push(
    heads: &mut [[u32; 128]; 16],
    tails: &mut [[u32; 128]; 16],
    work: &mut [u64],
    n: usize,
    m: usize,
    c: usize,
    k: usize,
    tick: u64,
    number: u64,
)
    requires { Pushable heads.old tails.old work.old n m c k }
    ensures { (ps : List NoteEvent) (s : NoteEvent)
        → Queues heads.old tails.old work.old n m ps
        → IsStart s c k tick number
        → Pushed heads.new tails.new work.old work.new n m ps s }
{
    write_node(work, n, m, tick, number);
    let last = tails[c][k] as usize;
    if heads[c][k] == 0 {
        heads[c][k] = (m + 1) as u32;
        tails[c][k] = (m + 1) as u32;
    } else {
        work[4 * n + (last - 1)] = (m + 1) as u64;
        tails[c][k] = (m + 1) as u32;
    }
}

// Takes the oldest start of channel c and key k.
fn pop(heads: &mut [[u32; 128]; 16], work: &[u64], n: usize, c: usize, k: usize) -> Start
    requires { Queued heads.old work.now n c k }
    ensures { (t : List (List ℕ)) (m : ℕ) (ps : List NoteEvent)
        → Queues heads.old t work.now n m ps
        → Popped heads.new t work.now n m c k ps result }
{
    let i = heads[c][k] as usize - 1;
    heads[c][k] = work[4 * n + i] as u32;
    Start {
        tick: work[5 * n + i],
        number: work[6 * n + i],
    }
}

// One event of a track, at its tick and with its number: a start is put behind its queue, an off takes the oldest start of its
// channel and key. m starts came before.
pub fn pair_event(
    heads: &mut [[u32; 128]; 16],
    tails: &mut [[u32; 128]; 16],
    work: &mut [u64],
    n: usize,
    m: usize,
    tick: u64,
    number: u64,
    w: u32,
) -> Paired
    requires { Ready heads.old tails.old work.old n m w }
    ensures { (x : Pairing)
        → Queues heads.old tails.old work.old n m x.pending
        → Stepped x (record { number = number; tick = tick; word = w }) n m result heads.new tails.new work.old work.new }
{
    let x = track_events::take_apart(w);
    let c = x.a as usize;
    let k = x.b as usize;
    if track_events::is_on(w) {
        push(heads, tails, work, n, m, c, k, tick, number);
        return Paired::Started;
    }
    if track_events::is_off(w) {
        if heads[c][k] == 0 {
            return Paired::Unmatched;
        }
        return Paired::Closed(pop(heads, work, n, c, k));
    }
    Paired::Other
}

// The first queue from `from` on that is not empty.
fn first_waiting(heads: &[[u32; 128]; 16], from: usize) -> usize
    requires { Somewhere heads.now from }
    ensures { First heads.now from result }
{
    for q in from..2048 {
        if heads[q / 128][q % 128] != 0 {
            return q;
        }
    }
    unreachable!()
}

// Takes the first of the starts still pending, by channel, key, arrival; none is of a queue before `from`.
pub fn take_pending(heads: &mut [[u32; 128]; 16], work: &[u64], n: usize, from: usize) -> Unclosed
    requires { Waiting heads.old work.now n from }
    ensures { (t : List (List ℕ)) (m : ℕ) (ps : List NoteEvent)
        → Queues heads.old t work.now n m ps
        → All (λ (s : NoteEvent). from ≤ by_channel s) ps
        → Taken heads.new t work.now n m ps result }
{
    let q = first_waiting(heads, from);
    let s = pop(heads, work, n, q / 128, q % 128);
    Unclosed {
        queue: q,
        tick: s.tick,
        number: s.number,
    }
}
