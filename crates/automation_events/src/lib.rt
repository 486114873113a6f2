// Section 9: a part's bends, controllers, programs and pressures, at 480 ticks per quarter.
#![tactic(auto)]

ghost use Rattle.std.specs.Prelude.{◌<◌, true, ◌≡◌, length, set};
ghost use Rattle.rules.specs.Lists.{written};
ghost use Rattle.rules.specs.Piece.{well_formed};
ghost use Rattle.rules.specs.Automation.{automation_lists};
ghost use Rattle.rules.specs.Refusals.{most_events};
ghost use Rattle.track_events.specs.Track.{Track, events_of};
ghost use Rattle.auxiliary_channels.specs.Markers.{Drops};
ghost use Rattle.automation_events.specs.Kinds.{is_one, wanted, Counted, AtMost, AreCounts};
ghost use Rattle.automation_events.specs.Writing.{choice_of, CanPut, Put, HasRoom, Collected, CanCollect};

use automation_ticks::{AutomationTick, SourceTick};
use track_events::is_kind;

// The lists, in the order in which they are written.
#[derive(Clone, Copy)]
pub enum Kind {
    Bend,
    Controller,
    Program,
    Pressure,
}

// Whether a word is of a list's kinds; key and channel pressures are one list.
fn is_one(kind: Kind, word: u32) -> bool
    ensures { result ≡ is_one kind word }
{
    match kind {
        Kind::Bend => is_kind(word, track_events::Kind::Bend),
        Kind::Controller => is_kind(word, track_events::Kind::Controller),
        Kind::Program => is_kind(word, track_events::Kind::Program),
        Kind::Pressure => {
            is_kind(word, track_events::Kind::KeyPressure)
                || is_kind(word, track_events::Kind::ChannelPressure)
        }
    }
}

// Whether a word belongs to a list, on a channel that is not dropped.
fn is_wanted(kind: Kind, word: u32, dropped: [bool; 16]) -> bool
    requires { well_formed word ≡ true }
    ensures { result ≡ wanted kind dropped word }
{
    is_one(kind, word) && !dropped[track_events::byte_a(word) as usize]
}

// How many events each list has.
#[derive(Clone, Copy)]
pub struct Counts {
    pub bends: usize,
    pub controllers: usize,
    pub programs: usize,
    pub pressures: usize,
}

impl Counts {
    // One word more.
    fn count(self, word: u32, dropped: [bool; 16]) -> Self
        requires { (well_formed word ≡ true) × AtMost most_events self }
        ensures { Counted self dropped word result }
    {
        Counts {
            bends: self.bends + usize::from(is_wanted(Kind::Bend, word, dropped)),
            controllers: self.controllers + usize::from(is_wanted(Kind::Controller, word, dropped)),
            programs: self.programs + usize::from(is_wanted(Kind::Program, word, dropped)),
            pressures: self.pressures + usize::from(is_wanted(Kind::Pressure, word, dropped)),
        }
    }
}

// Counts the four lists in one pass.
pub fn count_automation(deltas: &[u32], words: &[u32], dropped: [bool; 16]) -> Counts
    requires { Track deltas.now words.now × Drops (events_of deltas.now words.now) dropped }
    ensures { AreCounts (events_of deltas.now words.now) result }
{
    let mut counts = Counts {
        bends: 0,
        controllers: 0,
        programs: 0,
        pressures: 0,
    };
    for word in words {
        counts = counts.count(*word, dropped);
    }
    counts
}

// ---- writing

// The one place where the outputs are written: only automation ticks get there.
fn put_event(ticks: &mut [u64], out: &mut [u32], n: usize, tick: AutomationTick, word: u32)
    requires { (n < length ticks.old) × (n < length out.old) }
    ensures ticks { ticks.new ≡ set ticks.old n tick.0 }
    ensures words { out.new ≡ set out.old n word }
{
    ticks[n] = tick.0;
    out[n] = word;
}

// What is written: the words of a kind on channels that are not dropped, at p ticks per quarter.
#[derive(Clone, Copy)]
struct Choice {
    kind: Kind,
    dropped: [bool; 16],
    p: u64,
}

impl Choice {
    fn new(kind: Kind, dropped: [bool; 16], p: u64) -> Self
        ensures { result ≡ choice_of dropped p kind }
    {
        Choice { kind, dropped, p }
    }
}

// Writes the event at n if it is chosen, and answers where the next goes.
fn put_chosen(
    ticks: &mut [u64],
    out: &mut [u32],
    n: usize,
    choice: Choice,
    tick: SourceTick,
    word: u32,
) -> usize
    requires { CanPut ticks.old out.old n choice tick.0 word }
    ensures { Put ticks.old out.old n choice tick.0 word result ticks.new out.new }
{
    let kind = choice.kind;
    let dropped = choice.dropped;
    if is_wanted(kind, word, dropped) {
        put_event(ticks, out, n, tick.normalize_tick(choice.p), word);
        n + 1
    } else {
        n
    }
}

// Writes one list of count events from n on, in track order, and answers where the next goes.
fn collect_kind(
    deltas: &[u32],
    words: &[u32],
    choice: Choice,
    count: usize,
    n: usize,
    ticks: &mut [u64],
    out: &mut [u32],
) -> usize
    requires { Track deltas.now words.now × HasRoom (events_of deltas.now words.now) choice count n ticks.old out.old }
    ensures { Collected (events_of deltas.now words.now) choice n
        ticks.old out.old result ticks.new out.new }
{
    let end = n + count;
    let mut next = n;
    let mut tick = SourceTick(0);
    for (i, delta) in deltas.iter().enumerate() {
        if next == end {
            return next;
        }
        tick = tick.after(*delta);
        next = put_chosen(ticks, out, next, choice, tick, words[i]);
    }
    next
}

// Writes the four lists, kind after kind; each pass ends with the last event of its list.
pub fn collect_automation(
    deltas: &[u32],
    words: &[u32],
    p: u64,
    dropped: [bool; 16],
    counts: Counts,
    ticks: &mut [u64],
    out: &mut [u32],
)
    requires { CanCollect deltas.now words.now p dropped counts ticks.old out.old }
    ensures ticks { ticks.new ≡ written (automation_lists p (events_of deltas.now words.now)).ticks ticks.old }
    ensures words { out.new ≡ written (automation_lists p (events_of deltas.now words.now)).words out.old }
{
    let bend = Choice::new(Kind::Bend, dropped, p);
    let controller = Choice::new(Kind::Controller, dropped, p);
    let program = Choice::new(Kind::Program, dropped, p);
    let pressure = Choice::new(Kind::Pressure, dropped, p);
    let n = collect_kind(deltas, words, bend, counts.bends, 0, ticks, out);
    let n = collect_kind(deltas, words, controller, counts.controllers, n, ticks, out);
    let n = collect_kind(deltas, words, program, counts.programs, n, ticks, out);
    collect_kind(deltas, words, pressure, counts.pressures, n, ticks, out);
}
