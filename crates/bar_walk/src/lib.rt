// Section 4: the bars of a piece, walked one by one.
#![tactic(auto)]

ghost use Rattle.std.specs.Prelude.{◌<◌, ◌≡◌, not, length};
ghost use Rattle.rules.specs.Piece.{byte_b};
ghost use Rattle.rules.specs.Changes.{same_meter};
ghost use Rattle.rules.specs.Bars.{bar_length, bars_in};
ghost use Rattle.track_events.specs.Track.{Track, events_of};
ghost use Rattle.bar_walk.specs.Steps.{meter_in, meter_before, new_walker, is_change, raised_fifths, took_tempo, took_meter, took_key, took_one, next_of, mark_in, Sane, Takes};
ghost use Rattle.bar_walk.specs.Walk.{first_walker, Ready, Skipped, Settled, CanWalk, Room, BarsAre};

use bar_marks::Mark;
use track_events::{Kind, is_kind};

// The walk along the bars. It stands at the start of a bar; the first `at` events are taken.
#[derive(Clone, Copy)]
pub struct Walker {
    // ticks per quarter
    pub p: u64,
    // the meter in force
    pub upper: u32,
    pub lower: u32,
    // the meter of the bar before; 0/0 before the first bar
    pub was_upper: u32,
    pub was_lower: u32,
    // the bar's start, and what is marked on it: tempo and fifths + 8, 0 where there is none, and minor
    pub start: u64,
    // Kept: no `Option`, since a mark packs these numbers as they are, and `Taking` and `AtBar` compare them with the mark's.
    pub tempo: u32,
    pub fifths: u32,
    pub minor: bool,
    // the next event, and the tick reached before it
    pub at: usize,
    pub tick: u64,
}

impl Walker {
    pub fn new(p: u64, upper: u32, lower: u32) -> Self
        ensures { result ≡ new_walker p upper lower }
    {
        Self {
            p,
            upper,
            lower,
            was_upper: 0,
            was_lower: 0,
            start: 0,
            tempo: 0,
            fifths: 0,
            minor: false,
            at: 0,
            tick: 0,
        }
    }

    // A tempo is marked where the bar starts at its tick, after tick 0; one of value 0 is skipped.
    fn take_tempo(mut self, word: u32) -> Self
        ensures { result ≡ took_tempo self word }
    {
        let value = track_events::tempo_value(word);
        if value == 0 {
            return self;
        }
        if self.tick != self.start {
            return self;
        }
        if 0 < self.start {
            self.tempo = changes::tempo_of(value);
        }
        self
    }

    fn take_meter(mut self, word: u32) -> Self
        requires { byte_b word < 32 }
        ensures { result ≡ took_meter self word }
    {
        self.upper = track_events::byte_a(word);
        self.lower = changes::lower_of(word);
        self
    }

    // A key is marked where the bar starts at its tick.
    fn take_key(mut self, word: u32) -> Self
        ensures { result ≡ took_key self word }
    {
        if self.tick == self.start {
            self.fifths = raised_fifths(word);
            self.minor = track_events::byte_b(word) == 1;
        }
        self
    }

    // Takes one event.
    pub fn take_one(mut self, delta: u32, word: u32) -> Self
        requires { Takes self word }
        ensures { result ≡ took_one self delta word }
    {
        self.tick += delta as u64;
        self.at += 1;
        let Some(kind) = track_events::known_kind(word) else {
            return self;
        };
        match kind {
            Kind::Tempo => self.take_tempo(word),
            Kind::Meter => self.take_meter(word),
            Kind::Key => self.take_key(word),
            _ => self,
        }
    }

    // Skips the events at or before the bar's start that change nothing.
    fn skip_to_change(self, deltas: &[u32], words: &[u32]) -> Self
        requires { Ready deltas.now words.now self }
        ensures { Skipped deltas.now words.now self result }
    {
        let mut tick = self.tick;
        for at in self.at..deltas.len() {
            let next = tick + deltas[at] as u64;
            if self.start < next || is_change(words[at]) {
                return Self { at, tick, ..self };
            }
            tick = next;
        }
        let at = deltas.len();
        Self { at, tick, ..self }
    }

    // Takes every change at or before the bar's start.
    pub fn take_changes(self, deltas: &[u32], words: &[u32]) -> Self
        requires { Ready deltas.now words.now self }
        ensures { Settled deltas.now words.now self result }
    {
        let mut w = self;
        // Kept: the walker goes on by one event or by many, so no range says where.
        while w.at < deltas.len() {
            let at = w.at;
            let delta = deltas[at];
            if w.start < w.tick + delta as u64 {
                return w;
            }
            if is_change(words[at]) {
                w = w.take_one(delta, words[at]);
            } else {
                w = w.skip_to_change(deltas, words);
            }
        }
        w
    }

    // The bar's length in ticks.
    pub fn length(self) -> u64
        requires { Sane self }
        ensures { result ≡ bar_length self.p (meter_in self) }
    {
        let length = 4 * self.p * self.upper as u64 / self.lower as u64;
        length.max(1)
    }

    // The next bar, before its changes are taken.
    pub fn next_bar(self) -> Self
        requires { Sane self }
        ensures { result ≡ next_of self }
    {
        let length = self.length();
        Self {
            was_upper: self.upper,
            was_lower: self.lower,
            start: self.start + length,
            tempo: 0,
            fifths: 0,
            minor: false,
            ..self
        }
    }

    // Whether the meter is printed: on bar 1, and where it differs from the bar before.
    pub fn printed(self) -> bool
        ensures { result ≡ not (same_meter (meter_before self) (meter_in self)) }
    {
        self.was_upper != self.upper || self.was_lower != self.lower
    }

    // The bar's mark.
    pub fn mark(self) -> u64
        ensures { result ≡ mark_in self }
    {
        bar_marks::pack(Mark {
            upper: self.upper,
            lower: self.lower,
            printed: self.printed(),
            tempo: self.tempo,
            fifths: self.fifths,
            minor: self.minor,
        })
    }
}

// Whether the word is a tempo, a meter or a key.
fn is_change(word: u32) -> bool
    ensures { result ≡ is_change word }
{
    is_kind(word, Kind::Tempo) || is_kind(word, Kind::Meter) || is_kind(word, Kind::Key)
}

// A key's fifths + 8, 1 to 15.
fn raised_fifths(word: u32) -> u32
    ensures { result ≡ raised_fifths word }
{
    (changes::fifths_of(word) + 8) as u32
}

// The walker at the first bar: tick 0, with the head's meter, and the changes of tick 0 taken.
pub fn first_bar(p: u64, deltas: &[u32], words: &[u32]) -> Walker
    requires { Track deltas.now words.now }
    ensures { Settled deltas.now words.now (first_walker deltas.now words.now p) result }
{
    let head = changes::read_head(deltas, words);
    Walker::new(p, head.upper, head.lower).take_changes(deltas, words)
}

// How many bars there are up to the end tick, max_bars of them at most.
pub fn count_bars(p: u64, deltas: &[u32], words: &[u32], end: u64, max_bars: usize) -> usize
    requires { CanWalk deltas.now words.now p end }
    ensures { result ≡ length (bars_in max_bars p (events_of deltas.now words.now) end) }
{
    let mut walker = first_bar(p, deltas, words);
    for before in 0..max_bars {
        walker = walker.next_bar();
        if end <= walker.start {
            return before + 1;
        }
        walker = walker.take_changes(deltas, words);
    }
    max_bars
}

// The bars up to the end tick, max_bars of them at most: their starts and marks, and how many they are.
pub fn midi_bars(
    p: u64,
    deltas: &[u32],
    words: &[u32],
    end: u64,
    max_bars: usize,
    starts: &mut [u64],
    marks: &mut [u64],
) -> usize
    requires { CanWalk deltas.now words.now p end
        × Room (bars_in max_bars p (events_of deltas.now words.now) end) starts.old marks.old }
    ensures { BarsAre (events_of deltas.now words.now)
        (bars_in max_bars p (events_of deltas.now words.now) end)
        starts.old marks.old result starts.new marks.new }
{
    let mut w = first_bar(p, deltas, words);
    for n in 0..max_bars {
        starts[n] = w.start;
        marks[n] = w.mark();
        w = w.next_bar();
        if end <= w.start {
            return n + 1;
        }
        w = w.take_changes(deltas, words);
    }
    max_bars
}
