// Section 9: which channels of a part's track only mirror another, by its markers and its automation.
#![tactic(auto)]

ghost use Rattle.std.specs.Prelude.{◌<◌, ◌^◌, ◌≡◌, length};
ghost use Rattle.rules.specs.Lists.{keep};
ghost use Rattle.rules.specs.Automation.{is_automation_of, same_messages, counts?, mirrors};
ghost use Rattle.track_events.specs.Track.{Track, events_of};
ghost use Rattle.auxiliary_channels.specs.Markers.{marker, at_base, Channels, kept, added, taken, pairs_of, is_chained, none_chained, Mirrors, Drops};
ghost use Rattle.auxiliary_channels.specs.Mirror.{IsPlace, Behind, is_word_of, Next, same_bytes, Comparable, same_at};

use automation_ticks::SourceTick;
use track_events::Kind;

// ---- markers

// The base of each spare channel.
#[derive(Drop)]
struct Pairs {
    bases: [Option<u32>; 16],
}

// Whether a marker counts: both are channels, and not the same one.
fn is_pair(base: u32, spare: u32) -> bool
    ensures { result ≡ counts? (marker base spare) }
{
    base <= 15 && spare <= 15 && base != spare
}

impl Pairs {
    // A spare's first base is held; None where it is given another.
    fn add(&mut self, base: u32, spare: usize) -> Option<()>
        requires { spare < 16 }
        ensures { kept result self.new ≡ added self.old base spare }
    {
        let Some(held) = self.bases[spare] else {
            self.bases[spare] = Some(base);
            return Some(());
        };
        if held != base {
            return None;
        }
        Some(())
    }

    // A word that is no marker, or one that does not count, changes nothing.
    fn take_marker(&mut self, word: u32) -> Option<()>
        ensures { kept result self.new ≡ taken self.old word }
    {
        if !track_events::is_kind(word, Kind::Marker) {
            return Some(());
        }
        let base = track_events::byte_a(word);
        let spare = track_events::byte_b(word);
        if is_pair(base, spare) {
            self.add(base, spare as usize)
        } else {
            Some(())
        }
    }
}

// The pairs of a track's words; None where a spare is given two bases.
fn collect_markers(words: &[u32]) -> Option<Pairs>
    ensures { result ≡ pairs_of words.now }
{
    let mut pairs = Pairs { bases: [None; 16] };
    for word in words {
        pairs.take_marker(*word)?;
    }
    Some(pairs)
}

// Whether a channel is a spare whose base is a spare too.
fn is_chained(bases: [Option<u32>; 16], spare: usize) -> bool
    requires { Channels bases × (spare < 16) }
    ensures { result ≡ is_chained bases spare }
{
    let Some(base) = bases[spare] else {
        return false;
    };
    bases[base as usize].is_some()
}

// Whether no base is a spare.
fn none_chained(bases: [Option<u32>; 16]) -> bool
    requires { Channels bases }
    ensures { result ≡ none_chained bases }
{
    for spare in 0..16 {
        if is_chained(bases, spare) {
            return false;
        }
    }
    true
}

// ---- two channels compared

// Whether a word is automation on a channel.
fn is_automation_of(word: u32, channel: u32) -> bool
    ensures { result ≡ is_word_of channel word }
{
    // Kept: by the numbers of the first kind and the last, which stand in a row. By the kind as an enum, or kind by kind, the walk over a track with
    // many markers takes up to half as long again.
    let kind = track_events::kind_of(word);
    u32::from(Kind::KeyPressure) <= kind
        && kind <= u32::from(Kind::Bend)
        && track_events::byte_a(word) == channel
}

// A place in a track: an event's number, and the tick before it.
#[derive(Clone, Copy)]
struct Place {
    at: usize,
    tick: SourceTick,
}

impl Place {
    // The place behind the event.
    fn behind(self, deltas: &[u32]) -> Self
        requires { (self.at < length deltas.now) × (self.tick.0 < 2 ^ 47) }
        ensures { Behind deltas.now self result }
    {
        Place {
            at: self.at + 1,
            tick: self.tick.after(deltas[self.at]),
        }
    }

    // The next automation event of a channel, from this place on.
    fn next_of(self, deltas: &[u32], words: &[u32], channel: u32) -> Self
        requires { Track deltas.now words.now × IsPlace deltas.now self }
        ensures { Next deltas.now words.now channel self result }
    {
        let mut tick = self.tick;
        for at in self.at..words.len() {
            if is_automation_of(words[at], channel) {
                return Place { at, tick };
            }
            tick = tick.after(deltas[at]);
        }
        Place {
            at: words.len(),
            tick,
        }
    }
}

// Whether two words are the same message, the channel aside.
fn same_bytes(v: u32, w: u32) -> bool
    ensures { result ≡ same_bytes v w }
{
    let x = track_events::take_apart(v);
    let y = track_events::take_apart(w);
    // Kept: the kinds by their numbers; two Options of the enum are compared through jumps.
    x.number == y.number && x.b == y.b && x.c == y.c
}

// Whether the events at two places have the same tick and message. There is no event at the end.
fn same_message(deltas: &[u32], words: &[u32], x: Place, y: Place) -> bool
    requires { Comparable deltas.now words.now x y }
    ensures { result ≡ same_at deltas.now words.now x y }
{
    let i = x.at;
    let j = y.at;
    if words.len() <= j {
        return false;
    }
    let first = x.tick.after(deltas[i]);
    let second = y.tick.after(deltas[j]);
    first == second && same_bytes(words[i], words[j])
}

// Whether the spare's automation has the ticks and messages of the base's, in track order across the kinds.
fn mirrored_automation(deltas: &[u32], words: &[u32], base: u32, spare: u32) -> bool
    requires { Track deltas.now words.now }
    ensures { result ≡ same_messages
        (keep (is_automation_of base) (events_of deltas.now words.now))
        (keep (is_automation_of spare) (events_of deltas.now words.now)) }
{
    let start = Place {
        at: 0,
        tick: SourceTick(0),
    };
    let mut x = start.next_of(deltas, words, base);
    let mut y = start.next_of(deltas, words, spare);
    // Kept: each step goes to the next automation event, and the walk ends at a place found on the way.
    while x.at < words.len() {
        if !same_message(deltas, words, x, y) {
            return false;
        }
        x = x.behind(deltas).next_of(deltas, words, base);
        y = y.behind(deltas).next_of(deltas, words, spare);
    }
    y.at == words.len()
}

// ---- dropped channels

// Whether a channel has a base, and mirrors it.
fn is_mirror(deltas: &[u32], words: &[u32], base: Option<u32>, spare: u32) -> bool
    requires { Track deltas.now words.now }
    ensures { result ≡ at_base (λ b. mirrors (events_of deltas.now words.now) (marker b spare)) base }
{
    let Some(base) = base else {
        return false;
    };
    mirrored_automation(deltas, words, base, spare)
}

// Which channels are spares that mirror their base.
fn mirrored_channels(deltas: &[u32], words: &[u32], bases: [Option<u32>; 16]) -> [bool; 16]
    requires { Track deltas.now words.now }
    ensures { Mirrors (events_of deltas.now words.now) bases result }
{
    let mut mirrored = [false; 16];
    for spare in 0..16 {
        mirrored[spare] = is_mirror(deltas, words, bases[spare], spare as u32);
    }
    mirrored
}

// Which channels' automation is dropped: that of spares which mirror their base.
pub fn recognized_auxiliary_channels(deltas: &[u32], words: &[u32]) -> [bool; 16]
    requires { Track deltas.now words.now }
    ensures { Drops (events_of deltas.now words.now) result }
{
    let Some(pairs) = collect_markers(words) else {
        return [false; 16];
    };
    let bases = pairs.bases;
    if none_chained(bases) {
        mirrored_channels(deltas, words, bases)
    } else {
        [false; 16]
    }
}
