// Section 10, codes 2 and 3: the events of one track that are off the measure, and system events.
#![tactic(auto)]

ghost use Rattle.std.specs.Prelude.{◌*◌, ◌/◌, ◌≤◌, ◌<◌, ◌^◌, true, ◌≡◌, length};
ghost use Rattle.rules.specs.Lists.{All};
ghost use Rattle.rules.specs.Piece.{largest_size, byte_b, upper_figure, lower_figure, well_formed};
ghost use Rattle.track_events.specs.Track.{events_of};
ghost use Rattle.findings.specs.Found.{Found, FoundIn};
ghost use Rattle.event_diagnostics.specs.Groups.{meter_in, meter_length, off_measure, code_of, is_found, found_one, found_of, Searchable};

use track_events::{Kind, is_kind};

// The length of a meter's word.
fn length_of(p: u64, word: u32) -> u64
    requires { (p ≤ largest_size) × (byte_b word ≤ 7) }
    ensures { result ≡ 4 * p * upper_figure word / lower_figure word }
{
    let upper = u64::from(track_events::byte_a(word));
    let lower = u64::from(changes::lower_of(word));
    4 * p * upper / lower
}

// The length of the first meter at any tick, else of 4/4. It may be 0.
pub fn first_meter_length(p: u64, words: &[u32]) -> u64
    requires { (p ≤ largest_size) × All (λ w. well_formed w ≡ true) words.now }
    ensures { result ≡ meter_length p (meter_in words.now) }
{
    for w in words {
        if is_kind(*w, Kind::Meter) {
            return length_of(p, *w);
        }
    }
    4 * p
}

// Whether a tempo or meter is after tick 0 and not at a multiple of the length; length 0 gives none.
fn is_off_measure(length: u64, tick: u64, word: u32) -> bool
    ensures { result ≡ off_measure length tick word }
{
    let changes = is_kind(word, Kind::Tempo) || is_kind(word, Kind::Meter);
    changes && length != 0 && tick % length != 0
}

// What is looked for: events off the measure, of this length, or system events.
#[derive(Clone, Copy)]
pub enum Group {
    OffMeasure(u64),
    System,
}

// Its code.
fn code_of(group: Group) -> u64
    ensures { result ≡ code_of group }
{
    match group {
        Group::OffMeasure(_) => 2,
        Group::System => 3,
    }
}

fn is_found(group: Group, tick: u64, word: u32) -> bool
    ensures { result ≡ is_found group tick word }
{
    match group {
        Group::OffMeasure(length) => is_off_measure(length, tick, word),
        Group::System => is_kind(word, Kind::System),
    }
}

// Puts an event that is looked for.
fn put_event(
    group: Group,
    track: u64,
    event: usize,
    tick: u64,
    word: u32,
    at: usize,
    places: &mut [u64],
    details: &mut [u64],
) -> usize
    requires { (track ≤ largest_size) × (event < 2 ^ 32) × (tick < 2 ^ 47) × (at < 2 ^ 32) }
    ensures { Found (found_one group track (record { number = event; tick = tick; word = word })) at
        places.old details.old result places.new details.new }
{
    if is_found(group, tick, word) {
        let d = findings::at_event(code_of(group), track, event as u64, tick);
        findings::put(places, details, at, d)
    } else {
        at
    }
}

// The events of one track that are looked for.
pub fn find_events(
    group: Group,
    track: u64,
    deltas: &[u32],
    words: &[u32],
    at: usize,
    places: &mut [u64],
    details: &mut [u64],
) -> usize
    requires { Searchable deltas.now words.now track at }
    ensures { FoundIn (found_of group track (events_of deltas.now words.now)) (length deltas.now) at
        places.old details.old result places.new details.new }
{
    let mut next = at;
    let mut tick = 0;
    for i in 0..deltas.len() {
        tick += u64::from(deltas[i]);
        next = put_event(group, track, i, tick, words[i], next, places, details);
    }
    next
}
