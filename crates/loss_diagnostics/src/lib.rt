// Section 10: the diagnostics of a piece, as places and details. The queues of pending starts are made once; each track leaves
// them empty.
#![tactic(auto)]

ghost use Rattle.std.specs.Prelude.{◌+◌, ◌≤◌, ◌<◌, ◌^◌, [], map, ◌≡◌, length};
ghost use Rattle.rules.specs.Lists.{written};
ghost use Rattle.rules.specs.Piece.{piece, tracks};
ghost use Rattle.rules.specs.Diagnostics.{place_of, detail_of, timecode_found, off_measure_found, in_tracks, system_found, unmatched_found, diagnostics};
ghost use Rattle.laws.specs.Admitted.{Admitted};
ghost use Rattle.findings.specs.Found.{FoundIn};
ghost use Rattle.loss_diagnostics.specs.Pieces.{most_diagnostics, CanFind};

use event_diagnostics::{Group, find_events};
use track_events::cut;

// System events, track by track.
fn system_events(
    sizes: &[u32],
    deltas: &[u32],
    words: &[u32],
    at: usize,
    places: &mut [u64],
    details: &mut [u64],
) -> usize
    requires { Admitted (piece sizes.now deltas.now words.now) × (at + length deltas.now < 2 ^ 32) }
    ensures { FoundIn (in_tracks system_found 0 (tracks (piece sizes.now deltas.now words.now))) (length deltas.now) at
        places.old details.old result places.new details.new }
{
    let mut next = at;
    let mut from = 0;
    for i in 2..sizes.len() {
        let to = from + sizes[i] as usize;
        next = find_events(
            Group::System,
            (i - 2) as u64,
            cut(deltas, from, to),
            cut(words, from, to),
            next,
            places,
            details,
        );
        from = to;
    }
    next
}

// Offs without ons and ons without offs, track by track.
fn unmatched_tracks(
    sizes: &[u32],
    deltas: &[u32],
    words: &[u32],
    at: usize,
    places: &mut [u64],
    details: &mut [u64],
    work: &mut [u64],
    n: usize,
) -> usize
    requires { CanFind (piece sizes.now deltas.now words.now) work.old n × (at + length deltas.now < 2 ^ 32) }
    ensures { FoundIn (in_tracks unmatched_found 0 (tracks (piece sizes.now deltas.now words.now))) (length deltas.now) at
        places.old details.old result places.new details.new }
{
    let mut heads = [[0u32; 128]; 16];
    let mut tails = [[0u32; 128]; 16];
    let mut next = at;
    let mut from = 0;
    for i in 2..sizes.len() {
        let to = from + sizes[i] as usize;
        next = unmatched::unmatched_notes(
            cut(deltas, from, to),
            cut(words, from, to),
            &mut heads,
            &mut tails,
            work,
            n,
            (i - 2) as u64,
            next,
            places,
            details,
        );
        from = to;
    }
    next
}

// Timecode: bit 15 of the division.
fn find_timecode(sizes: &[u32], places: &mut [u64], details: &mut [u64]) -> usize
    requires { 0 < length sizes.now }
    ensures { FoundIn (timecode_found (piece sizes.now [] [])) 1 0
        places.old details.old result places.new details.new }
{
    if sizes[0] / 32768 % 2 == 1 {
        findings::put(places, details, 0, findings::at_event(1, 0, 0, 0))
    } else {
        0
    }
}

// Tempo and meter events of the first track off the measure.
fn find_off_measure(
    sizes: &[u32],
    deltas: &[u32],
    words: &[u32],
    at: usize,
    places: &mut [u64],
    details: &mut [u64],
) -> usize
    requires { Admitted (piece sizes.now deltas.now words.now) × (at + length deltas.now < 2 ^ 32) }
    ensures { FoundIn (off_measure_found (piece sizes.now deltas.now words.now)) (length deltas.now) at
        places.old details.old result places.new details.new }
{
    let p = tracks::ticks_per_quarter(sizes);
    let track = tracks::first_track(sizes);
    let from = track.from;
    let to = track.to;
    let deltas = cut(deltas, from, to);
    let words = cut(words, from, to);
    let length = event_diagnostics::first_meter_length(p, words);
    find_events(
        Group::OffMeasure(length),
        0,
        deltas,
        words,
        at,
        places,
        details,
    )
}

// Groups 1, 2, 3; then, track by track, 4 followed by 5.
fn find_all(
    sizes: &[u32],
    deltas: &[u32],
    words: &[u32],
    places: &mut [u64],
    details: &mut [u64],
    work: &mut [u64],
    n: usize,
) -> usize
    requires { CanFind (piece sizes.now deltas.now words.now) work.old n }
    ensures { FoundIn (diagnostics (piece sizes.now deltas.now words.now)) most_diagnostics 0
        places.old details.old result places.new details.new }
{
    let at = find_timecode(sizes, places, details);
    let at = find_off_measure(sizes, deltas, words, at, places, details);
    let at = system_events(sizes, deltas, words, at, places, details);
    unmatched_tracks(sizes, deltas, words, at, places, details, work, n)
}

// How many diagnostics a piece has. n is at least the most note-ons in one track.
pub fn count_diagnostics(
    sizes: &[u32],
    deltas: &[u32],
    words: &[u32],
    work: &mut [u64],
    n: usize,
) -> usize
    requires { CanFind (piece sizes.now deltas.now words.now) work.old n }
    ensures { (result ≡ length (diagnostics (piece sizes.now deltas.now words.now))) × (result ≤ most_diagnostics) }
{
    let mut places = [0u64; 1];
    let mut details = [0u64; 1];
    find_all(sizes, deltas, words, &mut places, &mut details, work, n)
}

// The diagnostics of a piece, written to outputs that have room for them.
pub fn loss_diagnostics(
    sizes: &[u32],
    deltas: &[u32],
    words: &[u32],
    places: &mut [u64],
    details: &mut [u64],
    work: &mut [u64],
    n: usize,
)
    requires { CanFind (piece sizes.now deltas.now words.now) work.old n
        × (length (diagnostics (piece sizes.now deltas.now words.now)) ≤ length places.old)
        × (length (diagnostics (piece sizes.now deltas.now words.now)) ≤ length details.old) }
    ensures places { places.new ≡ written (map place_of (diagnostics (piece sizes.now deltas.now words.now))) places.old }
    ensures details { details.new ≡ written (map detail_of (diagnostics (piece sizes.now deltas.now words.now))) details.old }
{
    find_all(sizes, deltas, words, places, details, work, n);
}
