// The grid that a part's notes are snapped to.
#![tactic(auto)]

ghost use Rattle.std.specs.Prelude.{◌<◌, ◌≤◌, ◌^◌, ◌≡◌};
ghost use Rattle.rules.specs.Grid.{sixteenth, is_off_grid, grid, snap};
ghost use Rattle.rules.specs.Piece.{largest_size};
ghost use Rattle.rules.specs.RawNotes.{raw_notes};
ghost use Rattle.track_events.specs.Track.{Track, events_of};
ghost use Rattle.grid.specs.Counts.{counted};

// A sixteenth's ticks.
pub fn sixteenth(p: u64) -> u64
    ensures { result ≡ sixteenth p }
{
    (p / 4).max(1)
}

// Whether a start is off the sixteenths by more than a quarter of one.
pub fn is_off_grid(start: u64, p: u64) -> bool
    ensures { result ≡ is_off_grid p start }
{
    let sixteenth = sixteenth(p);
    let tolerance = sixteenth / 4;
    let offset = start % sixteenth;
    tolerance < offset && offset < sixteenth - tolerance
}

// The tick reached, the notes begun, and those of them off the grid.
#[derive(Clone, Copy)]
struct Starts {
    tick: u64,
    ons: u64,
    offs: u64,
}

// The same with one event more.
fn count_start(s: Starts, delta: u32, word: u32, p: u64) -> Starts
    requires { (s.tick < 2 ^ 48) × (s.ons < 2 ^ 48) × (s.offs < 2 ^ 48) }
    ensures { result ≡ counted p s delta word }
{
    let tick = s.tick + delta as u64;
    let on = track_events::is_on(word);
    Starts {
        tick,
        ons: s.ons + u64::from(on),
        offs: s.offs + u64::from(on && is_off_grid(tick, p)),
    }
}

// A part's grid, from its track: a thirty-second where more than a tenth of the notes begin off the sixteenths.
pub fn grid_ticks(deltas: &[u32], words: &[u32], p: u64) -> u64
    requires { Track deltas.now words.now }
    ensures { result ≡ grid p (raw_notes (events_of deltas.now words.now)) }
{
    let mut s = Starts {
        tick: 0,
        ons: 0,
        offs: 0,
    };
    for k in 0..deltas.len() {
        s = count_start(s, deltas[k], words[k], p);
    }
    if s.offs * 10 > s.ons {
        (p / 8).max(1)
    } else {
        sixteenth(p)
    }
}

// The nearest place on the grid; the later of two.
pub fn snap(tick: u64, grid: u64) -> u64
    requires { (0 < grid) × (tick < 2 ^ 48) × (grid ≤ largest_size) }
    ensures { result ≡ snap grid tick }
{
    (tick + grid / 2) / grid * grid
}
