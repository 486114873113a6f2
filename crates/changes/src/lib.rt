// Section 3: tempo, meter and key changes, the head of a piece and the head of a part.
#![tactic(auto)]

ghost use Rattle.std.specs.Prelude.{◌<◌, ◌≡◌, true};
ghost use Rattle.std.specs.Option.{option_or};
ghost use Rattle.rules.specs.Piece.{byte_b, lower_figure, signed_fifths, well_formed};
ghost use Rattle.rules.specs.Changes.{tempo_of, clamp_fifths, head_in};
ghost use Rattle.track_events.specs.Track.{Track, events_of};
ghost use Rattle.changes.specs.Heads.{HeadIs, PartHeadIs};
ghost use Rattle.changes.specs.Reads.{tempo_in, meter_in, key_in, took, head_read};

use track_events::Kind;

// A key: its fifths are -7 to 7.
#[derive(Clone, Copy)]
pub struct Key {
    pub fifths: i32,
    pub minor: bool,
}

// The head of a piece.
#[derive(Clone, Copy)]
pub struct Head {
    pub tempo: u32,
    pub upper: u32,
    pub lower: u32,
    pub key: Option<Key>,
}

// The head of a part.
#[derive(Clone, Copy)]
pub struct PartHead {
    pub channel: u32,
    pub program: u32,
}

// Beats per minute of a tempo's microseconds per quarter: kept modulo 65,536, then clamped to 1 to 999.
pub fn tempo_of(value: u32) -> u32
    requires { 0 < value }
    ensures { result ≡ tempo_of value }
{
    (60000000 / value % 65536).clamp(1, 999)
}

// The lower figure of a meter's word, from its power.
pub fn lower_of(w: u32) -> u32
    requires { byte_b w < 32 }
    ensures { result ≡ lower_figure w }
{
    let power = track_events::byte_b(w);
    1u32 << power
}

// The fifths of a key's word, a signed byte clamped to -7 to 7: the bytes 249 to 255 are -7 to -1.
pub fn fifths_of(w: u32) -> i32
    ensures { result ≡ clamp_fifths (signed_fifths w) }
{
    let a = track_events::byte_a(w);
    if a < 8 {
        return a as i32;
    }
    if a < 128 {
        return 7;
    }
    if a < 249 {
        return -7;
    }
    a as i32 - 256
}

// The figures of a meter.
#[derive(Clone, Copy)]
struct Meter {
    upper: u32,
    lower: u32,
}

// The tempo of a tempo's word; a value of 0 gives none.
fn tempo_in(w: u32) -> Option<u32>
    ensures { result ≡ tempo_in w }
{
    let value = track_events::tempo_value(w);
    if value == 0 {
        return None;
    }
    Some(tempo_of(value))
}

// The tempo that was read, or else that of a tempo's word, which is worked out only where it is asked for.
fn first_tempo(read: Option<u32>, w: u32) -> Option<u32>
    ensures { result ≡ option_or read (tempo_in w) }
{
    match read {
        Some(tempo) => Some(tempo),
        None => tempo_in(w),
    }
}

// The meter of a meter's word.
fn meter_in(w: u32) -> Meter
    requires { byte_b w < 32 }
    ensures { result ≡ meter_in w }
{
    Meter {
        upper: track_events::byte_a(w),
        lower: lower_of(w),
    }
}

// The key of a key's word.
fn key_in(w: u32) -> Key
    ensures { result ≡ key_in w }
{
    Key {
        fifths: fifths_of(w),
        minor: track_events::byte_b(w) == 1,
    }
}

// What is read of the head so far.
#[derive(Clone, Copy)]
struct Reading {
    tempo: Option<u32>,
    meter: Option<Meter>,
    key: Option<Key>,
}

impl Reading {
    const NOTHING: Self = Self {
        tempo: None,
        meter: None,
        key: None,
    };

    // One event of tick 0: the first change of each sort stands.
    fn take(mut self, word: u32) -> Self
        requires { well_formed word ≡ true }
        ensures { result ≡ took self word }
    {
        let Some(kind) = track_events::known_kind(word) else {
            return self;
        };
        match kind {
            Kind::Tempo => self.tempo = first_tempo(self.tempo, word),
            Kind::Meter => self.meter = self.meter.or(Some(meter_in(word))),
            Kind::Key => self.key = self.key.or(Some(key_in(word))),
            _ => {}
        }
        self
    }

    fn done(self) -> Head
        ensures { result ≡ head_read self }
    {
        let meter = self.meter.unwrap_or(Meter { upper: 4, lower: 4 });
        Head {
            tempo: self.tempo.unwrap_or(120),
            upper: meter.upper,
            lower: meter.lower,
            key: self.key,
        }
    }
}

// The head of a track: the first tempo and the first meter of tick 0, and the very first key if at tick 0.
pub fn read_head(deltas: &[u32], words: &[u32]) -> Head
    requires { Track deltas.now words.now }
    ensures { HeadIs (head_in (events_of deltas.now words.now)) result }
{
    let mut read = Reading::NOTHING;
    for i in 0..deltas.len() {
        if 0 < deltas[i] {
            return read.done();
        }
        read = read.take(words[i]);
    }
    read.done()
}

// The head of a part: its first program change, else channel 0, program 0.
pub fn extract_program(words: &[u32]) -> PartHead
    ensures { PartHeadIs words.now result }
{
    for w in words {
        if track_events::is_kind(*w, Kind::Program) {
            return PartHead {
                channel: track_events::byte_a(*w),
                program: track_events::byte_b(*w),
            };
        }
    }
    PartHead {
        channel: 0,
        program: 0,
    }
}
