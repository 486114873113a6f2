// One diagnostic of section 10, and the one place where diagnostics are written.
//
// A diagnostic is put where the outputs have room for it, so that counting is the same work with outputs of the counter's own.
#![tactic(auto)]

ghost use Rattle.std.specs.Prelude.{◌<◌, ◌^◌, [], ◌∷◌, ◌≡◌, set};
ghost use Rattle.rules.specs.Diagnostics.{place_of, detail_of};
ghost use Rattle.findings.specs.Found.{diagnostic_of, event_at, Packs, Found};

#[derive(Clone, Copy)]
pub struct Diagnostic {
    pub code: u64,
    pub track: u64,
    pub event: u64,
    pub tick: u64,
    pub channel: u64,
    pub key: u64,
}

// At an event, with no channel and key.
pub fn at_event(code: u64, track: u64, event: u64, tick: u64) -> Diagnostic
    ensures { result ≡ event_at code track event tick }
{
    Diagnostic {
        code,
        track,
        event,
        tick,
        channel: 255,
        key: 255,
    }
}

impl Diagnostic {
    fn place(self) -> u64
        requires { Packs self }
        ensures { result ≡ place_of (diagnostic_of self) }
    {
        self.code * 281474976710656 + self.track * 4294967296 + self.event
    }

    fn detail(self) -> u64
        requires { Packs self }
        ensures { result ≡ detail_of (diagnostic_of self) }
    {
        self.tick * 65536 + self.channel * 256 + self.key
    }
}

// Stores x at i, where the array has room for it.
fn store(l: &mut [u64], i: usize, x: u64)
    ensures { l.new ≡ set l.old i x }
{
    if i < l.len() {
        l[i] = x;
    }
}

// Puts a diagnostic, and answers where the next goes: the one place where the outputs are written.
pub fn put(places: &mut [u64], details: &mut [u64], at: usize, d: Diagnostic) -> usize
    requires { Packs d × (at < 2 ^ 32) }
    ensures { Found (diagnostic_of d ∷ []) at places.old details.old result places.new details.new }
{
    let place = d.place();
    let detail = d.detail();
    store(places, at, place);
    store(details, at, detail);
    at + 1
}
