// Ticks of a piece and ticks of its automation, section 9: two types, and one conversion.
#![tactic(auto)]

ghost use Rattle.std.specs.Prelude.{◌+◌, ◌≤◌, ◌<◌, ◌^◌, ◌≡◌};
ghost use Rattle.rules.specs.Piece.{largest_size};
ghost use Rattle.rules.specs.Automation.{automation_tick};

// A tick of the piece, as its notes have it.
#[derive(Clone, Copy, Debug, PartialEq, Eq)]
pub struct SourceTick(pub u64);

// A tick at 480 per quarter.
#[derive(Clone, Copy)]
pub struct AutomationTick(pub u64);

impl SourceTick {
    // The tick of an event that comes delta later.
    pub fn after(self, delta: u32) -> SourceTick
        requires { self.0 < 2 ^ 47 }
        ensures { result.0 ≡ self.0 + delta }
    {
        SourceTick(self.0 + delta as u64)
    }

    // The only way from a source tick to an automation tick.
    pub fn normalize_tick(self, p: u64) -> AutomationTick
        requires { (self.0 < 2 ^ 48) × (0 < p) × (p ≤ largest_size) }
        ensures { result.0 ≡ automation_tick p self.0 }
    {
        AutomationTick((self.0 * 480 + p / 2) / p)
    }
}
