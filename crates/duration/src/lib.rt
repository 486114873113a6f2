// The written values of section 6, as duration.rs has them: each by its name or its code, with its length in ticks and in beats.
#![tactic(auto)]

ghost use Rattle.std.specs.Prelude.{◌≡◌, ◌*◌, ◌^◌, ◌<◌};
ghost use Rattle.duration.specs.Calls.{code_of, fraction_of, coded_answer, coded_call, ticks_answer, ticks_call, measured_answer, Exactly};
ghost use Rattle.rules.specs.Calls.{beats_call};

use basics::Refusal;

const MOST_DOTS: u32 = 3;

// A power-of-two fraction of a whole note, with its code.
#[derive(Clone, Copy, Debug, PartialEq, Eq)]
pub enum Duration {
    Longa = 0,
    Breve = 1,
    Whole = 2,
    Half = 3,
    Quarter = 4,
    Eighth = 5,
    Sixteenth = 6,
    ThirtySecond = 7,
    SixtyFourth = 8,
    HundredTwentyEighth = 9,
}

#[derive(Clone, Copy, Debug, PartialEq, Eq)]
pub struct Fraction {
    pub num: u32,
    pub den: u32,
}

impl TryFrom<u32> for Duration {
    type Error = Refusal;

    ghost try_from_gives = { λ code answer. coded_answer answer ≡ coded_call code };

    fn try_from(code: u32) -> Result<Self, Refusal> {
        Duration::from_code(code)
    }
}

impl Duration {
    pub fn from_code(code: u32) -> Result<Duration, Refusal>
        ensures { coded_answer result ≡ coded_call code }
    {
        match code {
            0 => Ok(Duration::Longa),
            1 => Ok(Duration::Breve),
            2 => Ok(Duration::Whole),
            3 => Ok(Duration::Half),
            4 => Ok(Duration::Quarter),
            5 => Ok(Duration::Eighth),
            6 => Ok(Duration::Sixteenth),
            7 => Ok(Duration::ThirtySecond),
            8 => Ok(Duration::SixtyFourth),
            9 => Ok(Duration::HundredTwentyEighth),
            _ => Err(Refusal::OutOfRange),
        }
    }

    pub fn code(self) -> u32
        ensures { result ≡ code_of self }
    {
        self as u32
    }

    // Exactly, with a whole note as 1.
    pub fn as_fraction(self) -> Fraction
        ensures value { result ≡ fraction_of (code_of self) }
        ensures den_nonzero { (0 < result.den) × (result.num * 2 ^ code_of self ≡ 4 * result.den) }
    {
        match self {
            Duration::Longa => Fraction { num: 4, den: 1 },
            Duration::Breve => Fraction { num: 2, den: 1 },
            Duration::Whole => Fraction { num: 1, den: 1 },
            Duration::Half => Fraction { num: 1, den: 2 },
            Duration::Quarter => Fraction { num: 1, den: 4 },
            Duration::Eighth => Fraction { num: 1, den: 8 },
            Duration::Sixteenth => Fraction { num: 1, den: 16 },
            Duration::ThirtySecond => Fraction { num: 1, den: 32 },
            Duration::SixtyFourth => Fraction { num: 1, den: 64 },
            Duration::HundredTwentyEighth => Fraction { num: 1, den: 128 },
        }
    }

    // In ticks, 480 to a quarter. Each dot adds half, whole part, of what was added before it.
    pub fn to_ticks(self, dots: u32) -> Result<u32, Refusal>
        ensures { ticks_answer result ≡ ticks_call (code_of self) dots }
    {
        if dots > MOST_DOTS {
            return Err(Refusal::OutOfRange);
        }
        let f = self.as_fraction();
        let base = 4 * 480 * f.num / f.den;
        let mut ticks = base;
        let mut dot = base / 2;
        for _ in 0..dots {
            ticks += dot;
            dot /= 2;
        }
        Ok(ticks)
    }

    // In beats, a quarter as 1.0: summed dot by dot, and exact.
    pub fn beats(self, dots: u32) -> Result<f64, Refusal>
        ensures { Exactly (beats_call (code_of self) dots) (measured_answer result) }
    {
        if dots > MOST_DOTS {
            return Err(Refusal::OutOfRange);
        }
        let f = self.as_fraction();
        let base = 4.0 * f.num as f64 / f.den as f64;
        let mut total = base;
        let mut dot = base / 2.0;
        for _ in 0..dots {
            total += dot;
            dot /= 2.0;
        }
        Ok(total)
    }
}

// The beats of a code.
pub fn beats_of(code: u32, dots: u32) -> Result<f64, Refusal>
    ensures { Exactly (beats_call code dots) (measured_answer result) }
{
    Duration::from_code(code)?.beats(dots)
}
