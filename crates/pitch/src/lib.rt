// Pitches, as pitch.rs has them, and the spelling of a key (section 7, midi_to_pitch). Middle C, key 60, is C 4.
#![tactic(auto)]

ghost use Rattle.std.specs.Prelude.{◌≡◌, pos, get_or};
ghost use Rattle.rules.specs.Spelling.{semitone, sounds, C, natural, sharp_names, flat_names};
ghost use Rattle.pitch.specs.Calls.{step_of, name_of, spelling_of, pitch_of, spelled_answer, either_call};
ghost use Rattle.rules.specs.Calls.{spelling_call};

use basics::Refusal;

#[derive(Clone, Copy, Debug, PartialEq, Eq)]
pub enum Step {
    C,
    D,
    E,
    F,
    G,
    A,
    B,
}

#[derive(Clone, Copy, Debug, PartialEq, Eq)]
pub struct Pitch {
    pub step: Step,
    pub octave: i8,
    pub alter: i8,
}

// A name within the octave: its step and its alteration.
#[derive(Drop)]
struct Name(Step, i8);

impl Step {
    // Semitones above C.
    pub fn to_semitone(self) -> u8
        ensures { result ≡ semitone (step_of self) }
    {
        match self {
            Step::C => 0,
            Step::D => 2,
            Step::E => 4,
            Step::F => 5,
            Step::G => 7,
            Step::A => 9,
            Step::B => 11,
        }
    }
}

impl Pitch {
    pub fn new(step: Step, octave: i8) -> Self
        ensures { result ≡ pitch_of step octave (pos 0) }
    {
        Pitch {
            step,
            octave,
            alter: 0,
        }
    }

    pub fn with_alter(step: Step, octave: i8, alter: i8) -> Self
        ensures { result ≡ pitch_of step octave alter }
    {
        Pitch {
            step,
            octave,
            alter,
        }
    }

    // The key that sounds.
    pub fn to_midi(self) -> i16
        ensures { result ≡ sounds (spelling_of self) }
    {
        let step = self.step;
        let semitone = step.to_semitone() as i16;
        let base = (self.octave as i16 + 1) * 12;
        base + semitone + self.alter as i16
    }

    // A key's spelling, with flats or with sharps.
    pub fn from_midi(key: u32, prefer_flat: bool) -> Result<Pitch, Refusal>
        ensures { spelled_answer result ≡ either_call key prefer_flat }
    {
        if key > 127 {
            return Err(Refusal::OutOfRange);
        }
        let octave = (key / 12) as i8 - 1;
        let pc = key % 12;
        let name = if prefer_flat {
            flat_name(pc)
        } else {
            sharp_name(pc)
        };
        let Name(step, alter) = name;
        Ok(Pitch::with_alter(step, octave, alter))
    }
}

// Kept beside flat_name: two tables, which differ in five rows; one function over a flag would hold both.
fn sharp_name(pc: u32) -> Name
    ensures { name_of result ≡ get_or sharp_names pc (natural C) }
{
    match pc {
        0 => Name(Step::C, 0),
        1 => Name(Step::C, 1),
        2 => Name(Step::D, 0),
        3 => Name(Step::D, 1),
        4 => Name(Step::E, 0),
        5 => Name(Step::F, 0),
        6 => Name(Step::F, 1),
        7 => Name(Step::G, 0),
        8 => Name(Step::G, 1),
        9 => Name(Step::A, 0),
        10 => Name(Step::A, 1),
        11 => Name(Step::B, 0),
        _ => Name(Step::C, 0),
    }
}

fn flat_name(pc: u32) -> Name
    ensures { name_of result ≡ get_or flat_names pc (natural C) }
{
    match pc {
        0 => Name(Step::C, 0),
        1 => Name(Step::D, -1),
        2 => Name(Step::D, 0),
        3 => Name(Step::E, -1),
        4 => Name(Step::E, 0),
        5 => Name(Step::F, 0),
        6 => Name(Step::G, -1),
        7 => Name(Step::G, 0),
        8 => Name(Step::A, -1),
        9 => Name(Step::A, 0),
        10 => Name(Step::B, -1),
        11 => Name(Step::B, 0),
        _ => Name(Step::C, 0),
    }
}

// With sharps, as the import spells.
pub fn midi_to_pitch(key: u32) -> Result<Pitch, Refusal>
    ensures { spelled_answer result ≡ spelling_call key }
{
    Pitch::from_midi(key, false)
}
