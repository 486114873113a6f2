// The length of a written value and the spelling of a key, for C.
ghost use Rattle.std.specs.Prelude.{◌≡◌};
ghost use Rattle.rules.specs.Calls.{beats_call, spelling_call};
ghost use Rattle.pitch.specs.Calls.{step_of, spelling_of};
ghost use Rattle.acorde.specs.Values.{BeatsEntered, step_number, spelling_values, spelling_entry};

use pitch::{Pitch, Step};

#[repr(C)]
#[derive(Clone, Copy)]
pub struct AcordeBeats {
    pub number: u32,
    pub beats: f64,
}

#[repr(C)]
#[derive(Clone, Copy)]
pub struct AcordeSpelling {
    pub number: u32,
    pub step: u32,
    pub octave: i32,
    pub alter: i32,
}

#[unsafe(no_mangle)]
pub extern "C" fn acorde_beats(code: u32, dots: u32) -> AcordeBeats
    ensures { BeatsEntered (beats_call code dots) result }
{
    match duration::beats_of(code, dots) {
        Ok(beats) => AcordeBeats { number: 0, beats },
        Err(refusal) => AcordeBeats {
            number: u32::from(refusal),
            beats: 0.0,
        },
    }
}

// C is 0, B is 6.
fn step_number(step: Step) -> u32
    ensures { result ≡ step_number (step_of step) }
{
    step as u32
}

fn spelling_values(p: Pitch) -> AcordeSpelling
    ensures { result ≡ spelling_values (spelling_of p) }
{
    let step = p.step;
    AcordeSpelling {
        number: 0,
        step: step_number(step),
        octave: p.octave as i32,
        alter: p.alter as i32,
    }
}

#[unsafe(no_mangle)]
pub extern "C" fn acorde_spelling(key: u32) -> AcordeSpelling
    ensures { result ≡ spelling_entry (spelling_call key) }
{
    match pitch::midi_to_pitch(key) {
        Ok(p) => spelling_values(p),
        Err(refusal) => AcordeSpelling {
            number: u32::from(refusal),
            step: 0,
            octave: 0,
            alter: 0,
        },
    }
}
