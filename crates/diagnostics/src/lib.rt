// The call on a piece's diagnostics.
#![tactic(auto)]

ghost use Rattle.rules.specs.Refusals.{as_it_is};
ghost use Rattle.rules.specs.Piece.{piece};
ghost use Rattle.rules.specs.Calls.{diagnostics_call, DiagnosticsCalled};
ghost use Rattle.std.specs.Prelude.{◌<◌, length};
ghost use Rattle.diagnostics.specs.Answers.{diagnostics_answer, DiagnosticsWritten};

use basics::Refusal;

// The diagnostics, counted before they are written. What it leaves in the work area is not said.
fn write_diagnostics(
    sizes: &[u32],
    deltas: &[u32],
    words: &[u32],
    places: &mut [u64],
    details: &mut [u64],
    work: &mut [u64],
) -> Result<u32, Refusal>
    ensures { DiagnosticsWritten
        (diagnostics_call (piece sizes.now deltas.now words.now)
        (length places.old) (length details.old) (length work.old))
        places.old details.old (diagnostics_answer result) places.new details.new }
{
    admission::admission(sizes, deltas, words)?;
    let n = tracks::most_notes(sizes, deltas, words);
    if work.len() < basics::work_for(n) {
        return Err(Refusal::NoRoom);
    }
    let count = loss_diagnostics::count_diagnostics(sizes, deltas, words, work, n);
    if count == 0 {
        return Ok(0);
    }
    if places.len() < count {
        return Err(Refusal::NoRoom);
    }
    if details.len() < count {
        return Err(Refusal::NoRoom);
    }
    loss_diagnostics::loss_diagnostics(sizes, deltas, words, places, details, work, n);
    Ok(count as u32)
}

// The diagnostics of a piece: how many, their places and their details. Refusals 1 to 5, 8.
pub fn diagnostics(
    sizes: &[u32],
    deltas: &[u32],
    words: &[u32],
    places: &mut [u64],
    details: &mut [u64],
    work: &mut [u64],
) -> Result<u32, Refusal>
    ensures { DiagnosticsCalled as_it_is
        (diagnostics_call (piece sizes.now deltas.now words.now)
        (length places.old) (length details.old) (length work.old))
        places.old details.old work.old
        (diagnostics_answer result) places.new details.new work.new }
{
    let answer = write_diagnostics(sizes, deltas, words, places, details, work);
    basics::clear(work);
    answer
}
