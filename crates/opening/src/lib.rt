// What opens a piece or a part: numbers 1 to 5, then 6, then 7. Room is no part of it.
#![tactic(auto)]

ghost use Rattle.rules.specs.Piece.{piece};
ghost use Rattle.opening.specs.Opening.{NotesOpened, PartOpened};

use basics::Refusal;
use tracks::Span;

// Opens a piece: the count of its parts, or the first of 1 to 6 that applies.
pub fn open_notes(sizes: &[u32], deltas: &[u32], words: &[u32]) -> Result<usize, Refusal>
    ensures { NotesOpened (piece sizes.now deltas.now words.now) result }
{
    admission::admission(sizes, deltas, words)?;
    let parts = tracks::count_parts(sizes, deltas, words);
    if parts == 0 {
        return Err(Refusal::NoNotes);
    }
    Ok(parts)
}

// Opens a part, numbered from 0: where the part's own track stands, or the first of 1 to 7 that applies.
pub fn open_part(sizes: &[u32], deltas: &[u32], words: &[u32], part: u32) -> Result<Span, Refusal>
    ensures { PartOpened (piece sizes.now deltas.now words.now) part result }
{
    let parts = open_notes(sizes, deltas, words)?;
    if parts <= part as usize {
        return Err(Refusal::NoSuchPart);
    }
    Ok(tracks::part_track(sizes, deltas, words, part as usize))
}
