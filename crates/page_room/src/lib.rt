// What a program's room gives: the number of a piece that it cannot print, by the work area or a part's items.
#![tactic(auto)]

ghost use Rattle.std.specs.Prelude.{◌<◌, [], ◌∷◌, ◌≡◌, length};
ghost use Rattle.rules.specs.Piece.{piece};
ghost use Rattle.rules.specs.RawNotes.{parts as RawNotes·parts};
ghost use Rattle.rules.specs.Refusals.{first_number, note_refusals, short_work};
ghost use Rattle.rules.specs.Calls.{part_track};
ghost use Rattle.laws.specs.Admitted.{Passes};
ghost use Rattle.basics.specs.Refusals.{number_of};
ghost use Rattle.pages.specs.Page.{many_items, room_for};

use basics::Refusal;

// Refuses a part that cannot be printed, by the work area or its items.
fn part_number(
    sizes: &[u32],
    deltas: &[u32],
    words: &[u32],
    part: u32,
    items: usize,
    work: &mut [u64],
) -> Result<(), Refusal>
    requires passes { Passes (note_refusals (piece sizes.now deltas.now words.now)) }
    requires part_in_bounds { part < length (RawNotes·parts (piece sizes.now deltas.now words.now)) }
    ensures { number_of result ≡ first_number (short_work (piece sizes.now deltas.now words.now) (length work.old)
        ∷ many_items items (piece sizes.now deltas.now words.now)
        (part_track (piece sizes.now deltas.now words.now) part) ∷ []) }
{
    let size = staffs::staff_size(sizes, deltas, words, part, work)?;
    if items < size.items {
        return Err(Refusal::NoRoom);
    }
    Ok(())
}

// Refuses a piece for its first part that cannot be printed.
pub fn parts_number(
    sizes: &[u32],
    deltas: &[u32],
    words: &[u32],
    parts: u32,
    items: usize,
    work: &mut [u64],
) -> Result<(), Refusal>
    requires passes { Passes (note_refusals (piece sizes.now deltas.now words.now)) }
    requires parts_value { parts ≡ length (RawNotes·parts (piece sizes.now deltas.now words.now)) }
    ensures { number_of result ≡ first_number (room_for (record { items = items; work = length work.old })
        (piece sizes.now deltas.now words.now)) }
{
    for part in 0..parts {
        part_number(sizes, deltas, words, part, items, work)?;
    }
    Ok(())
}
