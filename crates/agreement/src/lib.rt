// The engraver's staff and the proof-reader's verdict, brought together: a part is engraved, and what was written is proof-read.
#![tactic(auto)]

ghost use Rattle.rules.specs.Piece.{piece};
ghost use Rattle.agreement.specs.Together.{both_answer, Together};

use basics::Refusal;
use engraver::Size;

// An engraved staff: its size, and the proof-reader's verdict; none where the part is uneven, and the staff was not read.
#[derive(Clone, Copy)]
pub struct Both {
    pub size: Size,
    pub right: Option<bool>,
}

// Engraves a part into the lent arrays and hands exactly the used part of the staff's three to the proof-reader. A refused engraving leaves them
// unchanged; else they hold the staff and its leftovers.
pub fn engrave_and_read(
    sizes: &[u32],
    deltas: &[u32],
    words: &[u32],
    part: u32,
    counts: &mut [u32],
    heads: &mut [u32],
    keys: &mut [u64],
    leftovers: &mut [u32],
    work: &mut [u64],
) -> Result<Both, Refusal>
    ensures { Together (piece sizes.now deltas.now words.now) part
        counts.old heads.old keys.old leftovers.old work.old
        (both_answer result) counts.new heads.new keys.new leftovers.new work.new }
{
    let size = staffs::engrave(
        sizes, deltas, words, part, counts, heads, keys, leftovers, work,
    )?;
    let c = 4 * size.bars;
    let h = size.items;
    let k = 2 * size.items;
    let read = proofread::proof_read(
        sizes,
        deltas,
        words,
        part,
        &counts[..c],
        &heads[..h],
        &keys[..k],
        work,
    );
    Ok(Both {
        size,
        right: read.ok(),
    })
}
