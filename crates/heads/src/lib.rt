// The calls on heads: a piece's, the count of its parts, and a part's.
#![tactic(auto)]

ghost use Rattle.std.specs.Prelude.{◌≡◌};
ghost use Rattle.rules.specs.Piece.{piece};
ghost use Rattle.rules.specs.Calls.{part_count_call, part_head_call};
ghost use Rattle.heads.specs.Answers.{HeadCalled, count_answer, part_head_answer};

use basics::Refusal;
use changes::{Head, PartHead};
use track_events::cut;

// The head of a piece: tempo, meter and key. Refusals 1 to 6.
#[tactic(auto, using(opening::proofs::Opening::refuses_last))]
pub fn head(sizes: &[u32], deltas: &[u32], words: &[u32]) -> Result<Head, Refusal>
    ensures { HeadCalled (piece sizes.now deltas.now words.now) result }
{
    opening::open_notes(sizes, deltas, words)?;
    let track = tracks::first_track(sizes);
    let first_deltas = cut(deltas, track.from, track.to);
    let first_words = cut(words, track.from, track.to);
    Ok(changes::read_head(first_deltas, first_words))
}

// How many parts a piece has, 1 to 32. Refusals 1 to 6.
#[tactic(auto, using(opening::proofs::Opening::refuses_last))]
pub fn part_count(sizes: &[u32], deltas: &[u32], words: &[u32]) -> Result<u32, Refusal>
    ensures { count_answer result ≡ part_count_call (piece sizes.now deltas.now words.now) }
{
    let parts = opening::open_notes(sizes, deltas, words)?;
    Ok(parts as u32)
}

// The head of a part, numbered from 0: channel and program. Refusals 1 to 7.
#[tactic(auto, using(opening::proofs::Opening::refuses_last))]
pub fn part_head(
    sizes: &[u32],
    deltas: &[u32],
    words: &[u32],
    part: u32,
) -> Result<PartHead, Refusal>
    ensures { part_head_answer result ≡ part_head_call (piece sizes.now deltas.now words.now) part }
{
    let track = opening::open_part(sizes, deltas, words, part)?;
    Ok(changes::extract_program(cut(words, track.from, track.to)))
}
