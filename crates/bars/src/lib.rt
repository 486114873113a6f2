// The call on a piece's bars.
#![tactic(auto)]

ghost use Rattle.rules.specs.Refusals.{as_it_is};
ghost use Rattle.rules.specs.Piece.{piece};
ghost use Rattle.rules.specs.Calls.{bars_call, BarsCalled};
ghost use Rattle.std.specs.Prelude.{length};
ghost use Rattle.bars.specs.Answers.{bars_answer};

use basics::{MOST_BARS, Refusal};

// The bars of a piece: how many, their starts and their marks. Refusals 1 to 6, 8.
pub fn bars(
    sizes: &[u32],
    deltas: &[u32],
    words: &[u32],
    starts: &mut [u64],
    marks: &mut [u64],
) -> Result<u32, Refusal>
    ensures { BarsCalled as_it_is
        (bars_call (piece sizes.now deltas.now words.now) (length starts.old) (length marks.old))
        starts.old marks.old (bars_answer result) starts.new marks.new }
{
    opening::open_notes(sizes, deltas, words)?;
    let source = bar_source::bar_source(sizes, deltas, words);
    let p = source.p;
    let end = source.end;
    let first_deltas = track_events::cut(deltas, source.from, source.to);
    let first_words = track_events::cut(words, source.from, source.to);
    let count = bar_walk::count_bars(p, first_deltas, first_words, end, MOST_BARS);
    if starts.len() < count {
        return Err(Refusal::NoRoom);
    }
    if marks.len() < count {
        return Err(Refusal::NoRoom);
    }
    bar_walk::midi_bars(p, first_deltas, first_words, end, MOST_BARS, starts, marks);
    Ok(count as u32)
}
