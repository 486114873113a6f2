// The proof-reader's call: a piece, a part number and a staff. Refusals 1 to 9, then yes or no. The bars go by the first track and the end of
// the piece, the notes by the part's own track, on their own grid.
#![tactic(auto)]

ghost use Rattle.std.specs.Prelude.{◌≡◌, length};
ghost use Rattle.rules.specs.Refusals.{as_it_is};
ghost use Rattle.rules.specs.Piece.{piece};
ghost use Rattle.rules.specs.Calls.{proof_read_call, ProofReadCalled};
ghost use Rattle.proofread_staff.specs.Staffs.{answer_of};
ghost use Rattle.proofread.specs.Answers.{read_answer};

use basics::{MOST_BARS, Refusal};
use proofread_staff::Reading;
use track_events::cut;

// The answer of a reading: an uneven part is number 9.
fn answered(reading: Reading) -> Result<bool, Refusal>
    ensures { read_answer result ≡ answer_of reading }
{
    match reading {
        Reading::Yes => Ok(true),
        Reading::No => Ok(false),
        Reading::Uneven => Err(Refusal::UnevenPart),
    }
}

// Whether a part's staff is right. What it leaves in the work area is not said.
fn read_staff(
    sizes: &[u32],
    deltas: &[u32],
    words: &[u32],
    part: u32,
    counts: &[u32],
    heads: &[u32],
    keys: &[u64],
    work: &mut [u64],
) -> Result<bool, Refusal>
    ensures { read_answer result
        ≡ proof_read_call (piece sizes.now deltas.now words.now) part
        (record { counts = counts.entry.now; heads = heads.now; keys = keys.now }) (length work.old) }
{
    let track = opening::open_part(sizes, deltas, words, part)?;
    let n = tracks::most_notes(sizes, deltas, words);
    if work.len() < basics::work_for(n) {
        return Err(Refusal::NoRoom);
    }
    let own_deltas = cut(deltas, track.from, track.to);
    let own_words = cut(words, track.from, track.to);
    let m = raw_notes::collect_raw_notes(own_deltas, own_words, work, n);
    let source = bar_source::bar_source(sizes, deltas, words);
    let g = proofread_staff::grid_of(work, n, m, source.p);
    let reading = proofread_staff::read_part(
        source.p,
        cut(deltas, source.from, source.to),
        cut(words, source.from, source.to),
        source.end,
        MOST_BARS,
        counts,
        heads,
        keys,
        work,
        n,
        m,
        g,
    );
    answered(reading)
}

// Whether a part's staff is right, whatever stands in its arrays. Refusals 1 to 9.
pub fn proof_read(
    sizes: &[u32],
    deltas: &[u32],
    words: &[u32],
    part: u32,
    counts: &[u32],
    heads: &[u32],
    keys: &[u64],
    work: &mut [u64],
) -> Result<bool, Refusal>
    ensures { ProofReadCalled as_it_is
        (proof_read_call (piece sizes.now deltas.now words.now) part
        (record { counts = counts.entry.now; heads = heads.now; keys = keys.now }) (length work.old))
        work.old (read_answer result) work.new }
{
    let answer = read_staff(sizes, deltas, words, part, counts, heads, keys, work);
    basics::clear(work);
    answer
}
