// The calls on a part's staff: its size, and the staff itself. Both open the part, and spread its notes over four voices in the work area.
#![tactic(auto)]

ghost use Rattle.std.specs.Prelude.{◌≡◌, length};
ghost use Rattle.rules.specs.Refusals.{as_it_is};
ghost use Rattle.rules.specs.Piece.{piece};
ghost use Rattle.rules.specs.RawNotes.{raw_notes};
ghost use Rattle.rules.specs.Calls.{part_size, staff_size_call, StaffSizeCalled, engrave_call, EngraveCalled};
ghost use Rattle.track_events.specs.Track.{events_of};
ghost use Rattle.engraver.specs.Sizes.{Outputs};
ghost use Rattle.staffs.specs.Parts.{answer_of, HasTrack, TrackVoices, PartVoiced};

use bar_source::BarSource;
use basics::{MOST_BARS, Refusal};
use engraver::Size;
use track_events::cut;

// The four voices of a track's notes, on their own grid, in the work area: how many chords each has. Not put into its caller, where the 16 KiB of
// its queues would stay on the stack beside those of the bars' source.
#[inline(never)]
fn track_voices(deltas: &[u32], words: &[u32], p: u64, work: &mut [u64], n: usize) -> [usize; 4]
    requires { HasTrack deltas.now words.now p work.old n }
    ensures { TrackVoices p (raw_notes (events_of deltas.now words.now)) n result work.new }
{
    let count = raw_notes::collect_raw_notes(deltas, words, work, n);
    let g = grid::grid_ticks(deltas, words, p);
    let voices = voices::assign_voices(work, n, count, g);
    voices.lens
}

// A part's voices in the work area, of columns of `most` words, and what the piece's bars are walked from.
#[derive(Drop)]
pub struct PartVoices {
    pub source: BarSource,
    pub most: usize,
    pub lens: [usize; 4],
}

// What both calls go on from. Refusals 1 to 8.
fn part_voices(
    sizes: &[u32],
    deltas: &[u32],
    words: &[u32],
    part: u32,
    work: &mut [u64],
) -> Result<PartVoices, Refusal>
    ensures { PartVoiced (piece sizes.now deltas.now words.now) part (length work.old) work.new result }
{
    let track = opening::open_part(sizes, deltas, words, part)?;
    let most = tracks::most_notes(sizes, deltas, words);
    if work.len() < basics::work_for(most) {
        return Err(Refusal::NoRoom);
    }
    let own_deltas = cut(deltas, track.from, track.to);
    let own_words = cut(words, track.from, track.to);
    let p = tracks::ticks_per_quarter(sizes);
    let lens = track_voices(own_deltas, own_words, p, work, most);
    let source = bar_source::bar_source(sizes, deltas, words);
    Ok(PartVoices { source, most, lens })
}

// The size of a part's staff. What it leaves in the work area is not said.
fn measure_part(
    sizes: &[u32],
    deltas: &[u32],
    words: &[u32],
    part: u32,
    work: &mut [u64],
) -> Result<Size, Refusal>
    ensures { answer_of result ≡ staff_size_call (piece sizes.now deltas.now words.now) part (length work.old) }
{
    let v = part_voices(sizes, deltas, words, part, work)?;
    let s = v.source;
    let first_deltas = cut(deltas, s.from, s.to);
    let first_words = cut(words, s.from, s.to);
    let lens = v.lens;
    let measured = engraver::measure_staff(
        s.p,
        first_deltas,
        first_words,
        s.end,
        MOST_BARS,
        work,
        v.most,
        lens,
    );
    Ok(measured)
}

// The size of a part's staff, its bars and items: what engraving needs room for. Refusals 1 to 8.
pub fn staff_size(
    sizes: &[u32],
    deltas: &[u32],
    words: &[u32],
    part: u32,
    work: &mut [u64],
) -> Result<Size, Refusal>
    ensures { StaffSizeCalled as_it_is
        (staff_size_call (piece sizes.now deltas.now words.now) part (length work.old))
        work.old (answer_of result) work.new }
{
    let answer = measure_part(sizes, deltas, words, part, work);
    basics::clear(work);
    answer
}

// A part's staff in the outputs, where they have room. What it leaves in the work area is not said.
fn engrave_part(
    sizes: &[u32],
    deltas: &[u32],
    words: &[u32],
    part: u32,
    counts: &mut [u32],
    heads: &mut [u32],
    keys: &mut [u64],
    leftovers: &mut [u32],
    work: &mut [u64],
) -> Result<Size, Refusal>
    ensures { Outputs
        (part_size (piece sizes.now deltas.now words.now) part)
        (engrave_call (piece sizes.now deltas.now words.now) part
        (length counts.old) (length heads.old) (length keys.old) (length leftovers.old)
        (length work.old))
        counts.old heads.old keys.old leftovers.old
        counts.new heads.new keys.new leftovers.new (answer_of result) }
{
    let voices = part_voices(sizes, deltas, words, part, work)?;
    let s = voices.source;
    let first_deltas = cut(deltas, s.from, s.to);
    let first_words = cut(words, s.from, s.to);
    let lens = voices.lens;
    let written = engraver::write_staff(
        s.p,
        first_deltas,
        first_words,
        s.end,
        MOST_BARS,
        work,
        voices.most,
        lens,
        counts,
        heads,
        keys,
        leftovers,
    );
    written.ok_or(Refusal::NoRoom)
}

// A part's staff: four counts a bar, and a head and two words of keys an item; and four leftovers a bar, the ticks of each voice that no item
// took. Refusals 1 to 8.
pub fn engrave(
    sizes: &[u32],
    deltas: &[u32],
    words: &[u32],
    part: u32,
    counts: &mut [u32],
    heads: &mut [u32],
    keys: &mut [u64],
    leftovers: &mut [u32],
    work: &mut [u64],
) -> Result<Size, Refusal>
    ensures { EngraveCalled as_it_is
        (part_size (piece sizes.now deltas.now words.now) part)
        (engrave_call (piece sizes.now deltas.now words.now) part
        (length counts.old) (length heads.old) (length keys.old) (length leftovers.old)
        (length work.old))
        counts.old heads.old keys.old leftovers.old work.old
        (answer_of result) counts.new heads.new keys.new leftovers.new work.new }
{
    let answer = engrave_part(
        sizes, deltas, words, part, counts, heads, keys, leftovers, work,
    );
    basics::clear(work); // and not the outputs
    answer
}
