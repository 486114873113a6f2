// The call on a part's automation.
#![tactic(auto)]

ghost use Rattle.rules.specs.Refusals.{as_it_is};
ghost use Rattle.rules.specs.Piece.{piece, largest_size};
ghost use Rattle.rules.specs.Calls.{automation_call, AutomationCalled};
ghost use Rattle.std.specs.Prelude.{◌≤◌, ◌<◌, length};
ghost use Rattle.track_events.specs.Track.{Track, events_of};
ghost use Rattle.automation.specs.Answers.{automation_answer, automation_outcome};

use automation_events::Counts;
use basics::Refusal;
use track_events::cut;

// The automation of a part's track, counted before it is written.
fn write_automation(
    p: u64,
    deltas: &[u32],
    words: &[u32],
    ticks: &mut [u64],
    out: &mut [u32],
) -> Result<Counts, Refusal>
    requires { Track deltas.now words.now × (0 < p) × (p ≤ largest_size) }
    ensures { AutomationCalled as_it_is
        (automation_outcome p (events_of deltas.now words.now) (length ticks.old) (length out.old))
        ticks.old out.old (automation_answer result) ticks.new out.new }
{
    let dropped = auxiliary_channels::recognized_auxiliary_channels(deltas, words);
    let counts = automation_events::count_automation(deltas, words, dropped);
    let all = counts.bends + counts.controllers + counts.programs + counts.pressures;
    if ticks.len() < all {
        return Err(Refusal::NoRoom);
    }
    if out.len() < all {
        return Err(Refusal::NoRoom);
    }
    automation_events::collect_automation(deltas, words, p, dropped, counts, ticks, out);
    Ok(counts)
}

// A part's automation: four counts, then ticks at 480 per quarter and words. Refusals 1 to 8.
pub fn automation(
    sizes: &[u32],
    deltas: &[u32],
    words: &[u32],
    part: u32,
    ticks: &mut [u64],
    out: &mut [u32],
) -> Result<Counts, Refusal>
    ensures { AutomationCalled as_it_is
        (automation_call (piece sizes.now deltas.now words.now) part (length ticks.old) (length out.old))
        ticks.old out.old (automation_answer result) ticks.new out.new }
{
    let track = opening::open_part(sizes, deltas, words, part)?;
    let p = tracks::ticks_per_quarter(sizes);
    let own_deltas = cut(deltas, track.from, track.to);
    let own_words = cut(words, track.from, track.to);
    write_automation(p, own_deltas, own_words, ticks, out)
}
