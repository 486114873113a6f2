// The calls, each with its answer as numbers: the refusal's, or 0 and the values.
ghost use Rattle.std.specs.Prelude.{◌≤◌, ◌≡◌, length};
ghost use Rattle.rules.specs.Refusals.{given};
ghost use Rattle.rules.specs.Piece.{piece};
ghost use Rattle.rules.specs.Calls.{head_call, part_count_call, part_head_call, bars_call, staff_size_call, engrave_call, automation_call, diagnostics_call, proof_read_call};
ghost use Rattle.rules.specs.Calls.{part_size, BarsCalled, StaffSizeCalled, EngraveCalled, AutomationCalled, DiagnosticsCalled, ProofReadCalled};
ghost use Rattle.heads.specs.Answers.{head_of};
ghost use Rattle.staffs.specs.Parts.{answer_of};
ghost use Rattle.replay_answers.specs.Numbers.{saying};
ghost use Rattle.replay_calls.specs.Outcomes.{head_numbers, count_numbers, part_head_numbers, size_numbers, automation_numbers, read_numbers};

use basics::Refusal;
use changes::Head;
use engraver::Size;
use replay_answers::{say_one, say_refused, say_right, say_two};

// The values of a head: fifths + 8 and minor are 0 where there is no key.
fn say_head(h: Head, said: &mut [u64])
    requires { 8 ≤ length said.old }
    ensures { said.new ≡ saying head_numbers said.old (given (head_of h)) }
{
    let tempo = u64::from(h.tempo);
    let upper = u64::from(h.upper);
    let lower = u64::from(h.lower);
    match h.key {
        Some(key) => {
            let fifths = replay_answers::raised(key.fifths);
            replay_answers::say_five(tempo, upper, lower, fifths, key.minor as u64, said);
        }
        None => replay_answers::say_five(tempo, upper, lower, 0, 0, said),
    }
}

pub fn head(sizes: &[u32], deltas: &[u32], words: &[u32], said: &mut [u64])
    requires { 8 ≤ length said.old }
    ensures { said.new ≡ saying head_numbers said.old
        (head_call (piece sizes.now deltas.now words.now)) }
{
    match heads::head(sizes, deltas, words) {
        Err(refusal) => say_refused(u32::from(refusal), said),
        Ok(h) => say_head(h, said),
    }
}

pub fn part_count(sizes: &[u32], deltas: &[u32], words: &[u32], said: &mut [u64])
    requires { 8 ≤ length said.old }
    ensures { said.new ≡ saying count_numbers said.old
        (part_count_call (piece sizes.now deltas.now words.now)) }
{
    match heads::part_count(sizes, deltas, words) {
        Err(refusal) => say_refused(u32::from(refusal), said),
        Ok(count) => say_one(u64::from(count), said),
    }
}

pub fn part_head(sizes: &[u32], deltas: &[u32], words: &[u32], part: u32, said: &mut [u64])
    requires { 8 ≤ length said.old }
    ensures { said.new ≡ saying part_head_numbers said.old
        (part_head_call (piece sizes.now deltas.now words.now) part) }
{
    match heads::part_head(sizes, deltas, words, part) {
        Err(refusal) => say_refused(u32::from(refusal), said),
        Ok(h) => say_two(u64::from(h.channel), u64::from(h.program), said),
    }
}

pub fn bars(
    sizes: &[u32],
    deltas: &[u32],
    words: &[u32],
    starts: &mut [u64],
    marks: &mut [u64],
    said: &mut [u64],
)
    requires { 8 ≤ length said.old }
    ensures { BarsCalled (saying count_numbers said.old)
        (bars_call (piece sizes.now deltas.now words.now) (length starts.old) (length marks.old))
        starts.old marks.old said.new starts.new marks.new }
{
    match bars::bars(sizes, deltas, words, starts, marks) {
        Err(refusal) => say_refused(u32::from(refusal), said),
        Ok(count) => say_one(u64::from(count), said),
    }
}

// A staff's size, or the number.
fn say_size(answer: Result<Size, Refusal>, said: &mut [u64])
    requires { 8 ≤ length said.old }
    ensures { said.new ≡ saying size_numbers said.old (answer_of answer) }
{
    match answer {
        Err(refusal) => say_refused(u32::from(refusal), said),
        Ok(size) => say_two(size.bars as u64, size.items as u64, said),
    }
}

pub fn staff_size(
    sizes: &[u32],
    deltas: &[u32],
    words: &[u32],
    part: u32,
    work: &mut [u64],
    said: &mut [u64],
)
    requires { 8 ≤ length said.old }
    ensures { StaffSizeCalled (saying size_numbers said.old)
        (staff_size_call (piece sizes.now deltas.now words.now) part (length work.old))
        work.old said.new work.new }
{
    say_size(staffs::staff_size(sizes, deltas, words, part, work), said);
}

pub fn engrave(
    sizes: &[u32],
    deltas: &[u32],
    words: &[u32],
    part: u32,
    counts: &mut [u32],
    heads: &mut [u32],
    keys: &mut [u64],
    leftovers: &mut [u32],
    work: &mut [u64],
    said: &mut [u64],
)
    requires { 8 ≤ length said.old }
    ensures { EngraveCalled (saying size_numbers said.old)
        (part_size (piece sizes.now deltas.now words.now) part)
        (engrave_call (piece sizes.now deltas.now words.now) part
        (length counts.old) (length heads.old) (length keys.old) (length leftovers.old)
        (length work.old))
        counts.old heads.old keys.old leftovers.old work.old
        said.new counts.new heads.new keys.new leftovers.new work.new }
{
    say_size(
        staffs::engrave(
            sizes, deltas, words, part, counts, heads, keys, leftovers, work,
        ),
        said,
    );
}

pub fn automation(
    sizes: &[u32],
    deltas: &[u32],
    words: &[u32],
    part: u32,
    ticks: &mut [u64],
    out: &mut [u32],
    said: &mut [u64],
)
    requires { 8 ≤ length said.old }
    ensures { AutomationCalled (saying automation_numbers said.old)
        (automation_call (piece sizes.now deltas.now words.now) part (length ticks.old) (length out.old))
        ticks.old out.old said.new ticks.new out.new }
{
    match automation::automation(sizes, deltas, words, part, ticks, out) {
        Err(refusal) => say_refused(u32::from(refusal), said),
        Ok(n) => replay_answers::say_four(
            n.bends as u64,
            n.controllers as u64,
            n.programs as u64,
            n.pressures as u64,
            said,
        ),
    }
}

pub fn diagnostics(
    sizes: &[u32],
    deltas: &[u32],
    words: &[u32],
    places: &mut [u64],
    details: &mut [u64],
    work: &mut [u64],
    said: &mut [u64],
)
    requires { 8 ≤ length said.old }
    ensures { DiagnosticsCalled (saying count_numbers said.old)
        (diagnostics_call (piece sizes.now deltas.now words.now)
        (length places.old) (length details.old) (length work.old))
        places.old details.old work.old
        said.new places.new details.new work.new }
{
    match diagnostics::diagnostics(sizes, deltas, words, places, details, work) {
        Err(refusal) => say_refused(u32::from(refusal), said),
        Ok(count) => say_one(u64::from(count), said),
    }
}

pub fn proof_read(
    sizes: &[u32],
    deltas: &[u32],
    words: &[u32],
    part: u32,
    counts: &[u32],
    heads: &[u32],
    keys: &[u64],
    work: &mut [u64],
    said: &mut [u64],
)
    requires { 8 ≤ length said.old }
    ensures { ProofReadCalled (saying read_numbers said.old)
        (proof_read_call (piece sizes.now deltas.now words.now) part
        (record { counts = counts.entry.now; heads = heads.now; keys = keys.now }) (length work.old))
        work.old said.new work.new }
{
    match proofread::proof_read(sizes, deltas, words, part, counts, heads, keys, work) {
        Err(refusal) => say_refused(u32::from(refusal), said),
        Ok(right) => say_right(right, said),
    }
}
