// The calls for C: a number beside the values, 0 where the call is answered; beside a refusal every value is 0.
#![tactic(auto)]

ghost use Rattle.std.specs.Prelude.{◌≡◌, length};
ghost use Rattle.rules.specs.Refusals.{given};
ghost use Rattle.rules.specs.Piece.{piece};
ghost use Rattle.rules.specs.Calls.{head_call, part_count_call, part_head_call, bars_call, automation_call, diagnostics_call, part_size, staff_size_call, engrave_call, proof_read_call, BarsCalled, StaffSizeCalled, EngraveCalled, AutomationCalled, DiagnosticsCalled, ProofReadCalled};
ghost use Rattle.rules.specs.Calls.{read_size_call, read_call, ReadCalled};
ghost use Rattle.acorde.specs.Entries.{head_entry, count_entry, part_head_entry, automation_entry, staff_entry, reading_entry, piece_entry};
ghost use Rattle.files.specs.Answers.{piece_answer};
ghost use Rattle.heads.specs.Answers.{head_of, head_answer, count_answer, part_head_answer};
ghost use Rattle.automation.specs.Answers.{automation_answer};
ghost use Rattle.staffs.specs.Parts.{answer_of};
ghost use Rattle.proofread.specs.Answers.{read_answer};

mod value_entries;

use automation_events::Counts;
use basics::Refusal;
use changes::{Head, PartHead};
use engraver::Size;
use files::PieceSize;

#[repr(C)]
#[derive(Clone, Copy)]
pub struct AcordeHead {
    pub number: u32,
    pub tempo: u32,
    pub upper: u32,
    pub lower: u32,
    pub has_key: u32,
    pub fifths: i32,
    pub minor: u32,
}

#[repr(C)]
#[derive(Clone, Copy)]
pub struct AcordeCount {
    pub number: u32,
    pub count: u32,
}

#[repr(C)]
#[derive(Clone, Copy)]
pub struct AcordePartHead {
    pub number: u32,
    pub channel: u32,
    pub program: u32,
}

#[repr(C)]
#[derive(Clone, Copy)]
pub struct AcordeAutomation {
    pub number: u32,
    pub bends: usize,
    pub controllers: usize,
    pub programs: usize,
    pub pressures: usize,
}

#[repr(C)]
#[derive(Clone, Copy)]
pub struct AcordeStaff {
    pub number: u32,
    pub bars: usize,
    pub items: usize,
}

#[repr(C)]
#[derive(Clone, Copy)]
pub struct AcordePiece {
    pub number: u32,
    pub sizes: usize,
    pub events: usize,
}

// right is 1 for yes, 0 for no.
#[repr(C)]
#[derive(Clone, Copy)]
pub struct AcordeReading {
    pub number: u32,
    pub right: u32,
}

fn head_given(h: Head) -> AcordeHead
    ensures { result ≡ head_entry (given (head_of h)) }
{
    match h.key {
        Some(key) => AcordeHead {
            number: 0,
            tempo: h.tempo,
            upper: h.upper,
            lower: h.lower,
            has_key: 1,
            fifths: key.fifths,
            minor: u32::from(key.minor),
        },
        None => AcordeHead {
            number: 0,
            tempo: h.tempo,
            upper: h.upper,
            lower: h.lower,
            has_key: 0,
            fifths: 0,
            minor: 0,
        },
    }
}

// How an answer is told to C: a head, a count, a part's head, counts of automation, a staff's size, a reading, a file's piece.
fn head_values(answer: Result<Head, Refusal>) -> AcordeHead
    ensures { result ≡ head_entry (head_answer answer) }
{
    match answer {
        Err(refusal) => AcordeHead {
            number: u32::from(refusal),
            tempo: 0,
            upper: 0,
            lower: 0,
            has_key: 0,
            fifths: 0,
            minor: 0,
        },
        Ok(h) => head_given(h),
    }
}

fn count_values(answer: Result<u32, Refusal>) -> AcordeCount
    ensures { result ≡ count_entry (count_answer answer) }
{
    match answer {
        Err(refusal) => AcordeCount {
            number: u32::from(refusal),
            count: 0,
        },
        Ok(count) => AcordeCount { number: 0, count },
    }
}

fn part_head_values(answer: Result<PartHead, Refusal>) -> AcordePartHead
    ensures { result ≡ part_head_entry (part_head_answer answer) }
{
    match answer {
        Err(refusal) => AcordePartHead {
            number: u32::from(refusal),
            channel: 0,
            program: 0,
        },
        Ok(h) => AcordePartHead {
            number: 0,
            channel: h.channel,
            program: h.program,
        },
    }
}

fn automation_values(answer: Result<Counts, Refusal>) -> AcordeAutomation
    ensures { result ≡ automation_entry (automation_answer answer) }
{
    match answer {
        Err(refusal) => AcordeAutomation {
            number: u32::from(refusal),
            bends: 0,
            controllers: 0,
            programs: 0,
            pressures: 0,
        },
        Ok(c) => AcordeAutomation {
            number: 0,
            bends: c.bends,
            controllers: c.controllers,
            programs: c.programs,
            pressures: c.pressures,
        },
    }
}

fn staff_values(answer: Result<Size, Refusal>) -> AcordeStaff
    ensures { result ≡ staff_entry (answer_of answer) }
{
    match answer {
        Err(refusal) => AcordeStaff {
            number: u32::from(refusal),
            bars: 0,
            items: 0,
        },
        Ok(s) => AcordeStaff {
            number: 0,
            bars: s.bars,
            items: s.items,
        },
    }
}

fn reading_values(answer: Result<bool, Refusal>) -> AcordeReading
    ensures { result ≡ reading_entry (read_answer answer) }
{
    match answer {
        Err(refusal) => AcordeReading {
            number: u32::from(refusal),
            right: 0,
        },
        Ok(right) => AcordeReading {
            number: 0,
            right: u32::from(right),
        },
    }
}

fn piece_values(answer: Result<PieceSize, Refusal>) -> AcordePiece
    ensures { result ≡ piece_entry (piece_answer answer) }
{
    match answer {
        Err(refusal) => AcordePiece {
            number: u32::from(refusal),
            sizes: 0,
            events: 0,
        },
        Ok(s) => AcordePiece {
            number: 0,
            sizes: s.sizes,
            events: s.events,
        },
    }
}

#[unsafe(no_mangle)]
pub extern "C" fn acorde_read_size(bytes: &[u8]) -> AcordePiece
    ensures { result ≡ piece_entry (read_size_call bytes.now) }
{
    piece_values(files::read_size(bytes))
}

#[unsafe(no_mangle)]
pub extern "C" fn acorde_read(
    bytes: &[u8],
    sizes: &mut [u32],
    deltas: &mut [u32],
    words: &mut [u32],
) -> AcordePiece
    ensures { ReadCalled piece_entry
        (read_call bytes.now (length sizes.old) (length deltas.old) (length words.old))
        sizes.old deltas.old words.old result sizes.new deltas.new words.new }
{
    piece_values(files::read(bytes, sizes, deltas, words))
}

#[unsafe(no_mangle)]
pub extern "C" fn acorde_head(sizes: &[u32], deltas: &[u32], words: &[u32]) -> AcordeHead
    ensures { result ≡ head_entry (head_call (piece sizes.now deltas.now words.now)) }
{
    head_values(heads::head(sizes, deltas, words))
}

#[unsafe(no_mangle)]
pub extern "C" fn acorde_part_count(sizes: &[u32], deltas: &[u32], words: &[u32]) -> AcordeCount
    ensures { result ≡ count_entry (part_count_call (piece sizes.now deltas.now words.now)) }
{
    count_values(heads::part_count(sizes, deltas, words))
}

#[unsafe(no_mangle)]
pub extern "C" fn acorde_part_head(
    sizes: &[u32],
    deltas: &[u32],
    words: &[u32],
    part: u32,
) -> AcordePartHead
    ensures { result ≡ part_head_entry (part_head_call (piece sizes.now deltas.now words.now) part) }
{
    part_head_values(heads::part_head(sizes, deltas, words, part))
}

#[unsafe(no_mangle)]
pub extern "C" fn acorde_bars(
    sizes: &[u32],
    deltas: &[u32],
    words: &[u32],
    starts: &mut [u64],
    marks: &mut [u64],
) -> AcordeCount
    ensures { BarsCalled count_entry
        (bars_call (piece sizes.now deltas.now words.now) (length starts.old) (length marks.old))
        starts.old marks.old result starts.new marks.new }
{
    count_values(bars::bars(sizes, deltas, words, starts, marks))
}

#[unsafe(no_mangle)]
pub extern "C" fn acorde_automation(
    sizes: &[u32],
    deltas: &[u32],
    words: &[u32],
    part: u32,
    ticks: &mut [u64],
    out: &mut [u32],
) -> AcordeAutomation
    ensures { AutomationCalled automation_entry
        (automation_call (piece sizes.now deltas.now words.now) part (length ticks.old) (length out.old))
        ticks.old out.old result ticks.new out.new }
{
    automation_values(automation::automation(sizes, deltas, words, part, ticks, out))
}

#[unsafe(no_mangle)]
pub extern "C" fn acorde_diagnostics(
    sizes: &[u32],
    deltas: &[u32],
    words: &[u32],
    places: &mut [u64],
    details: &mut [u64],
    work: &mut [u64],
) -> AcordeCount
    ensures { DiagnosticsCalled count_entry
        (diagnostics_call (piece sizes.now deltas.now words.now)
        (length places.old) (length details.old) (length work.old))
        places.old details.old work.old result places.new details.new work.new }
{
    count_values(diagnostics::diagnostics(sizes, deltas, words, places, details, work))
}

#[unsafe(no_mangle)]
pub extern "C" fn acorde_staff_size(
    sizes: &[u32],
    deltas: &[u32],
    words: &[u32],
    part: u32,
    work: &mut [u64],
) -> AcordeStaff
    ensures { StaffSizeCalled staff_entry
        (staff_size_call (piece sizes.now deltas.now words.now) part (length work.old))
        work.old result work.new }
{
    staff_values(staffs::staff_size(sizes, deltas, words, part, work))
}

#[unsafe(no_mangle)]
pub extern "C" fn acorde_engrave(
    sizes: &[u32],
    deltas: &[u32],
    words: &[u32],
    part: u32,
    counts: &mut [u32],
    heads: &mut [u32],
    keys: &mut [u64],
    leftovers: &mut [u32],
    work: &mut [u64],
) -> AcordeStaff
    ensures { EngraveCalled staff_entry
        (part_size (piece sizes.now deltas.now words.now) part)
        (engrave_call (piece sizes.now deltas.now words.now) part
        (length counts.old) (length heads.old) (length keys.old) (length leftovers.old)
        (length work.old))
        counts.old heads.old keys.old leftovers.old work.old
        result counts.new heads.new keys.new leftovers.new work.new }
{
    staff_values(staffs::engrave(
        sizes, deltas, words, part, counts, heads, keys, leftovers, work,
    ))
}

#[unsafe(no_mangle)]
pub extern "C" fn acorde_proof_read(
    sizes: &[u32],
    deltas: &[u32],
    words: &[u32],
    part: u32,
    counts: &[u32],
    heads: &[u32],
    keys: &[u64],
    work: &mut [u64],
) -> AcordeReading
    ensures { ProofReadCalled reading_entry
        (proof_read_call (piece sizes.now deltas.now words.now) part
        (record { counts = counts.entry.now; heads = heads.now; keys = keys.now }) (length work.old))
        work.old result work.new }
{
    reading_values(proofread::proof_read(sizes, deltas, words, part, counts, heads, keys, work))
}
