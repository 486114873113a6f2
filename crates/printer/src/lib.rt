// Prints the page of a text or of what was opened, in arrays of its own.
#![tactic(auto)]

ghost use Rattle.std.specs.Prelude.{◌≤◌, length};
ghost use Rattle.piece_input.specs.Input.{ReadText};
ghost use Rattle.page_openings.specs.Places.{Within};
ghost use Rattle.printer.specs.Turns.{ReadyFor};

use page_openings::Opened;
use piece_text::Counts;

mod writer;

// Prints what was opened. A part has at most 60,000 items.
pub fn print_opened(
    opened: Opened,
    sizes: &[u32],
    deltas: &[u32],
    words: &[u32],
    starts: &[u64],
    marks: &[u64],
    work: &mut [u64],
)
    requires within { Within sizes.now deltas.now words.now opened }
    requires ready_for { ReadyFor opened (record { items = 60000; work = length work.old }) sizes.now deltas.now words.now starts.now marks.now }
    requires in_bounds { (10000 ≤ length starts.now) × (10000 ≤ length marks.now) }
{
    let mut counts = [0u32; 40000];
    let mut heads = [0u32; 60000];
    let mut keys = [0u64; 120000];
    let mut leftovers = [0u32; 40000];
    let mut out = io::large_buffer();
    writer::print_lent(
        opened,
        sizes,
        deltas,
        words,
        starts,
        marks,
        &mut counts,
        &mut heads,
        &mut keys,
        &mut leftovers,
        work,
        &mut out,
    );
}

// Prints the page of a text that was read, in arrays that are lent.
fn print_in(
    text: Option<Counts>,
    sizes: &[u32; 65537],
    deltas: &[u32; 500000],
    words: &[u32; 500000],
    starts: &mut [u64; 10000],
    marks: &mut [u64; 10000],
    work: &mut [u64; 244096],
)
    requires { ReadText text sizes.now deltas.now words.now }
{
    let opened = page_openings::open_text(text, sizes, deltas, words, 60000, starts, marks, work);
    print_opened(opened, sizes, deltas, words, starts, marks, work);
}

// Prints the page of a text that was read. The work area suffices for 15,000 note-ons in one track: 16 times as many words and 4,096.
fn print_read(
    text: Option<Counts>,
    sizes: &[u32; 65537],
    deltas: &[u32; 500000],
    words: &[u32; 500000],
)
    requires { ReadText text sizes.now deltas.now words.now }
{
    let mut starts = [0u64; 10000];
    let mut marks = [0u64; 10000];
    let mut work = [0u64; 244096];
    print_in(
        text,
        sizes,
        deltas,
        words,
        &mut starts,
        &mut marks,
        &mut work,
    );
}

// Prints the page of a text.
pub fn print_text(text: &[u8]) {
    let mut sizes = [0u32; 65537];
    let mut deltas = [0u32; 500000];
    let mut words = [0u32; 500000];
    let read = piece_text::read_text(text, &mut sizes, &mut deltas, &mut words);
    print_read(read, &sizes, &deltas, &words);
}

// Prints the page of the text of standard input.
pub fn print_input() {
    let mut sizes = [0u32; 65537];
    let mut deltas = [0u32; 500000];
    let mut words = [0u32; 500000];
    let read = piece_input::read_input(&mut sizes, &mut deltas, &mut words);
    print_read(read, &sizes, &deltas, &words);
}
