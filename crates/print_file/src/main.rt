// Prints the page of a MIDI file, read from standard input.
//
// It holds files of 1,000,000 bytes; the bytes of a larger one are counted. Its other arrays hold the piece of every file that is read.
#![tactic(auto)]

ghost use Rattle.std.specs.Prelude.{◌≤◌, ◌≡◌, length};
ghost use Rattle.page_openings.specs.Places.{Within};
ghost use Rattle.print_file.specs.Input.{Counted, FileOpened};

use basics::MOST_BYTES;
use page_openings::Opened;

// Standard input.
const STDIN: i32 = 0;

// How many bytes one more buffer takes, none of which is held; 0 at the end.
fn pass_over() -> usize
    ensures { result ≤ 65536 }
{
    let mut buf = io::large_buffer();
    io::read_full(STDIN, &mut buf)
}

// How many bytes there are behind those read, with them: counted until there are more than a file may have.
fn count_on(read: usize) -> usize
    ensures { read ≤ result }
{
    let mut n = read;
    // Kept: how far each step goes is known only after it, so no range says the steps.
    while n <= MOST_BYTES {
        let more = pass_over();
        if more == 0 {
            return n;
        }
        n += more;
    }
    n
}

// How many bytes there are. A file that fills the room for its bytes may have more.
fn total(read: usize, room: usize) -> usize
    ensures { Counted read room result }
{
    if read < room {
        return read;
    }
    count_on(read)
}

// The file of standard input opened, in arrays that are lent.
fn open_held(
    file: &mut [u8],
    sizes: &mut [u32; 65537],
    deltas: &mut [u32; 500000],
    words: &mut [u32; 500000],
    starts: &mut [u64; 10000],
    marks: &mut [u64; 10000],
    work: &mut [u64; 244096],
) -> Opened
    requires { length file.old ≡ 1000001 }
    ensures within { Within sizes.new deltas.new words.new result }
    ensures opened { FileOpened (record { items = 60000; work = 244096 })
        sizes.new deltas.new words.new starts.new marks.new result }
{
    let n = io::read_full(STDIN, file);
    let all = total(n, file.len());
    page_openings::open_file(
        &file[..n],
        all,
        1000000,
        sizes,
        deltas,
        words,
        60000,
        starts,
        marks,
        work,
    )
}

// The same, with room for the bytes.
fn open_input(
    sizes: &mut [u32; 65537],
    deltas: &mut [u32; 500000],
    words: &mut [u32; 500000],
    starts: &mut [u64; 10000],
    marks: &mut [u64; 10000],
    work: &mut [u64; 244096],
) -> Opened
    ensures within { Within sizes.new deltas.new words.new result }
    ensures opened { FileOpened (record { items = 60000; work = 244096 })
        sizes.new deltas.new words.new starts.new marks.new result }
{
    let mut file = [0u8; 1000001];
    open_held(&mut file, sizes, deltas, words, starts, marks, work)
}

// Prints the page of the file of standard input, in arrays that are lent.
fn print_in(
    sizes: &mut [u32; 65537],
    deltas: &mut [u32; 500000],
    words: &mut [u32; 500000],
    starts: &mut [u64; 10000],
    marks: &mut [u64; 10000],
    work: &mut [u64; 244096],
) {
    let opened = open_input(sizes, deltas, words, starts, marks, work);
    printer::print_opened(opened, sizes, deltas, words, starts, marks, work);
}

// The same. The work area is the one of `printer`.
fn print_read(sizes: &mut [u32; 65537], deltas: &mut [u32; 500000], words: &mut [u32; 500000]) {
    let mut starts = [0u64; 10000];
    let mut marks = [0u64; 10000];
    let mut work = [0u64; 244096];
    print_in(sizes, deltas, words, &mut starts, &mut marks, &mut work);
}

fn main() {
    let mut sizes = [0u32; 65537];
    let mut deltas = [0u32; 500000];
    let mut words = [0u32; 500000];
    print_read(&mut sizes, &mut deltas, &mut words);
}
