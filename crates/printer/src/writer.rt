// Writes a page: turn by turn, the next part is opened where none is open, its next lines are put into a buffer, and the buffer is written.
//
// Which lines those are, is proved below (crates/page_openings). Here it is proved that the turns end; no contract can say what is written.
ghost use Rattle.std.specs.Prelude.{◌≤◌, length};
ghost use Rattle.rules.specs.Piece.{piece};
ghost use Rattle.pages.specs.Spots.{sheet};
ghost use Rattle.page_openings.specs.Places.{Ready, Rooms, Within};
ghost use Rattle.printer.specs.Turns.{Nearer, ReadyFor};

use page_openings::{Opened, Place};

// Standard output.
const STDOUT: i32 = 1;

// A turn: the place behind what was written.
fn turn(
    place: Place,
    sizes: &[u32],
    deltas: &[u32],
    words: &[u32],
    starts: &[u64],
    marks: &[u64],
    counts: &mut [u32],
    heads: &mut [u32],
    keys: &mut [u64],
    leftovers: &mut [u32; 40000],
    work: &mut [u64],
    out: &mut [u8],
) -> Place
    requires ready { Ready (piece sizes.now deltas.now words.now) (record { items = length heads.old; work = length work.old })
        (sheet counts.old heads.old keys.old starts.now marks.now) place }
    requires rooms { Rooms (sheet counts.old heads.old keys.old starts.now marks.now) }
    requires in_bounds { 4096 ≤ length out.old }
    ensures { Nearer (piece sizes.now deltas.now words.now)
        (record { items = length heads.old; work = length work.old })
        (sheet counts.old heads.old keys.old starts.now marks.now) place
        (sheet counts.new heads.new keys.new starts.now marks.now) result }
{
    let open = page_openings::open_next(
        place, sizes, deltas, words, starts, marks, counts, heads, keys, leftovers, work,
    );
    let put = page_openings::put_lines(open, counts, heads, keys, starts, marks, out);
    let n = put.at;
    io::write_all(STDOUT, &out[..n]);
    put.place
}

// All turns of a page.
fn print_page(
    place: Place,
    sizes: &[u32],
    deltas: &[u32],
    words: &[u32],
    starts: &[u64],
    marks: &[u64],
    counts: &mut [u32],
    heads: &mut [u32],
    keys: &mut [u64],
    leftovers: &mut [u32; 40000],
    work: &mut [u64],
    out: &mut [u8],
)
    requires ready { Ready (piece sizes.now deltas.now words.now) (record { items = length heads.old; work = length work.old })
        (sheet counts.old heads.old keys.old starts.now marks.now) place }
    requires rooms { Rooms (sheet counts.old heads.old keys.old starts.now marks.now) }
    requires in_bounds { 4096 ≤ length out.old }
{
    let mut at = place;
    // Kept: how many turns there are is found on the way.
    while page_openings::goes_on(at) {
        at = turn(
            at, sizes, deltas, words, starts, marks, counts, heads, keys, leftovers, work, out,
        );
    }
}

// Prints what was opened, in arrays that are lent.
pub fn print_lent(
    opened: Opened,
    sizes: &[u32],
    deltas: &[u32],
    words: &[u32],
    starts: &[u64],
    marks: &[u64],
    counts: &mut [u32],
    heads: &mut [u32],
    keys: &mut [u64],
    leftovers: &mut [u32; 40000],
    work: &mut [u64],
    out: &mut [u8],
)
    requires within { Within sizes.now deltas.now words.now opened }
    requires ready_for { ReadyFor opened (record { items = length heads.old; work = length work.old })
        sizes.now deltas.now words.now starts.now marks.now }
    requires rooms { Rooms (sheet counts.old heads.old keys.old starts.now marks.now) }
    requires in_bounds { 4096 ≤ length out.old }
{
    let s = opened.sizes;
    let d = opened.deltas;
    let w = opened.words;
    let place = opened.place;
    print_page(
        place,
        &sizes[..s],
        &deltas[..d],
        &words[..w],
        starts,
        marks,
        counts,
        heads,
        keys,
        leftovers,
        work,
        out,
    );
}
