// A page opened: a piece, a text or a file first, then each part, and its lines put into lent bytes turn by turn.
#![tactic(auto)]

ghost use Rattle.std.specs.Prelude.{◌<◌, ◌≤◌, ◌≡◌, length, None, Some};
ghost use Rattle.basics.specs.Refusals.{number as Refusal·number};
ghost use Rattle.rules.specs.Piece.{piece};
ghost use Rattle.rules.specs.RawNotes.{parts as RawNotes·parts};
ghost use Rattle.rules.specs.Refusals.{note_refusals};
ghost use Rattle.laws.specs.Admitted.{Passes};
ghost use Rattle.piece_text.specs.Held.{Fit};
ghost use Rattle.pages.specs.Page.{room_for, any_file, file_page};
ghost use Rattle.pages.specs.Spots.{sheet, Fits};
ghost use Rattle.page_openings.specs.Places.{goes_on, turned_back, to_open, behind_put, Ready, Rooms, PieceOpened, PartOpened, LinesPut};
ghost use Rattle.pages.specs.declared.Spot.{Spot as Declared·Spot};
ghost use Rattle.page_openings.specs.Places.{no_piece, Within, Opens, FrontOpened, LinesOpen, TextOpens, FileOpens};

use basics::{MOST_BYTES, Refusal};
use pages::{Lines, Spot};
use piece_text::Counts;

// Where a page stands: the number of the refusal whose line is ahead, or 0; how many parts there are and which is opened next; and the spot in the
// part that is open, where one is.
#[derive(Clone, Copy, Debug, PartialEq, Eq)]
pub struct Place {
    // Kept: put_lines and open_next take any number, not only those of a refusal.
    pub number: u32,
    pub parts: u32,
    pub next: u32,
    pub spot: Option<Spot>,
}

// What a turn put: how many bytes, and the place behind them.
#[derive(Drop)]
pub struct Turn {
    pub at: usize,
    pub place: Place,
}

// A refusal's line and nothing else, and where its number is 0 nothing at all.
pub fn refused(number: u32) -> Place
    ensures { result ≡ turned_back number }
{
    Place {
        number,
        parts: 0,
        next: 0,
        spot: None,
    }
}

// All parts.
fn all_parts(parts: u32) -> Place
    ensures { result ≡ to_open parts }
{
    Place {
        number: 0,
        parts,
        next: 0,
        spot: None,
    }
}

// A piece of so many parts, or its refusal by number 8. The bars stand in starts and marks.
fn open_parts(
    sizes: &[u32],
    deltas: &[u32],
    words: &[u32],
    parts: u32,
    items: usize,
    starts: &mut [u64],
    marks: &mut [u64],
    work: &mut [u64],
) -> Place
    requires passes { Passes (note_refusals (piece sizes.now deltas.now words.now)) }
    requires parts_value { parts ≡ length (RawNotes·parts (piece sizes.now deltas.now words.now)) }
    requires in_bounds { (10000 ≤ length starts.old) × (10000 ≤ length marks.old) }
    ensures { PieceOpened (piece sizes.now deltas.now words.now)
        (record { items = items; work = length work.old }) starts.new marks.new result }
{
    match page_room::parts_number(sizes, deltas, words, parts, items, work) {
        Err(refusal) => refused(u32::from(refusal)),
        Ok(()) => {
            // The bars of a piece that is let pass are not refused.
            let _ = bars::bars(sizes, deltas, words, starts, marks);
            all_parts(parts)
        }
    }
}

// A piece opened: its page is ahead.
pub fn open_piece(
    sizes: &[u32],
    deltas: &[u32],
    words: &[u32],
    items: usize,
    starts: &mut [u64],
    marks: &mut [u64],
    work: &mut [u64],
) -> Place
    requires { (10000 ≤ length starts.old) × (10000 ≤ length marks.old) }
    ensures { PieceOpened (piece sizes.now deltas.now words.now)
        (record { items = items; work = length work.old }) starts.new marks.new result }
{
    match heads::part_count(sizes, deltas, words) {
        Err(refusal) => refused(u32::from(refusal)),
        Ok(parts) => open_parts(sizes, deltas, words, parts, items, starts, marks, work),
    }
}

// Whether a line may be ahead.
pub fn goes_on(place: Place) -> bool
    ensures { result ≡ goes_on place }
{
    place.number != 0 || place.spot.is_some() || place.next < place.parts
}

// The next part opened: engraved into the lent arrays. It was found to have room. Its leftovers, four a bar, are not printed.
fn open_part(
    place: Place,
    sizes: &[u32],
    deltas: &[u32],
    words: &[u32],
    starts: &[u64],
    marks: &[u64],
    counts: &mut [u32],
    heads: &mut [u32],
    keys: &mut [u64],
    leftovers: &mut [u32; 40000],
    work: &mut [u64],
) -> Place
    requires ready { Ready (piece sizes.now deltas.now words.now) (record { items = length heads.old; work = length work.old })
        (sheet counts.old heads.old keys.old starts.now marks.now) place }
    requires rooms { Rooms (sheet counts.old heads.old keys.old starts.now marks.now) }
    requires number_value { (place.number ≡ 0) × (place.spot ≡ None) × (place.next < place.parts) }
    ensures { PartOpened (piece sizes.now deltas.now words.now)
        (record { items = length heads.old; work = length work.old })
        (sheet counts.old heads.old keys.old starts.now marks.now) place
        (sheet counts.new heads.new keys.new starts.now marks.now) result }
{
    let p = tracks::ticks_per_quarter(sizes);
    match staffs::engrave(
        sizes, deltas, words, place.next, counts, heads, keys, leftovers, work,
    ) {
        Err(_) => place,
        Ok(size) => Place {
            next: place.next + 1,
            spot: Some(pages::begin(place.next, p, size.bars)),
            ..place
        },
    }
}

// The same place, with a part opened where none is open and one is left.
pub fn open_next(
    place: Place,
    sizes: &[u32],
    deltas: &[u32],
    words: &[u32],
    starts: &[u64],
    marks: &[u64],
    counts: &mut [u32],
    heads: &mut [u32],
    keys: &mut [u64],
    leftovers: &mut [u32; 40000],
    work: &mut [u64],
) -> Place
    requires ready { Ready (piece sizes.now deltas.now words.now) (record { items = length heads.old; work = length work.old })
        (sheet counts.old heads.old keys.old starts.now marks.now) place }
    requires rooms { Rooms (sheet counts.old heads.old keys.old starts.now marks.now) }
    ensures { PartOpened (piece sizes.now deltas.now words.now)
        (record { items = length heads.old; work = length work.old })
        (sheet counts.old heads.old keys.old starts.now marks.now) place
        (sheet counts.new heads.new keys.new starts.now marks.now) result }
{
    if place.number != 0 {
        return place;
    }
    if place.spot.is_some() {
        return place;
    }
    if place.parts <= place.next {
        return place;
    }
    open_part(
        place, sizes, deltas, words, starts, marks, counts, heads, keys, leftovers, work,
    )
}

// Behind lines that were put.
fn behind(place: Place, put: Lines) -> Turn
    ensures { result ≡ behind_put place put }
{
    Turn {
        at: put.at,
        place: Place {
            number: 0,
            spot: put.rest,
            ..place
        },
    }
}

// The next lines put at the front of `out`, as many as it surely holds: a refusal's, or those of the part that is open.
pub fn put_lines(
    place: Place,
    counts: &[u32],
    heads: &[u32],
    keys: &[u64],
    starts: &[u64],
    marks: &[u64],
    out: &mut [u8],
) -> Turn
    requires fits { (spot : Declared·Spot) → place.spot ≡ Some spot → Fits (sheet counts.now heads.now keys.now starts.now marks.now) spot }
    requires in_bounds { 4096 ≤ length out.old }
    ensures { LinesPut (sheet counts.now heads.now keys.now starts.now marks.now)
        place out.new result }
{
    if place.number != 0 {
        let at = bar_lines::put_refused(out, 0, place.number as u64);
        let end = refused(0);
        return Turn { at, place: end };
    }
    let Some(spot) = place.spot else {
        return Turn { at: 0, place };
    };
    let put = pages::next_lines(spot, counts, heads, keys, starts, marks, out);
    behind(place, put)
}

// What was read is opened: the place, and how much of each array is the piece.
#[derive(Drop)]
pub struct Opened {
    pub place: Place,
    pub sizes: usize,
    pub deltas: usize,
    pub words: usize,
}

// A refusal, with no piece.
fn no_piece(refusal: Refusal) -> Opened
    ensures { result ≡ no_piece (Refusal·number refusal) }
{
    Opened {
        place: refused(u32::from(refusal)),
        sizes: 0,
        deltas: 0,
        words: 0,
    }
}

// The piece at the front of the arrays, opened.
fn open_front(
    size: Counts,
    sizes: &[u32],
    deltas: &[u32],
    words: &[u32],
    items: usize,
    starts: &mut [u64],
    marks: &mut [u64],
    work: &mut [u64],
) -> Opened
    requires fit { Fit size sizes.now deltas.now words.now }
    requires in_bounds { (10000 ≤ length starts.old) × (10000 ≤ length marks.old) }
    ensures { FrontOpened size (record { items = items; work = length work.old })
        sizes.now deltas.now words.now starts.new marks.new result }
{
    let s = size.sizes;
    let d = size.deltas;
    let w = size.words;
    let place = open_piece(
        &sizes[..s],
        &deltas[..d],
        &words[..w],
        items,
        starts,
        marks,
        work,
    );
    Opened {
        place,
        sizes: s,
        deltas: d,
        words: w,
    }
}

// A text of three lines: the piece that the arrays hold, or the refusal of one that they do not hold whole.
fn open_lines(
    counts: Counts,
    sizes: &[u32],
    deltas: &[u32],
    words: &[u32],
    items: usize,
    starts: &mut [u64],
    marks: &mut [u64],
    work: &mut [u64],
) -> Opened
    requires sizes_len { (length sizes.now ≡ 65537) × (length deltas.now ≡ 500000) × (length words.now ≡ 500000) }
    requires in_bounds { (10000 ≤ length starts.old) × (10000 ≤ length marks.old) }
    ensures within { Within sizes.now deltas.now words.now result }
    ensures opens { LinesOpen counts (record { items = items; work = length work.old })
        sizes.now deltas.now words.now starts.new marks.new result }
{
    match piece_text::number_due(counts, sizes, deltas, words) {
        Err(refusal) => no_piece(refusal),
        Ok(()) => open_front(counts, sizes, deltas, words, items, starts, marks, work),
    }
}

// A text opened: its page is ahead, whatever text was read into the arrays.
pub fn open_text(
    read: Option<Counts>,
    sizes: &[u32],
    deltas: &[u32],
    words: &[u32],
    items: usize,
    starts: &mut [u64],
    marks: &mut [u64],
    work: &mut [u64],
) -> Opened
    requires sizes_len { (length sizes.now ≡ 65537) × (length deltas.now ≡ 500000) × (length words.now ≡ 500000) }
    requires in_bounds { (10000 ≤ length starts.old) × (10000 ≤ length marks.old) }
    ensures within { Within sizes.now deltas.now words.now result }
    ensures opens { TextOpens read (record { items = items; work = length work.old })
        sizes.now deltas.now words.now starts.new marks.new result }
{
    match read {
        None => no_piece(Refusal::SizesDisagree),
        Some(counts) => open_lines(counts, sizes, deltas, words, items, starts, marks, work),
    }
}

// A file that is held whole, opened: its page is ahead. The arrays have room for every piece that a file is read as.
fn open_bytes(
    file: &[u8],
    sizes: &mut [u32],
    deltas: &mut [u32],
    words: &mut [u32],
    items: usize,
    starts: &mut [u64],
    marks: &mut [u64],
    work: &mut [u64],
) -> Opened
    requires in_bounds { (65537 ≤ length sizes.old) × (500000 ≤ length deltas.old) × (500000 ≤ length words.old) }
    requires in_bounds_2 { (10000 ≤ length starts.old) × (10000 ≤ length marks.old) }
    ensures within { Within sizes.new deltas.new words.new result }
    ensures opens { Opens (file_page any_file (room_for (record { items = items; work = length work.old })) file.now)
        (record { items = items; work = length work.old })
        sizes.new deltas.new words.new starts.new marks.new result }
{
    match files::read(file, sizes, deltas, words) {
        Err(refusal) => no_piece(refusal),
        Ok(size) => {
            let counts = Counts {
                sizes: size.sizes,
                deltas: size.events,
                words: size.events,
            };
            open_front(counts, sizes, deltas, words, items, starts, marks, work)
        }
    }
}

// A file opened, of which so many bytes were read and at most `most` are held: its page is ahead, whatever file it is.
pub fn open_file(
    file: &[u8],
    read: usize,
    most: usize,
    sizes: &mut [u32],
    deltas: &mut [u32],
    words: &mut [u32],
    items: usize,
    starts: &mut [u64],
    marks: &mut [u64],
    work: &mut [u64],
) -> Opened
    requires in_bounds { (65537 ≤ length sizes.old) × (500000 ≤ length deltas.old) × (500000 ≤ length words.old) }
    requires in_bounds_2 { (10000 ≤ length starts.old) × (10000 ≤ length marks.old) }
    ensures within { Within sizes.new deltas.new words.new result }
    ensures opens { FileOpens file.now read most (record { items = items; work = length work.old })
        sizes.new deltas.new words.new starts.new marks.new result }
{
    if MOST_BYTES < read {
        return no_piece(Refusal::TooManyBytes);
    }
    if most < read {
        return no_piece(Refusal::NoRoom);
    }
    open_bytes(file, sizes, deltas, words, items, starts, marks, work)
}
