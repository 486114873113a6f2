// The calls on a MIDI file: its bytes read as a piece.
#![tactic(auto)]

ghost use Rattle.std.specs.Prelude.{◌+◌, ◌≤◌, ◌≡◌, ◌∷◌, map, length};
ghost use Rattle.rules.specs.Lists.{written};
ghost use Rattle.rules.specs.Refusals.{as_it_is};
ghost use Rattle.rules.specs.File.{Timed, header, file_tracks, file_piece, count_fits};
ghost use Rattle.rules.specs.Calls.{read_size_call, read_call, ReadCalled};
ghost use Rattle.laws.specs.Parsed.{Agrees};
ghost use Rattle.basics.specs.Refusals.{number_of};
ghost use Rattle.files.specs.Answers.{piece_answer};
ghost use Rattle.files.specs.Examined.{HeaderIs, header_read, count_fits_header, number_behind, HeaderStands, Examines, Whole};

use basics::{MOST_BYTES, MOST_EVENTS, Refusal};
use file_tracks::{MTHD, gather_tracks, two_bytes};

// How many sizes and how many events a piece has.
#[derive(Clone, Copy)]
pub struct PieceSize {
    pub sizes: usize,
    pub events: usize,
}

// What a header says, and where the chunks behind it start.
#[derive(Clone, Copy)]
pub struct Header {
    pub format: u32,
    pub count: u32,
    pub division: u32,
    pub next: usize,
}

// A file of which no number is to be given: its division, where its chunks start, how many tracks and events it has.
#[derive(Clone, Copy)]
pub struct Examined {
    pub division: u32,
    pub start: usize,
    pub tracks: usize,
    pub events: usize,
}

// The header: the file's first chunk, of six bytes or more.
fn read_header(bytes: &[u8]) -> Option<Header>
    ensures { Agrees (HeaderIs bytes.now) (header bytes.now) (header_read result) }
{
    let chunk = file_tracks::read_chunk(bytes, 0)?;
    if chunk.kind != MTHD {
        return None;
    }
    let from = chunk.from;
    if chunk.to - from < 6 {
        return None;
    }
    Some(Header {
        format: two_bytes(bytes, from),
        count: two_bytes(bytes, from + 2),
        division: two_bytes(bytes, from + 4),
        next: chunk.to,
    })
}

// Whether the tracks found are as many as the header says, one where the format is 0.
fn count_fits(h: Header, tracks: usize) -> bool
    ensures { result ≡ count_fits_header h tracks }
{
    tracks == h.count as usize && (h.format != 0 || tracks == 1)
}

// What refuses what is behind the header: that the count does not fit, the division, how many events, or a bad word.
fn first_number(fits: bool, division: u32, events: usize, good: bool) -> Result<(), Refusal>
    ensures { number_of result ≡ number_behind fits division events good }
{
    if !fits {
        return Err(Refusal::BrokenFile);
    }
    if division == 0 {
        return Err(Refusal::DivisionZero);
    }
    if MOST_EVENTS < events {
        return Err(Refusal::TooManyEvents);
    }
    if !good {
        return Err(Refusal::BadWord);
    }
    Ok(())
}

// What is behind a header of format 0 or 1, with arrays that take nothing.
fn examine_tracks(bytes: &[u8], h: Header) -> Result<Examined, Refusal>
    requires { HeaderStands bytes.now h }
    ensures { Examines bytes.now result }
{
    let mut sizes = [0u32; 1];
    let mut deltas = [0u32; 1];
    let mut words = [0u32; 1];
    let g = gather_tracks(
        bytes,
        h.next,
        &mut sizes[..0],
        &mut deltas[..0],
        &mut words[..0],
    )
    .ok_or(Refusal::BrokenFile)?;
    let fits = count_fits(h, g.tracks);
    first_number(fits, h.division, g.events, g.bad == 0)?;
    Ok(Examined {
        division: h.division,
        start: h.next,
        tracks: g.tracks,
        events: g.events,
    })
}

// The whole file walked: 11, 12, 13, 12, 2, 3, 5.
fn examine(bytes: &[u8]) -> Result<Examined, Refusal>
    ensures { Examines bytes.now result }
{
    if MOST_BYTES < bytes.len() {
        return Err(Refusal::TooManyBytes);
    }
    let h = read_header(bytes).ok_or(Refusal::BrokenFile)?;
    if 1 < h.format {
        return Err(Refusal::UnknownFormat);
    }
    examine_tracks(bytes, h)
}

// How many sizes and events a file's piece has. Refusals 11, 12, 13, 2, 3, 5.
pub fn read_size(bytes: &[u8]) -> Result<PieceSize, Refusal>
    ensures { piece_answer result ≡ read_size_call bytes.now }
{
    let e = examine(bytes)?;
    Ok(PieceSize {
        sizes: 2 + e.tracks,
        events: e.events,
    })
}

// Writes the piece of a file, where there is room.
fn write_piece(bytes: &[u8], e: Examined, sizes: &mut [u32], deltas: &mut [u32], words: &mut [u32])
    requires whole { Whole bytes.now e }
    requires tracks_in_bounds { (2 + e.tracks ≤ length sizes.old) × (e.events ≤ length deltas.old) × (e.events ≤ length words.old) }
    ensures sizes { sizes.new ≡ written (file_piece bytes.now).sizes sizes.old }
    ensures deltas { deltas.new ≡ written (file_piece bytes.now).deltas deltas.old }
    ensures words { words.new ≡ written (file_piece bytes.now).words words.old }
{
    sizes[0] = e.division;
    sizes[1] = e.tracks as u32;
    gather_tracks(bytes, e.start, &mut sizes[2..], deltas, words);
}

// A file of which no number but 8 is to be given.
fn read_whole(
    bytes: &[u8],
    e: Examined,
    sizes: &mut [u32],
    deltas: &mut [u32],
    words: &mut [u32],
) -> Result<PieceSize, Refusal>
    requires { Whole bytes.now e }
    ensures { ReadCalled as_it_is
        (read_call bytes.now (length sizes.old) (length deltas.old) (length words.old))
        sizes.old deltas.old words.old (piece_answer result)
        sizes.new deltas.new words.new }
{
    if sizes.len() < 2 + e.tracks {
        return Err(Refusal::NoRoom);
    }
    if deltas.len() < e.events {
        return Err(Refusal::NoRoom);
    }
    if words.len() < e.events {
        return Err(Refusal::NoRoom);
    }
    write_piece(bytes, e, sizes, deltas, words);
    Ok(PieceSize {
        sizes: 2 + e.tracks,
        events: e.events,
    })
}

// A file's piece: how many sizes and events, and the three arrays. Refusals 11, 12, 13, 2, 3, 5, 8.
pub fn read(
    bytes: &[u8],
    sizes: &mut [u32],
    deltas: &mut [u32],
    words: &mut [u32],
) -> Result<PieceSize, Refusal>
    ensures { ReadCalled as_it_is
        (read_call bytes.now (length sizes.old) (length deltas.old) (length words.old))
        sizes.old deltas.old words.old (piece_answer result)
        sizes.new deltas.new words.new }
{
    let e = examine(bytes)?;
    read_whole(bytes, e, sizes, deltas, words)
}
