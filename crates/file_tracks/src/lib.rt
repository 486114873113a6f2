// The tracks of a MIDI file: chunk after chunk, their events gathered into lent arrays. What finds no room in an array is counted all the same, so that
// with empty arrays a file is only examined.
#![tactic(auto)]

ghost use Rattle.std.specs.Prelude.{ℕ, ◌+◌, ◌-◌, ◌≤◌, ◌<◌, cond, ◌&&◌, List, [], ◌∷◌, ◌++◌, ◌≡◌, eqb, length, get_or, take, drop};
ghost use Rattle.std.proofs.Math.Option.{none, some};
ghost use Rattle.rules.specs.Standard.{big_endian};
ghost use Rattle.rules.specs.File.{Front, Timed, track_of, chunk, tracks_of, most_bytes};
ghost use Rattle.laws.specs.Parsed.{Agrees};
ghost use Rattle.file_events.specs.Events.{EventIs};
ghost use Rattle.file_tracks.specs.Gathering.{stored, EventsHeld, TracksHeld, Grown, gathered_read, ChunkIs, chunk_read, chunk_tracks};

use file_events::TimedEvent;

// The letters MThd and MTrk, as numbers.
pub const MTHD: u32 = 0x4d54_6864;

const MTRK: u32 = 0x4d54_726b;

// What was gathered: tracks and events counted; bad is 0 where every word is in the table of kinds, else 1.
#[derive(Clone, Copy)]
pub struct Gathered {
    pub tracks: usize,
    pub events: usize,
    // Kept: as a bool it is narrower than the counts, and each copy waits for its store: 64 MB of empty chunks took 96 ms in place of 36.
    pub bad: usize,
}

// A chunk: its type, where its bytes start, and where those behind it start.
#[derive(Clone, Copy)]
pub struct Chunk {
    pub kind: u32,
    pub from: usize,
    pub to: usize,
}

// One word more, in the table or not.
fn noted(bad: usize, good: bool) -> usize
    ensures { eqb result 0 ≡ (eqb bad 0 && good) }
{
    if good { bad } else { 1 }
}

// Stores an element, where there is room.
fn store(xs: &mut [u32], n: usize, v: u32)
    ensures { xs.new ≡ stored xs.old n v }
{
    if n < xs.len() {
        xs[n] = v;
    }
}

// One event more.
fn put_event(timed: TimedEvent, g: Gathered, deltas: &mut [u32], words: &mut [u32]) -> Gathered
    requires { g.events < most_bytes }
    ensures counts { (result.events ≡ g.events + 1) × (result.tracks ≡ g.tracks) }
    ensures held { (bs : List ℕ) (at : ℕ) (e : Front Timed) (ds ws : List ℕ) (es : List Timed) → EventIs bs at e timed
        → EventsHeld es g ds ws deltas.old words.old
        → EventsHeld (es ++ (e.read ∷ [])) result ds ws deltas.new words.new }
{
    let event = timed.event;
    store(deltas, g.events, timed.delta);
    store(words, g.events, event.word);
    Gathered {
        tracks: g.tracks,
        events: g.events + 1,
        bad: noted(g.bad, event.good),
    }
}

// A track's events, behind those gathered before.
fn read_track(
    body: &[u8],
    gathered: Gathered,
    deltas: &mut [u32],
    words: &mut [u32],
) -> Option<Gathered>
    requires { gathered.events + length body.now ≤ most_bytes }
    ensures grown { Grown gathered (length body.now) 0 result }
    ensures held { (ds ws : List ℕ) (es : List Timed) → EventsHeld es gathered ds ws deltas.old words.old
        → Agrees (λ t g. EventsHeld (es ++ t) g ds ws deltas.new words.new) (track_of body.now) (gathered_read result) }
{
    let mut g = gathered;
    let mut running = None;
    let mut at = 0;
    // Kept: where the next event starts is found on the way, so no range says it.
    while at < body.len() {
        let timed = file_events::read_event(body, running, at)?;
        g = put_event(timed, g, deltas, words);
        let event = timed.event;
        if event.ends {
            return (event.next == body.len()).then_some(g);
        }
        running = event.running;
        at = event.next;
    }
    None
}

// A number of two bytes, and of four, the most significant first.
pub fn two_bytes(bytes: &[u8], at: usize) -> u32
    requires { at + 2 ≤ length bytes.now }
    ensures { (result ≡ big_endian (take 2 (drop at bytes.now))) × (result < 65536) }
{
    u32::from(u16::from_be_bytes([bytes[at], bytes[at + 1]]))
}

fn four_bytes(bytes: &[u8], at: usize) -> u32
    requires { at + 4 ≤ length bytes.now }
    ensures { result ≡ big_endian (take 4 (drop at bytes.now)) }
{
    u32::from_be_bytes([bytes[at], bytes[at + 1], bytes[at + 2], bytes[at + 3]])
}

// The chunk at a place.
pub fn read_chunk(bytes: &[u8], at: usize) -> Option<Chunk>
    requires { at ≤ length bytes.now }
    ensures { Agrees (ChunkIs bytes.now at) (chunk (drop at bytes.now)) (chunk_read result) }
{
    if bytes.len() - at < 8 {
        return None;
    }
    let kind = four_bytes(bytes, at);
    let length = four_bytes(bytes, at + 4) as usize;
    let from = at + 8;
    if bytes.len() - from < length {
        return None;
    }
    Some(Chunk {
        kind,
        from,
        to: from + length,
    })
}

// A track's events and their count.
fn gather_track(
    body: &[u8],
    gathered: Gathered,
    sizes: &mut [u32],
    deltas: &mut [u32],
    words: &mut [u32],
) -> Option<Gathered>
    requires { (gathered.events + length body.now ≤ most_bytes) × (gathered.tracks < most_bytes) }
    ensures grown { Grown gathered (length body.now) 1 result }
    ensures held { (ss ds ws : List ℕ) (ts : List (List Timed))
        → TracksHeld ts gathered ss ds ws sizes.old deltas.old words.old
        → Agrees (λ t g. TracksHeld (ts ++ (t ∷ [])) g ss ds ws sizes.new deltas.new words.new)
        (track_of body.now) (gathered_read result) }
{
    let g = read_track(body, gathered, deltas, words)?;
    store(sizes, gathered.tracks, (g.events - gathered.events) as u32);
    Some(Gathered {
        tracks: gathered.tracks + 1,
        events: g.events,
        bad: g.bad,
    })
}

// What a chunk behind the header adds: a track its events, an unknown chunk nothing. A second header is broken.
fn gather_chunk(
    bytes: &[u8],
    chunk: Chunk,
    gathered: Gathered,
    sizes: &mut [u32],
    deltas: &mut [u32],
    words: &mut [u32],
) -> Option<Gathered>
    requires from_le_to { (chunk.from ≤ chunk.to) × (chunk.to ≤ length bytes.now) × (length bytes.now ≤ most_bytes) }
    requires events_le_from { (gathered.events ≤ chunk.from) × (gathered.tracks < chunk.from) }
    ensures grown { Grown gathered (chunk.to - chunk.from) 1 result }
    ensures held { (ss ds ws : List ℕ) (ts : List (List Timed))
        → TracksHeld ts gathered ss ds ws sizes.old deltas.old words.old
        → Agrees (λ more g. TracksHeld (ts ++ more) g ss ds ws sizes.new deltas.new words.new)
        (chunk_tracks chunk.kind (take (chunk.to - chunk.from) (drop chunk.from bytes.now))) (gathered_read result) }
{
    let from = chunk.from;
    let to = chunk.to;
    if chunk.kind == MTHD {
        return None;
    }
    if chunk.kind == MTRK {
        return gather_track(&bytes[from..to], gathered, sizes, deltas, words);
    }
    Some(gathered)
}

// The tracks of the chunks from a place on.
pub fn gather_tracks(
    bytes: &[u8],
    start: usize,
    sizes: &mut [u32],
    deltas: &mut [u32],
    words: &mut [u32],
) -> Option<Gathered>
    requires { (8 ≤ start) × (start ≤ length bytes.now) × (length bytes.now ≤ most_bytes) }
    ensures { Agrees
        (λ ts g. TracksHeld ts g sizes.old deltas.old words.old
        sizes.new deltas.new words.new)
        (tracks_of (drop start bytes.now)) (gathered_read result) }
{
    let mut g = Gathered {
        tracks: 0,
        events: 0,
        bad: 0,
    };
    let mut at = start;
    // Kept: a chunk says where the next one starts, so no range does.
    while at < bytes.len() {
        let chunk = read_chunk(bytes, at)?;
        let next = gather_chunk(bytes, chunk, g, sizes, deltas, words)?;
        g = next;
        at = chunk.to;
    }
    Some(g)
}
