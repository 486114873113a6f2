// Events: words taken apart, in one place, by section 1's table of kinds. Tracks: one cut out of a piece's arrays.
#![tactic(auto)]

ghost use Rattle.std.specs.Prelude.{◌≡◌, ◌&&◌, leb, length, ◌+◌, ◌≤◌, ◌<◌};
ghost use Rattle.rules.specs.Piece.{kind_of, is_kind, byte_a, byte_b, well_formed, is_on, is_off, tempo_value};
ghost use Rattle.track_events.specs.Kinds.{kind_number, IsKind};
ghost use Rattle.track_events.specs.Track.{IsWord, stretch};

// What an event says, by the number in its word's top byte.
#[derive(Clone, Copy, Debug, PartialEq, Eq)]
pub enum Kind {
    // A meta event that the rules do not read.
    Meta = 0,
    // A system event.
    System = 1,
    Tempo = 2,
    Meter = 3,
    Key = 4,
    // A marker, or text of another sort.
    Marker = 5,
    EndOfTrack = 6,
    NoteOff = 8,
    NoteOn = 9,
    KeyPressure = 10,
    Controller = 11,
    Program = 12,
    ChannelPressure = 13,
    Bend = 14,
}

impl From<Kind> for u32 {
    ghost from_gives = { λ k n. n ≡ kind_number k };

    fn from(kind: Kind) -> u32 {
        kind as u32
    }
}

// A word's four bytes, from the top: the kind's number and, if a kind has it, the kind; then a, b and c.
#[derive(Clone, Copy)]
pub struct Word {
    pub number: u32,
    pub kind: Option<Kind>,
    pub a: u32,
    pub b: u32,
    pub c: u32,
}

// The word taken apart.
pub fn take_apart(w: u32) -> Word
    ensures { IsWord w result }
{
    Word {
        number: kind_of(w),
        kind: known_kind(w),
        a: byte_a(w),
        b: byte_b(w),
        c: w % 256,
    }
}

// The number of a word's kind, whether a kind has it or not.
pub fn kind_of(w: u32) -> u32
    ensures { result ≡ kind_of w }
{
    w / 16777216
}

// The kind of that number, if one has it.
pub fn known_kind(w: u32) -> Option<Kind>
    ensures { IsKind (kind_of w) result }
{
    match kind_of(w) {
        0 => Some(Kind::Meta),
        1 => Some(Kind::System),
        2 => Some(Kind::Tempo),
        3 => Some(Kind::Meter),
        4 => Some(Kind::Key),
        5 => Some(Kind::Marker),
        6 => Some(Kind::EndOfTrack),
        8 => Some(Kind::NoteOff),
        9 => Some(Kind::NoteOn),
        10 => Some(Kind::KeyPressure),
        11 => Some(Kind::Controller),
        12 => Some(Kind::Program),
        13 => Some(Kind::ChannelPressure),
        14 => Some(Kind::Bend),
        _ => None,
    }
}

// Whether a word is of this kind.
pub fn is_kind(w: u32, kind: Kind) -> bool
    ensures { result ≡ is_kind (kind_number kind) w }
{
    kind_of(w) == u32::from(kind)
}

// A word's bytes a and b alone.
pub fn byte_a(w: u32) -> u32
    ensures { result ≡ byte_a w }
{
    w / 65536 % 256
}

pub fn byte_b(w: u32) -> u32
    ensures { result ≡ byte_b w }
{
    w / 256 % 256
}

// Whether a, b and c are at most these limits.
fn within(x: Word, a: u32, b: u32, c: u32) -> bool
    ensures { result ≡ (leb x.a a && leb x.b b && leb x.c c) }
{
    if a < x.a {
        return false;
    }
    if b < x.b {
        return false;
    }
    x.c <= c
}

// Whether the bytes are in the range of the word's kind, and unused bytes are 0.
pub fn well_formed(w: u32) -> bool
    ensures { result ≡ well_formed w }
{
    let x = take_apart(w);
    let Some(kind) = x.kind else {
        return false;
    };
    match kind {
        Kind::Meta | Kind::System | Kind::EndOfTrack => within(x, 0, 0, 0),
        Kind::Tempo => true,
        Kind::Meter => within(x, 255, 7, 0),
        Kind::Key => within(x, 255, 1, 0),
        Kind::Marker => within(x, 255, 255, 0),
        Kind::NoteOff | Kind::NoteOn | Kind::KeyPressure | Kind::Controller | Kind::Bend => {
            within(x, 15, 127, 127)
        }
        Kind::Program | Kind::ChannelPressure => within(x, 15, 127, 0),
    }
}

// Whether the word is a note-on above velocity 0.
pub fn is_on(w: u32) -> bool
    ensures { result ≡ is_on w }
{
    kind_of(w) == Kind::NoteOn as u32 && w % 256 != 0
}

// Whether the word is a note-off, or a note-on with velocity 0.
pub fn is_off(w: u32) -> bool
    ensures { result ≡ is_off w }
{
    let kind = kind_of(w);
    kind == Kind::NoteOff as u32 || kind == Kind::NoteOn as u32 && w % 256 == 0
}

// The microseconds per quarter of a tempo's word.
pub fn tempo_value(w: u32) -> u32
    ensures { result ≡ tempo_value w }
{
    w % 16777216
}

// The events of a track that stands at from..to of a piece's deltas or words.
pub fn cut(s: &[u32], from: usize, to: usize) -> &[u32]
    requires { (from ≤ to) × (to ≤ length s.now) }
    ensures { result.now ≡ stretch from to s.now }
{
    &s[from..to]
}

// The end of the block of events that begins at i: long pieces are looked through block by block.
pub fn block_end(i: usize, len: usize) -> usize
    requires { i < len }
    ensures { (i < result) × (result ≤ len) × (result ≤ i + 256) }
{
    if len - i < 256 { len } else { i + 256 }
}
