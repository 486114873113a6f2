// Limits and refusals by their names, the size of a work area, and its zeroing.
#![tactic(auto)]

ghost use Rattle.std.specs.Prelude.{◌≡◌, ◌≤◌};
ghost use Rattle.rules.specs.Lists.{cleared};
ghost use Rattle.rules.specs.Refusals.{work_for, most_events};
ghost use Rattle.basics.specs.Refusals.{number};

// The most events, tracks (and the largest division), parts and bars of a piece, and the largest delta.
pub const MOST_EVENTS: usize = 500000;

pub const LARGEST_SIZE: u32 = 65535;

pub const MOST_PARTS: usize = 32;

pub const MOST_BARS: usize = 10000;

pub const LARGEST_DELTA: u32 = 268435455;

// The most bytes of a file.
pub const MOST_BYTES: usize = 67108864;

// Why a call is refused, with its number, as documents 01 and 02 number the refusals.
#[derive(Clone, Copy, Debug, PartialEq, Eq)]
pub enum Refusal {
    // Three arrays whose lengths do not fit the sizes, or sizes that are too large.
    SizesDisagree = 1,
    DivisionZero = 2,
    TooManyEvents = 3,
    LargeDelta = 4,
    BadWord = 5,
    NoNotes = 6,
    NoSuchPart = 7,
    // A work area or an output that is too short.
    NoRoom = 8,
    UnevenPart = 9,
    // A code, dots or a key out of range.
    OutOfRange = 10,
    TooManyBytes = 11,
    BrokenFile = 12,
    // A file of another format than 0 and 1.
    UnknownFormat = 13,
}

impl From<Refusal> for u32 {
    ghost from_gives = { λ r n. n ≡ number r };

    fn from(r: Refusal) -> u32 {
        r as u32
    }
}

// The words of a work area for at most n notes in one track.
pub fn work_for(n: usize) -> usize
    requires { n ≤ most_events }
    ensures { result ≡ work_for n }
{
    16 * n + 4096
}

// Zeroes a work area, the last thing that a call with one does.
pub fn clear(work: &mut [u64])
    ensures { work.new ≡ cleared work.old }
{
    work.fill(0);
}
