// The text of a piece, three lines of decimals, read byte by byte into lent arrays. Numbers that find no room are counted.
#![tactic(auto)]

ghost use Rattle.std.specs.Prelude.{ℕ, ◌*◌, ◌≤◌, ◌<◌, List, [], ◌∷◌, ◌++◌, ◌⊎◌, ◌≡◌, length};
ghost use Rattle.rules.specs.Piece.{Piece, piece};
ghost use Rattle.rules.specs.Refusals.{first_number, piece_refusals};
ghost use Rattle.basics.specs.Refusals.{number as Refusal·number, number_of};
ghost use Rattle.piece_text.specs.Text.{is_blank, ends_number, spoiled, with_digit, number_ended, line_ended, place_after, three_lines, put_number, put_begun, Reading, stepped, read_on, nothing_read, ended, text_piece};
ghost use Rattle.piece_text.specs.Held.{Counted, Held, PieceHeld, ReadingHeld, Answers, Fit, Due};

use basics::{LARGEST_SIZE, Refusal};

// How far a text is read: the lines ended, whether the line has a byte, the number begun, and whether the text is bad.
// Kept: read_bytes and finish take any place, also one that no text leads to; numbers and flags say them all.
#[derive(Clone, Copy, Debug, PartialEq, Eq)]
pub struct Place {
    pub line: u32,
    pub started: bool,
    pub begun: bool,
    pub value: u32,
    pub bad: bool,
}

// How many numbers each line has.
#[derive(Clone, Copy, Debug, PartialEq, Eq)]
pub struct Counts {
    pub sizes: usize,
    pub deltas: usize,
    pub words: usize,
}

#[derive(Drop)]
pub struct Reader {
    pub at: Place,
    pub counts: Counts,
}

fn is_blank(b: u8) -> bool
    ensures { result ≡ is_blank b }
{
    matches!(b, b' ' | b'\t' | b'\r')
}

fn ends_number(b: u8) -> bool
    ensures { result ≡ ends_number b }
{
    is_blank(b) || b == b'\n'
}

impl Place {
    fn spoil(self) -> Place
        ensures { result ≡ spoiled self }
    {
        Place { bad: true, ..self }
    }

    fn digit(self, b: u8) -> Place
        requires { 48 ≤ b }
        ensures { result ≡ with_digit self b }
    {
        let value = self.value as u64 * 10 + (b as u64 - 48);
        if 4294967295 < value {
            return self.spoil();
        }
        Place {
            started: true,
            begun: true,
            value: value as u32,
            ..self
        }
    }

    fn end_number(self) -> Place
        ensures { result ≡ number_ended self }
    {
        Place {
            started: true,
            begun: false,
            value: 0,
            ..self
        }
    }

    fn end_line(self) -> Place
        requires { self.line ≤ 2 }
        ensures { result ≡ line_ended self }
    {
        Place {
            line: self.line + 1,
            started: false,
            begun: false,
            value: 0,
            ..self
        }
    }

    // The place behind one byte more.
    fn after(self, b: u8) -> Place
        ensures { result ≡ place_after self b }
    {
        if 2 < self.line {
            return self.spoil();
        }
        if b.is_ascii_digit() {
            return self.digit(b);
        }
        if is_blank(b) {
            return self.end_number();
        }
        if b == b'\n' {
            return self.end_line();
        }
        self.spoil()
    }

    // Whether a text that ends here has three lines.
    fn has_three_lines(self) -> bool
        ensures { result ≡ three_lines self }
    {
        if self.bad {
            return false;
        }
        if self.line == 3 {
            return true;
        }
        self.line == 2 && self.started
    }
}

// Where counting stops: 2^50, above any sum of event counts.
const MOST_COUNTED: usize = 1125899906842624;

// Stores a number behind n others, where the array has room, and answers the new count.
fn store(xs: &mut [u32], n: usize, v: u32) -> usize
    ensures { (l : List ℕ) → Held l n xs.old → Held (l ++ (v ∷ [])) result xs.new }
{
    if MOST_COUNTED <= n {
        return n;
    }
    if n < xs.len() {
        xs[n] = v;
        return n + 1;
    }
    n + 1
}

// Stores a number of a line in its array.
fn store_number(
    line: u32,
    v: u32,
    counts: Counts,
    sizes: &mut [u32],
    deltas: &mut [u32],
    words: &mut [u32],
) -> Counts
    ensures { (x : Piece) → PieceHeld x counts sizes.old deltas.old words.old
        → PieceHeld (put_number line v x) result sizes.new deltas.new words.new }
{
    match line {
        0 => {
            let sizes = store(sizes, counts.sizes, v);
            Counts { sizes, ..counts }
        }
        1 => {
            let deltas = store(deltas, counts.deltas, v);
            Counts { deltas, ..counts }
        }
        2 => {
            let words = store(words, counts.words, v);
            Counts { words, ..counts }
        }
        _ => counts,
    }
}

// Stores the number begun, where there is one.
fn store_begun(
    at: Place,
    counts: Counts,
    sizes: &mut [u32],
    deltas: &mut [u32],
    words: &mut [u32],
) -> Counts
    ensures { (x : Piece) → PieceHeld x counts sizes.old deltas.old words.old
        → PieceHeld (put_begun at x) result sizes.new deltas.new words.new }
{
    if at.begun {
        return store_number(at.line, at.value, counts, sizes, deltas, words);
    }
    counts
}

// One byte read.
fn step(reader: Reader, b: u8, sizes: &mut [u32], deltas: &mut [u32], words: &mut [u32]) -> Reader
    ensures { (a : Reading) → ReadingHeld a reader sizes.old deltas.old words.old
        → ReadingHeld (stepped a b) result sizes.new deltas.new words.new }
{
    let at = reader.at;
    let counts = reader.counts;
    let next = at.after(b);
    if ends_number(b) {
        let more = store_begun(at, counts, sizes, deltas, words);
        return Reader {
            at: next,
            counts: more,
        };
    }
    Reader { at: next, counts }
}

// The reader at the start of a text.
pub fn start() -> Reader
    ensures { (sizes deltas words : List ℕ) → ReadingHeld nothing_read result sizes deltas words }
{
    Reader {
        at: Place {
            line: 0,
            started: false,
            begun: false,
            value: 0,
            bad: false,
        },
        counts: Counts {
            sizes: 0,
            deltas: 0,
            words: 0,
        },
    }
}

// Some bytes more of a text.
pub fn read_bytes(
    reader: Reader,
    bytes: &[u8],
    sizes: &mut [u32],
    deltas: &mut [u32],
    words: &mut [u32],
) -> Reader
    ensures { (a : Reading) → ReadingHeld a reader sizes.old deltas.old words.old
        → ReadingHeld (read_on a bytes.now) result sizes.new deltas.new words.new }
{
    let mut state = reader;
    for b in bytes {
        state = step(state, *b, sizes, deltas, words);
    }
    state
}

// The end of a text: how many numbers its lines have, unless it is not three lines of decimals.
pub fn finish(
    reader: Reader,
    sizes: &mut [u32],
    deltas: &mut [u32],
    words: &mut [u32],
) -> Option<Counts>
    ensures { (a : Reading) → ReadingHeld a reader sizes.old deltas.old words.old
        → Answers (ended a) result sizes.new deltas.new words.new }
{
    let at = reader.at;
    let counts = reader.counts;
    if at.has_three_lines() {
        return Some(store_begun(at, counts, sizes, deltas, words));
    }
    None
}

// A whole text, its numbers in the arrays.
pub fn read_text(
    text: &[u8],
    sizes: &mut [u32],
    deltas: &mut [u32],
    words: &mut [u32],
) -> Option<Counts>
    ensures { Answers (text_piece text.now) result sizes.new deltas.new words.new }
{
    let reader = read_bytes(start(), text, sizes, deltas, words);
    finish(reader, sizes, deltas, words)
}

// Why a piece with these sizes and more than 500,000 deltas or words is refused: 1, 2 or 3.
fn large_number(sizes: &[u32], deltas: usize, words: usize) -> Refusal
    requires { (500000 < deltas) ⊎ (500000 < words) }
    ensures result_nonzero { 0 < Refusal·number result }
    ensures by_index { (ds ws : List ℕ) → Counted deltas (length ds) → Counted words (length ws)
        → Refusal·number result ≡ first_number (piece_refusals (piece sizes.now ds ws)) }
{
    if sizes.len() < 2 {
        return Refusal::SizesDisagree;
    }
    if LARGEST_SIZE < sizes[1] {
        return Refusal::SizesDisagree;
    }
    let tracks = sizes[1] as usize;
    if sizes.len() != 2 + tracks {
        return Refusal::SizesDisagree;
    }
    if LARGEST_SIZE < sizes[0] {
        return Refusal::SizesDisagree;
    }
    let events = admission::total(&sizes[2..]);
    if deltas as u64 != events {
        return Refusal::SizesDisagree;
    }
    if words as u64 != events {
        return Refusal::SizesDisagree;
    }
    if sizes[0] == 0 {
        return Refusal::DivisionZero;
    }
    Refusal::TooManyEvents
}

// Whether the arrays hold a piece whole, and else why it is refused.
pub fn number_due(
    counts: Counts,
    sizes: &[u32],
    deltas: &[u32],
    words: &[u32],
) -> Result<(), Refusal>
    requires { (length sizes.now ≡ 65537) × (length deltas.now ≡ 500000) × (length words.now ≡ 500000) }
    ensures fits { number_of result ≡ 0 → Fit counts sizes.now deltas.now words.now }
    ensures due { (x : Piece) → PieceHeld x counts sizes.now deltas.now words.now
        → Due x counts sizes.now deltas.now words.now (number_of result) }
{
    let n = counts.sizes;
    if sizes.len() < n {
        return Err(Refusal::SizesDisagree);
    }
    if deltas.len() < counts.deltas {
        return Err(large_number(&sizes[..n], counts.deltas, counts.words));
    }
    if words.len() < counts.words {
        return Err(large_number(&sizes[..n], counts.deltas, counts.words));
    }
    Ok(())
}
