// A part's notes, snapped and sorted, and the chords that they make, in one lent work area.
//
// The work area is 16 columns of n words, n at least the number of notes. Word i of column c is work[c * n + i]:
//    0          a note's end and channel, end * 16 + channel
//    1          its start and key, start * 128 + key; of a sorted note start * 128 + (127 - key)
//    2, 3, 4    the sort's places, its room and its keys
//    5, 6       a chord's start and end (while the notes are sorted, column 5 has their snapped ends)
//    7, 8       its keys: bit k of the low word is for key k, of the high word for key 64 + k
//    9          1 if it is unpitched, else 0
//    10 to 13   the numbers of the chords of voices 0 to 3, in order
#![tactic(auto)]

ghost use Rattle.std.specs.Prelude.{ℕ, ◌+◌, ◌*◌, ◌^◌, ◌≤◌, ◌<◌, ◌≡◌, length, get_or};
ghost use Rattle.std.specs.Int.Bits.{bit_or};
ghost use Rattle.rules.specs.RawNotes.{RawNote};
ghost use Rattle.rules.specs.Voices.{opened, joined};
ghost use Rattle.laws.specs.Sort.{Rises};
ghost use Rattle.laws.specs.Places.{up_to};
ghost use Rattle.chords.specs.Columns.{falling_at, note_of, Ready, chord_at, keys_of, chord_of, chords_of, ChordsIn};
ghost use Rattle.chords.specs.Steps.{SnappedTo, Fetched, SortedTo, Stored};

// A note.
#[derive(Clone, Copy)]
pub struct Note {
    pub start: u64,
    pub end: u64,
    pub key: u64,
    pub channel: u64,
}

// Keys as bits, those below 64 and those from 64 on.
#[derive(Clone, Copy)]
pub struct Keys {
    pub low: u64,
    pub high: u64,
}

// A chord: snapped start and end, its keys, and whether it is unpitched.
#[derive(Clone, Copy)]
pub struct VoiceChord {
    pub start: u64,
    pub end: u64,
    pub keys: Keys,
    pub unpitched: bool,
}

// ---- snapped and sorted notes

// Snaps the notes: their words go to columns 4 and 5, a snapped end at least a step of the grid behind its start.
fn snap_words(work: &mut [u64], n: usize, count: usize, g: u64)
    requires { Ready n count g work.old }
    ensures { SnappedTo n count g work.old work.new }
{
    for i in 0..count {
        let start_word = work[n + i];
        let end_word = work[i];
        let start = grid::snap(start_word / 128, g);
        let end = grid::snap(end_word / 16, g).max(start + g);
        work[4 * n + i] = start * 128 + (127 - start_word % 128);
        work[5 * n + i] = end * 16 + end_word % 16;
    }
}

// Fetches the notes from columns 4 and 5 in the order of their places.
fn fetch_notes(work: &mut [u64], n: usize, count: usize)
    requires { (16 * n ≤ length work.old) × (count ≤ n) × ((i : ℕ) → i < count → get_or work.old (2 * n + i) 0 < n) }
    ensures { Fetched n count work.old work.new }
{
    for i in 0..count {
        let place = work[2 * n + i] as usize;
        let end = work[5 * n + place];
        let start = work[4 * n + place];
        work[i] = end;
        work[n + i] = start;
    }
}

// Replaces the notes by the snapped ones, sorted by start and falling key.
pub fn snap_notes(work: &mut [u64], n: usize, count: usize, g: u64)
    requires { Ready n count g work.old }
    ensures { SortedTo n count g work.old work.new }
{
    snap_words(work, n, count, g);
    sort::sort_places(&mut work[2 * n..], count, 2 * n);
    fetch_notes(work, n, count);
}

// ---- chords

// The sorted note at place k.
fn note_at(work: &[u64], n: usize, k: usize) -> Note
    requires { (16 * n ≤ length work.now) × (k < n) }
    ensures { note_of result ≡ falling_at n work.now k }
{
    let start = work[n + k];
    let end = work[k];
    Note {
        start: start / 128,
        end: end / 16,
        key: 127 - start % 128,
        channel: end % 16,
    }
}

// The keys of one key.
fn one_key(key: u64) -> Keys
    requires { key < 128 }
    ensures { keys_of result ≡ 2 ^ key }
{
    if key < 64 {
        Keys {
            low: 1 << key,
            high: 0,
        }
    } else {
        Keys {
            low: 0,
            high: 1 << (key - 64),
        }
    }
}

// The keys of both.
pub fn all_keys(a: Keys, b: Keys) -> Keys
    ensures { keys_of result ≡ bit_or (keys_of a) (keys_of b) }
{
    Keys {
        low: a.low | b.low,
        high: a.high | b.high,
    }
}

// The chord at place i.
pub fn chord_at(work: &[u64], n: usize, i: usize) -> VoiceChord
    requires { (16 * n ≤ length work.now) × (i < n) }
    ensures { chord_of result ≡ chord_at n work.now i }
{
    let keys = Keys {
        low: work[7 * n + i],
        high: work[8 * n + i],
    };
    VoiceChord {
        start: work[5 * n + i],
        end: work[6 * n + i],
        keys,
        unpitched: work[9 * n + i] == 1,
    }
}

// Puts a chord at place i.
pub fn put_chord(work: &mut [u64], n: usize, i: usize, c: VoiceChord)
    requires { (16 * n ≤ length work.old) × (i < n) }
    ensures { Stored n i (chord_of c) work.old work.new }
{
    let keys = c.keys;
    let mark = u64::from(c.unpitched);
    work[5 * n + i] = c.start;
    work[6 * n + i] = c.end;
    work[7 * n + i] = keys.low;
    work[8 * n + i] = keys.high;
    work[9 * n + i] = mark;
}

// The chord that a note opens, at place i.
fn open_chord(work: &mut [u64], n: usize, i: usize, note: Note)
    requires { (16 * n ≤ length work.old) × (i < n) × (note.key < 128) }
    ensures { Stored n i (opened (note_of note)) work.old work.new }
{
    let keys = one_key(note.key);
    let c = VoiceChord {
        start: note.start,
        end: note.end,
        keys,
        unpitched: note.channel == 9,
    };
    put_chord(work, n, i, c);
}

// The note joins the chord at place i.
fn join_chord(work: &mut [u64], n: usize, i: usize, note: Note)
    requires { (16 * n ≤ length work.old) × (i < n) × (note.key < 128) }
    ensures { Stored n i (joined (note_of note) (chord_at n work.old i)) work.old work.new }
{
    let c = chord_at(work, n, i);
    let own = c.keys;
    let keys = all_keys(own, one_key(note.key));
    let unpitched = c.unpitched && note.channel == 9;
    let d = VoiceChord {
        start: c.start,
        end: c.end,
        keys,
        unpitched,
    };
    put_chord(work, n, i, d);
}

// Gathers the sorted notes to chords: a note joins the most recent chord of its start and end, or opens one. Answers how many there are.
pub fn gather_chords(work: &mut [u64], n: usize, count: usize) -> usize
    requires { (16 * n ≤ length work.old) × (count ≤ n) × Rises (λ (x : RawNote). x.start) (up_to (falling_at n work.old) count) }
    ensures { ChordsIn (chords_of (up_to (falling_at n work.old) count)) n result work.new }
{
    let mut chords = 0;
    for k in 0..count {
        let note = note_at(work, n, k);
        // The chords come in order, so none behind one of another start takes the note.
        let place = 'search: {
            for i in (0..chords).rev() {
                if work[5 * n + i] != note.start {
                    break 'search None;
                }
                if work[6 * n + i] == note.end {
                    break 'search Some(i);
                }
            }
            None
        };
        match place {
            Some(i) => join_chord(work, n, i, note),
            None => {
                open_chord(work, n, chords, note);
                chords += 1;
            }
        }
    }
    chords
}
