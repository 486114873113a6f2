// The lines that the program `replay` writes. No contract can say what is written; what is counted is proved elsewhere.
#![tactic(auto)]

use replay_one::Compared;
use replay_text::Fault;

fn call_name(code: usize) {
    let names =
        b"no such call \x00head \x00part count \x00part head \x00bars \x00staff size \x00engrave \x00automation \x00diagnostics \x00read size \x00read \x00proof read ";
    let n = if 11 < code { 0 } else { code };
    io::write_all(1, texts::nth(names, n));
}

// The arrays that a call leaves: its answer, five that are lent to it, and its work area.
#[derive(Clone, Copy)]
enum Array {
    Answer,
    A,
    B,
    C,
    D,
    E,
    Work,
}

// What a call writes to an array.
fn array_name(code: usize, array: Array) -> &'static [u8] {
    match (code, array) {
        (_, Array::Answer) => b"answer",
        (_, Array::Work) => b"work",
        (4, Array::A) => b"starts",
        (4, Array::B) => b"marks",
        (6 | 11, Array::A) => b"keys",
        (6 | 11, Array::C) => b"counts",
        (6 | 11, Array::D) => b"heads",
        (6, Array::E) => b"leftovers",
        (7, Array::A) => b"ticks",
        (7, Array::C) | (10, Array::E) => b"words",
        (8, Array::A) => b"places",
        (8, Array::B) => b"details",
        (10, Array::C) => b"sizes",
        (10, Array::D) => b"deltas",
        (0..=11, _) => b"list",
        _ => b"",
    }
}

// A line's begin: the piece.
fn begin(item: u64) {
    io::write_all(1, b"piece ");
    io::print_decimal(1, item);
    io::write_all(1, b": ");
}

// A line where an array differs: of a piece the call, its number, and the array.
fn differs(item: u64, call: u64, code: usize, array: Array, found: Option<usize>) {
    if let Some(i) = found {
        begin(item);
        io::write_all(1, b"call ");
        io::print_decimal(1, call);
        io::write_all(1, b", ");
        call_name(code);
        io::write_all(1, array_name(code, array));
        io::write_all(1, b", element ");
        io::print_decimal(1, i as u64);
        io::write_all(1, b"\n");
    }
}

// The lines of a call.
pub fn differences(item: u64, call: u64, code: usize, r: Compared) {
    differs(item, call, code, Array::Answer, r.said);
    differs(item, call, code, Array::A, r.a);
    differs(item, call, code, Array::B, r.b);
    differs(item, call, code, Array::C, r.c);
    differs(item, call, code, Array::D, r.d);
    differs(item, call, code, Array::E, r.e);
    differs(item, call, code, Array::Work, r.work);
}

// A line on the list itself.
fn says(item: u64, text: &[u8]) {
    begin(item);
    io::write_all(1, text);
    io::write_all(1, b"\n");
}

// A line where a piece's number is not the next.
pub fn another(item: u64) {
    says(item, b"another number in the list");
}

// A line where numbers stand behind the last piece.
pub fn more(item: u64) {
    says(item, b"more than the list's pieces");
}

// A line where the list could not be read to its end.
pub fn fault(item: u64, why: Fault) {
    match why {
        Fault::Ends => says(item, b"the list ends early"),
        Fault::Word => says(item, b"no number where one is due"),
        Fault::Large => says(item, b"too large a number"),
        Fault::Long => says(item, b"too long"),
    }
}

// The last line.
pub fn total(pieces: u64, calls: u64, wrong: u64) {
    io::print_decimal(1, pieces);
    io::write_all(1, b" pieces, ");
    io::print_decimal(1, calls);
    io::write_all(1, b" calls, ");
    io::print_decimal(1, wrong);
    io::write_all(1, b" disagreements\n");
}
