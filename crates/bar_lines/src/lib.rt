// The lines of a bar, of a part and of a refusal on a printed page.
//
// Kept: no Display; the clauses name each byte that is put, and `fmt` would want a writer whose room is proved on the way.
#![tactic(auto)]

ghost use Rattle.std.specs.Prelude.{◌+◌, ◌≤◌, ◌≡◌, length};
ghost use Rattle.rules.specs.Bars.{bar_length};
ghost use Rattle.line_text.specs.Text.{Adds};
ghost use Rattle.bar_lines.specs.Lines.{meter_of, meter_text, tempo_text, fifths_text, key_text, bar_head, bar_marks, bar_line, part_line, refused_line};

use bar_marks::Mark;

// A bar's length by its mark's meter: 4 p upper / lower, at least 1.
fn bar_length(p: u64, upper: u32, lower: u32) -> u64
    requires { (p ≤ 65535) × (upper ≤ 255) }
    ensures { result ≡ bar_length p (record { upper = upper; lower = lower }) }
{
    if lower == 0 {
        return 1;
    }
    let length = 4 * p * u64::from(upper) / u64::from(lower);
    length.max(1)
}

// The meter where it is printed, else `-`.
fn put_meter(out: &mut [u8], at: usize, upper: u32, lower: u32, printed: bool) -> usize
    requires { at + 41 ≤ length out.old }
    ensures { Adds 41 (meter_text upper lower printed) at out.old result out.new }
{
    if printed {
        let a = line_text::put_decimal(out, at, u64::from(upper));
        let b = line_text::put(out, a, b'/');
        return line_text::put_decimal(out, b, u64::from(lower));
    }
    line_text::put(out, at, b'-')
}

// The tempo, or `-`.
fn put_tempo(out: &mut [u8], at: usize, tempo: u32) -> usize
    requires { at + 20 ≤ length out.old }
    ensures { Adds 20 (tempo_text tempo) at out.old result out.new }
{
    if tempo == 0 {
        return line_text::put(out, at, b'-');
    }
    line_text::put_decimal(out, at, u64::from(tempo))
}

// Fifths that are given as fifths + 8.
fn put_fifths(out: &mut [u8], at: usize, raised: u32) -> usize
    requires { at + 21 ≤ length out.old }
    ensures { Adds 21 (fifths_text raised) at out.old result out.new }
{
    if raised < 8 {
        let a = line_text::put(out, at, b'-');
        return line_text::put_decimal(out, a, u64::from(8 - raised));
    }
    line_text::put_decimal(out, at, u64::from(raised - 8))
}

// The key, fifths and M or m, or `-`.
fn put_signature(out: &mut [u8], at: usize, raised: u32, minor: bool) -> usize
    requires { at + 22 ≤ length out.old }
    ensures { Adds 22 (key_text raised minor) at out.old result out.new }
{
    if raised == 0 {
        return line_text::put(out, at, b'-');
    }
    let a = put_fifths(out, at, raised);
    if minor {
        return line_text::put(out, a, b'm');
    }
    line_text::put(out, a, b'M')
}

// `bar`, number, start, length.
fn put_bar_head(out: &mut [u8], at: usize, p: u64, number: u64, start: u64, m: Mark) -> usize
    requires { (at + 66 ≤ length out.old) × (p ≤ 65535) × (m.upper ≤ 255) }
    ensures { Adds 66 (bar_head p number start (meter_of m)) at out.old result out.new }
{
    let length = bar_length(p, m.upper, m.lower);
    let a = line_text::put_text(out, at, b"bar ");
    let b = line_text::put_decimal(out, a, number);
    let c = line_text::put_next(out, b, start);
    line_text::put_next(out, c, length)
}

// Meter, tempo, key, and the line's end.
fn put_bar_marks(out: &mut [u8], at: usize, m: Mark) -> usize
    requires { at + 87 ≤ length out.old }
    ensures { Adds 87 (bar_marks m) at out.old result out.new }
{
    let a = line_text::put(out, at, b' ');
    let b = put_meter(out, a, m.upper, m.lower, m.printed);
    let c = line_text::put(out, b, b' ');
    let d = put_tempo(out, c, m.tempo);
    let e = line_text::put(out, d, b' ');
    let f = put_signature(out, e, m.fifths, m.minor);
    line_text::put(out, f, b'\n')
}

// A bar's line: number, start, length, and what its mark says: meter, tempo, key.
pub fn put_bar(out: &mut [u8], at: usize, p: u64, number: u64, start: u64, mark: u64) -> usize
    requires { (at + 4096 ≤ length out.old) × (p ≤ 65535) }
    ensures { Adds 4096 (bar_line p number start mark) at out.old result out.new }
{
    let m = bar_marks::unpack(mark);
    let a = put_bar_head(out, at, p, number, start, m);
    put_bar_marks(out, a, m)
}

// A part's line: its number and the bar count.
pub fn put_part(out: &mut [u8], at: usize, part: u64, bars: u64) -> usize
    requires { at + 4096 ≤ length out.old }
    ensures { Adds 4096 (part_line part bars) at out.old result out.new }
{
    let a = line_text::put_text(out, at, b"part ");
    let b = line_text::put_decimal(out, a, part);
    let c = line_text::put_text(out, b, b" bars ");
    let d = line_text::put_decimal(out, c, bars);
    line_text::put(out, d, b'\n')
}

// A refusal's line.
pub fn put_refused(out: &mut [u8], at: usize, number: u64) -> usize
    requires { at + 4096 ≤ length out.old }
    ensures { Adds 4096 (refused_line number) at out.old result out.new }
{
    let a = line_text::put_text(out, at, b"refused ");
    let b = line_text::put_decimal(out, a, number);
    line_text::put(out, b, b'\n')
}
