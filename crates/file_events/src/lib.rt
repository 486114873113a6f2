// The events of a MIDI file, read one by one from a track's bytes: variable-length quantities, and what stands behind them.
#![tactic(auto)]

ghost use Rattle.std.specs.Prelude.{◌≤◌, true, ◌≡◌, length, get_or, drop};
ghost use Rattle.rules.specs.Meanings.{is_marker};
ghost use Rattle.rules.specs.Piece.{word};
ghost use Rattle.rules.specs.File.{has_one_byte, meta_fits, meta_word, number, sized, channel_message, meta_message, system_message, message, timed_message};
ghost use Rattle.laws.specs.Parsed.{Agrees};
ghost use Rattle.file_events.specs.Events.{NumberIs, number_read, SpanIs, span_read, Status, status_of, ChannelStatus, channel_taken};
ghost use Rattle.file_events.specs.Events.{MessageIs, message_read, EventIs, event_read};

use track_events::{Kind, well_formed};

// A variable-length quantity, and where the bytes behind it start.
#[derive(Clone, Copy)]
pub struct Quantity {
    pub value: u32,
    pub next: usize,
}

// Data of a meta or system event: from where, and where the bytes behind it start.
#[derive(Clone, Copy)]
pub struct Span {
    pub from: usize,
    pub to: usize,
}

// What is taken of an event: its word, whether that is in the table of kinds, whether it is an End of Track, the running status behind it, if any, and
// where the bytes behind it start.
#[derive(Clone, Copy)]
pub struct Taken {
    pub word: u32,
    pub good: bool,
    pub ends: bool,
    pub running: Option<u32>,
    pub next: usize,
}

// An event with its delta.
#[derive(Clone, Copy)]
pub struct TimedEvent {
    pub delta: u32,
    pub event: Taken,
}

// A variable-length quantity of at most four bytes.
#[tactic(auto, using(crate::proofs::Laws::partly_last))]
fn read_number(bytes: &[u8], at: usize) -> Option<Quantity>
    requires { at ≤ length bytes.now }
    ensures { Agrees (NumberIs bytes.now at) (number (drop at bytes.now)) (number_read result) }
{
    let mut value: u32 = 0;
    for i in at..at + 4 {
        let b = u32::from(*bytes.get(i)?);
        if b < 128 {
            return Some(Quantity {
                value: value * 128 + b,
                next: i + 1,
            });
        }
        value = value * 128 + (b - 128);
    }
    None
}

// A length, and as many bytes.
fn read_data(bytes: &[u8], at: usize) -> Option<Span>
    requires { at ≤ length bytes.now }
    ensures { Agrees (SpanIs bytes.now at) (sized (drop at bytes.now)) (span_read result) }
{
    let n = read_number(bytes, at)?;
    let from = n.next;
    let length = n.value as usize;
    if bytes.len() - from < length {
        return None;
    }
    Some(Span {
        from,
        to: from + length,
    })
}

// Program and channel pressure have one data byte.
fn has_one_byte(status: u32) -> bool
    ensures { result ≡ has_one_byte status }
{
    matches!(status / 16, 12 | 13)
}

// What is taken of a channel message.
fn channel_taken(status: u32, x: u32, y: u32, next: usize) -> Taken
    requires { ChannelStatus status × (x ≤ 127) × (y ≤ 127) }
    ensures { result ≡ channel_taken status x y next }
{
    Taken {
        word: status / 16 * 16777216 + status % 16 * 65536 + x * 256 + y,
        good: true,
        ends: false,
        running: Some(status),
        next,
    }
}

// A channel message behind its status.
fn channel_message(bytes: &[u8], status: u32, at: usize) -> Option<Taken>
    requires { ChannelStatus status × (at ≤ length bytes.now) }
    ensures { Agrees (MessageIs bytes.now at) (channel_message status (drop at bytes.now)) (message_read result) }
{
    let x = u32::from(*bytes.get(at)?);
    if 127 < x {
        return None;
    }
    if has_one_byte(status) {
        return Some(channel_taken(status, x, 0, at + 1));
    }
    let y = u32::from(*bytes.get(at + 1)?);
    if 127 < y {
        return None;
    }
    Some(channel_taken(status, x, y, at + 2))
}

// Whether a meta event of this type may have data of this length.
fn meta_fits(kind: u32, n: usize) -> bool
    ensures { result ≡ meta_fits kind n }
{
    match kind {
        47 => n == 0,
        81 => n == 3,
        88 => n == 4,
        89 => n == 2,
        _ => true,
    }
}

// Whether a sequencer meta's data is a marker: ACRD1, a base and a spare.
fn is_marker(content: &[u8]) -> bool
    ensures { result ≡ is_marker content.now }
{
    if content.len() != 7 {
        return false;
    }
    content.starts_with(b"ACRD1")
}

// A word of a kind and two bytes, the third 0.
fn word_of_two(kind: u32, a: u8, b: u8) -> u32
    requires { kind ≤ 255 }
    ensures { result ≡ word kind a b 0 }
{
    kind * 16777216 + u32::from(a) * 65536 + u32::from(b) * 256
}

// A meta event's word.
fn meta_word(kind: u32, content: &[u8]) -> u32
    requires { meta_fits kind (length content.now) ≡ true }
    ensures { result ≡ meta_word kind content.now }
{
    if kind == 47 {
        return Kind::EndOfTrack as u32 * 16777216;
    }
    if kind == 81 {
        return word_of_two(Kind::Tempo as u32, content[0], content[1]) + u32::from(content[2]);
    }
    if kind == 88 {
        return word_of_two(Kind::Meter as u32, content[0], content[1]);
    }
    if kind == 89 {
        return word_of_two(Kind::Key as u32, content[0], content[1]);
    }
    if kind != 127 {
        return 0;
    }
    if is_marker(content) {
        return word_of_two(Kind::Marker as u32, content[5], content[6]);
    }
    0
}

// A meta event behind FF: its type, its length, its data. It cancels running status.
fn meta_message(bytes: &[u8], at: usize) -> Option<Taken>
    requires { at ≤ length bytes.now }
    ensures { Agrees (MessageIs bytes.now at) (meta_message (drop at bytes.now)) (message_read result) }
{
    let kind = u32::from(*bytes.get(at)?);
    if 127 < kind {
        return None;
    }
    let span = read_data(bytes, at + 1)?;
    let from = span.from;
    let to = span.to;
    if !meta_fits(kind, to - from) {
        return None;
    }
    let word = meta_word(kind, &bytes[from..to]);
    Some(Taken {
        word,
        good: well_formed(word),
        ends: kind == 47,
        running: None,
        next: to,
    })
}

// A system event behind F0 or F7: its length, its data. It cancels running status.
fn system_message(bytes: &[u8], status: u32, at: usize) -> Option<Taken>
    requires { at ≤ length bytes.now }
    ensures { Agrees (MessageIs bytes.now at) (system_message status (drop at bytes.now)) (message_read result) }
{
    let span = read_data(bytes, at)?;
    let running = None;
    Some(Taken {
        word: Kind::System as u32 * 16777216,
        good: true,
        ends: false,
        running,
        next: span.to,
    })
}

// An event behind its delta. A first byte below 128 is data under the running status.
#[tactic(auto, using(crate::proofs::Laws::system_first))]
fn read_message(bytes: &[u8], running: Option<u32>, at: usize) -> Option<Taken>
    requires { Status running × (at ≤ length bytes.now) }
    ensures { Agrees (MessageIs bytes.now at) (message (status_of running) (drop at bytes.now)) (message_read result) }
{
    let s = u32::from(*bytes.get(at)?);
    if s < 128 {
        return channel_message(bytes, running?, at);
    }
    if s < 240 {
        return channel_message(bytes, s, at + 1);
    }
    if s == 255 {
        return meta_message(bytes, at + 1);
    }
    if s == 240 {
        return system_message(bytes, s, at + 1);
    }
    if s == 247 {
        return system_message(bytes, s, at + 1);
    }
    None
}

// An event with its delta.
pub fn read_event(bytes: &[u8], running: Option<u32>, at: usize) -> Option<TimedEvent>
    requires { Status running × (at ≤ length bytes.now) }
    ensures { Agrees (EventIs bytes.now at) (timed_message (status_of running) (drop at bytes.now)) (event_read result) }
{
    let delta = read_number(bytes, at)?;
    let event = read_message(bytes, running, delta.next)?;
    Some(TimedEvent {
        delta: delta.value,
        event,
    })
}
