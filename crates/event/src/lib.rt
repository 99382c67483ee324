// An event line of the bench, read.
#![tactic(auto)]

ghost use Rattle.std.specs.Prelude.{◌≡◌, true, length};
ghost use Rattle.text.specs.Text.{fields_of, field_of};
ghost use Rattle.event.specs.Events.{unit_of, hexes as hexes_of, head_of, arrive_of, event_of};

use text::NotNumber;

#[derive(Clone, Copy, Debug, PartialEq, Eq)]
pub enum Event {
    // a cell of this header, check and payload byte arrives
    Arrive {
        unit: u8,
        header: u32,
        check: u8,
        byte: u8,
    },
    Frame,
    Take(u8),
    Count(u8),
}

// The unit that s names; 255, as in the definition, for a number that no byte holds.
pub fn unit_of(s: &[u8]) -> Option<u8>
    ensures { result ≡ unit_of s.now }
{
    match text::number(s, 254) {
        Ok(n) => Some(n as u8),
        Err(NotNumber::Above) => Some(255),
        Err(NotNumber::Malformed) => None,
    }
}

// Whether s is n hex digits.
fn hexes(s: &[u8], n: usize) -> bool
    ensures { result ≡ hexes_of n s.now }
{
    s.len() == n && text::is_hex(s)
}

// The header, its check and the payload byte.
fn head(header: &[u8], byte: &[u8]) -> [u8; 6]
    requires { (hexes_of 10 header.now ≡ true) × (hexes_of 2 byte.now ≡ true) }
    ensures { result ≡ head_of header.now byte.now }
{
    let mut bytes = [0u8; 6];
    text::unhex(header, &mut bytes, 0);
    text::unhex(byte, &mut bytes, 5);
    bytes
}

// The event that the three fields of an `arrive` line give.
#[tactic(auto, unfolding(crate::specs::Events::arrive_of))]
fn arrive_event(unit: &[u8], header: &[u8], byte: &[u8]) -> Option<Event>
    ensures { result ≡ arrive_of unit.now header.now byte.now }
{
    let unit = unit_of(unit)?;
    if !hexes(header, 10) || !hexes(byte, 2) {
        return None;
    }
    let bytes = head(header, byte);
    Some(Event::Arrive {
        unit,
        header: octets::four(&bytes, 0),
        check: bytes[4],
        byte: bytes[5],
    })
}

// The event that a line says, its newline left out. A `match` on the bytes of four words would leave 26 goals, one for each way to be none of them.
#[tactic(auto, unfolding(crate::specs::Events::event_in))]
pub fn read(text: &[u8]) -> Option<Event>
    ensures { result ≡ event_of text.now }
{
    let word = text::field(text, 1);
    let fields = text::count(text);
    if fields == 4 && text::is(word, b"arrive") {
        return arrive_event(
            text::field(text, 2),
            text::field(text, 3),
            text::field(text, 4),
        );
    }
    if fields == 1 && text::is(word, b"frame") {
        return Some(Event::Frame);
    }
    if fields == 2 && text::is(word, b"take") {
        return unit_of(text::field(text, 2)).map(Event::Take);
    }
    if fields == 2 && text::is(word, b"count") {
        return unit_of(text::field(text, 2)).map(Event::Count);
    }
    None
}
