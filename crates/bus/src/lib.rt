// The bus: the routing header, which takes a cell over it, with its check; the 56 bytes of a cell before parity, and the frame of 57.
#![tactic(auto)]

ghost use Rattle.std.specs.Prelude.{◌≡◌, ◌<◌, ◌≤◌, length};
ghost use Rattle.remainder.specs.Division.{advance};
ghost use Rattle.bus.specs.Routing.{divisor, check as check_of, upper as upper_of, routing as header_of, controlling, address as address_of};
ghost use Rattle.bus.specs.Frame.{parity as parity_of, cell, sealed, returned as returned_as};

// To whom a cell goes: a unit, a session, or every unit.
#[derive(Clone, Copy)]
pub enum Target {
    Unit(u8),
    Session(u8),
    All,
}

// What a routing header says: a data cell of a class for a target, or a cell of kind 3.
#[derive(Clone, Copy)]
pub enum Address {
    To { target: Target, class: u8 },
    Third { class: u8, number: u8 },
}

// What three bits more make of the remainder so far. x^4 leaves x+1: each of the three, with the bit of the remainder that stands above it, is struck out
// and leaves itself 0 and 1 places up. Three are as many as go side by side: none of them comes above the fourth bit.
fn pass(rest: u8, three: u8) -> u8
    requires { (rest < 16) × (three < 8) }
    ensures { result ≡ advance divisor 3 1 rest three }
{
    let struck = (rest / 2) ^ three;
    struck ^ (struck * 2) ^ (rest % 2 * 8)
}

// The check of a routing header's upper 12 bits, from the highest bit down, with no table.
pub fn check(upper: u16) -> u8
    ensures { result ≡ check_of upper }
{
    let mut rest: u8 = 0;
    for turn in 0..4u16 {
        rest = pass(rest, ((upper >> (9 - 3 * turn)) % 8) as u8);
    }
    rest
}

// The upper 12 bits of a routing header. A class keeps its two low bits.
#[tactic(auto, unfolding(crate::specs::Routing::upper))]
fn upper(target: Target, class: u8) -> u16
    ensures value { result ≡ upper_of target class }
    ensures small { result < 4096 }
{
    let queue = (class as u16) % 4 * 256;
    match target {
        Target::Unit(unit) => queue + (unit as u16),
        Target::Session(session) => 1024 + queue + (session as u16),
        Target::All => 2048 + queue,
    }
}

// The routing header of a cell of this class for this target.
pub fn write(target: Target, class: u8) -> u16
    ensures { result ≡ header_of target class }
{
    let u = upper(target, class);
    u * 16 + (check(u) as u16)
}

// The routing header of a control cell for this unit: kind 3, class 0.
fn control_to(unit: u8) -> u16
    ensures { result ≡ controlling unit }
{
    let u = 3072 + (unit as u16);
    u * 16 + (check(u) as u16)
}

// What a routing header says, if it says anything.
#[tactic(auto, using(std::proofs::lemmas::Bool::Decides::nat_tests), unfolding(crate::specs::Routing::address))]
pub fn read(routing: u16) -> Option<Address>
    ensures { result ≡ address_of routing }
{
    let class = (routing / 4096 % 4) as u8;
    let number = (routing / 16 % 256) as u8;
    if (check(routing / 16) as u16) != routing % 16 {
        return None;
    }
    let target = match (routing / 16384 % 4, number) {
        (0, 0..=31) => Target::Unit(number),
        (1, _) => Target::Session(number),
        (2, 0) => Target::All,
        (3, _) => return Some(Address::Third { class, number }),
        _ => return None,
    };
    Some(Address::To { target, class })
}

// The exclusive-or of some bytes.
pub fn parity(bytes: &[u8]) -> u8
    ensures { result ≡ parity_of bytes.now }
{
    bytes.iter().fold(0, |p, b| p ^ *b)
}

// Writes the 56 bytes of a cell as it goes on the bus, before parity. The tandem header is zero.
pub fn compose(routing: u16, header: u32, payload: &[u8], bytes: &mut [u8; 56])
    requires { length payload.now ≡ 48 }
    ensures { bytes.new ≡ cell routing 0 header payload.now }
{
    octets::put_two(bytes, 0, routing);
    octets::put_two(bytes, 2, 0);
    octets::put_four(bytes, 4, header);
    octets::copy(payload, bytes, 8);
}

// Writes the frame of a cell: its 56 bytes, and their parity. The bytes go by way of a local array: the compiler then
// knows that the two do not overlap, and copies in words.
pub fn seal(bytes: &[u8], frame: &mut [u8])
    requires { (length bytes.now ≡ 56) × (length frame.old ≡ 57) }
    ensures { frame.new ≡ sealed bytes.now }
{
    let mut cell = [0; 56];
    octets::copy(&bytes[..56], &mut cell, 0);
    octets::copy(&cell, frame, 0);
    frame[56] = parity(bytes);
}

// A loopback cell becomes a control cell for the unit named in its first tandem byte.
pub fn turn_back(cell: &mut [u8; 56])
    ensures { cell.new ≡ returned_as cell.old }
{
    let unit = cell[2];
    octets::put_two(cell, 0, control_to(unit));
}
