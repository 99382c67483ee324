// The cell header of I.361 at a UNI and at an NNI, and the header check of I.432.1. A header goes by the number that its four bytes say.
#![tactic(auto)]

ghost use Rattle.std.specs.Prelude.{◌≡◌, ◌<◌};
ghost use Rattle.remainder.specs.Division.{advance};
ghost use Rattle.header.specs.Fields.{highest as highest_on, top_of, fields, word};
ghost use Rattle.header.specs.Check.{divisor, check as check_of};

#[derive(Clone, Copy)]
pub enum Link {
    Uni,
    Nni,
}

// The fields of a header. An NNI has no GFC: there it is 0.
#[derive(Clone, Copy)]
pub struct Header {
    pub gfc: u8,
    pub vpi: u16,
    pub vci: u16,
    pub pt: u8,
    pub clp: u8,
}

// The highest VPI of a link.
pub fn highest(link: Link) -> u16
    ensures { result ≡ highest_on link }
{
    match link {
        Link::Uni => 255,
        Link::Nni => 4095,
    }
}

// The VPI, as the link reads it.
#[tactic(auto, unfolding(crate::specs::Fields::fields))]
pub fn path(link: Link, word: u32) -> u16
    ensures { result ≡ (fields link word).vpi }
{
    match link {
        Link::Uni => (word / 1048576 % 256) as u16,
        Link::Nni => (word / 1048576) as u16,
    }
}

// The GFC, of which an NNI has none.
#[tactic(auto, unfolding(crate::specs::Fields::fields))]
fn flow(link: Link, word: u32) -> u8
    ensures { result ≡ (fields link word).gfc }
{
    match link {
        Link::Uni => (word / 268435456) as u8,
        Link::Nni => 0,
    }
}

// The fields of a header, as the link reads them.
#[tactic(auto, unfolding(crate::specs::Fields::fields))]
pub fn read(link: Link, word: u32) -> Header
    ensures { result ≡ fields link word }
{
    Header {
        gfc: flow(link, word),
        vpi: path(link, word),
        vci: (word / 16 % 65536) as u16,
        pt: (word / 2 % 8) as u8,
        clp: (word % 2) as u8,
    }
}

// The twelve bits above the VCI.
#[tactic(auto, unfolding(crate::specs::Fields::top_of))]
fn top(link: Link, gfc: u8, vpi: u16) -> u32
    ensures { result ≡ top_of link gfc vpi }
{
    match link {
        Link::Uni => (gfc as u32) % 16 * 256 + (vpi as u32) % 256,
        Link::Nni => (vpi as u32) % 4096,
    }
}

// The header that has these fields at the link; a field too large for its bits keeps its low ones.
pub fn write(link: Link, h: Header) -> u32
    ensures { result ≡ word link h }
{
    top(link, h.gfc, h.vpi) * 1048576
        + (h.vci as u32) * 16
        + (h.pt as u32) % 8 * 2
        + (h.clp as u32) % 2
}

// What six bits more make of the remainder so far. x^8 leaves x^2+x+1: each of the six, with the bit of the remainder that stands above it, is struck
// out and leaves itself 0, 1 and 2 places up. Six are as many as go side by side: none of them comes above the eighth bit.
fn pass(rest: u8, six: u8) -> u8
    requires { six < 64 }
    ensures { result ≡ advance divisor 6 2 rest six }
{
    let struck = (rest / 4) ^ six;
    struck ^ (struck * 2) ^ (struck * 4) ^ (rest % 4 * 64)
}

// The header check, from the highest bit down, with no table.
pub fn check(word: u32) -> u8
    ensures { result ≡ check_of word }
{
    let mut rest: u8 = 0;
    for turn in 0..6u32 {
        rest = pass(rest, ((word >> (30 - 6 * turn)) % 64) as u8);
    }
    rest ^ 0x55
}
