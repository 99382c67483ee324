// A translation record in its bytes, on either card, and a memory of records; then what becomes of an arriving header: the header check, and the
// translation of four sound header bytes in any memory at all.
#![tactic(auto)]

ghost use Rattle.std.specs.Prelude.{◌≡◌, length};
ghost use Rattle.lookup.specs.Record.{bytes_of, route_of, page_of, vpi_in, record_in, record_at, written, cleared};
ghost use Rattle.lookup.specs.Lookup.{sound_header, goes_by, by_vci, by_vpi, translated};

use card::Card;
use header::{Header, Link};

// The bytes of a record: its eight bytes in a lent memory are 01's.
pub const SIZE: usize = 8;

// The most bytes of a memory that a table uses.
pub const MOST: usize = 262144;

#[derive(Clone, Copy)]
pub enum Record {
    Empty,
    Drop,
    Route { header: u16, vpi: u16, vci: u16 },
    Page { top: u16, place: u32 },
}

// The bytes of a route: the outgoing VPI is byte 3 on the narrow card, bytes 6 and 7 on the wide one.
#[tactic(auto, unfolding(crate::specs::Record::route_of))]
fn route(card: Card, header: u16, vpi: u16, vci: u16) -> [u8; SIZE]
    ensures { result ≡ route_of card header vpi vci }
{
    let [high, low] = header.to_be_bytes();
    let [vcihigh, vcilow] = vci.to_be_bytes();
    let [vpihigh, vpilow] = vpi.to_be_bytes();
    match card {
        Card::Narrow => [2, high, low, vpilow, vcihigh, vcilow, 0, 0],
        Card::Wide => [2, high, low, 0, vcihigh, vcilow, vpihigh, vpilow],
    }
}

// The bytes of a page.
#[tactic(auto, unfolding(crate::specs::Record::page_of))]
fn page(top: u16, place: u32) -> [u8; SIZE]
    ensures { result ≡ page_of top place }
{
    let [high, low] = top.to_be_bytes();
    let [a, b, c, d] = place.to_be_bytes();
    [3, high, low, 0, a, b, c, d]
}

// The bytes of a record, as a memory holds them.
fn bytes(card: Card, r: Record) -> [u8; SIZE]
    ensures { result ≡ bytes_of card r }
{
    match r {
        Record::Empty => [0, 0, 0, 0, 0, 0, 0, 0],
        Record::Drop => [1, 0, 0, 0, 0, 0, 0, 0],
        Record::Route { header, vpi, vci } => route(card, header, vpi, vci),
        Record::Page { top, place } => page(top, place),
    }
}

// Writes a record at its place, where it lies wholly inside the memory.
pub fn put(card: Card, memory: &mut [u8], at: usize, r: Record)
    ensures { memory.new ≡ written card memory.old at r }
{
    if memory.len() < SIZE {
        return;
    }
    if memory.len() - SIZE < at {
        return;
    }
    let b = bytes(card, r);
    octets::copy(&b, memory, at);
}

// The outgoing VPI in a route's bytes.
fn vpi_in(card: Card, b: &[u8]) -> u16
    requires { length b.now ≡ 8 }
    ensures { result ≡ vpi_in card b.now }
{
    match card {
        Card::Narrow => b[3] as u16,
        Card::Wide => octets::two(b, 6),
    }
}

// What the bytes of a record say; nothing where the kind is unknown.
#[tactic(auto, unfolding(crate::specs::Record::record_in))]
fn read(card: Card, b: &[u8]) -> Option<Record>
    requires { length b.now ≡ 8 }
    ensures { result ≡ record_in card b.now }
{
    match b[0] {
        0 => Some(Record::Empty),
        1 => Some(Record::Drop),
        2 => {
            let header = octets::two(b, 1);
            let vpi = vpi_in(card, b);
            let vci = octets::two(b, 4);
            Some(Record::Route { header, vpi, vci })
        }
        3 => {
            let top = octets::two(b, 1);
            let place = octets::four(b, 4);
            Some(Record::Page { top, place })
        }
        _ => None,
    }
}

// What stands at a place of a memory; nothing where the place is not wholly inside or the kind is unknown.
#[tactic(auto, unfolding(crate::specs::Record::record_at))]
pub fn get(card: Card, memory: &[u8], at: usize) -> Option<Record>
    ensures { result ≡ record_at card memory.now at }
{
    read(card, memory.get(at..)?.get(..SIZE)?)
}

// Zeroes the part of a memory that a table may use.
#[tactic(auto, unfolding(crate::specs::Record::cleared))]
pub fn clear(memory: &mut [u8])
    ensures { memory.new ≡ cleared memory.old }
{
    let end = memory.len().min(MOST);
    memory[..end].fill(0);
}

// A cell is ignored, misrouted, or goes on with this routing header and, on the bus, this cell header.
#[derive(Clone, Copy)]
pub enum Looked {
    Ignored,
    Misrouted,
    Goes { routing: u16, header: u32 },
}

// Whether the fifth byte of a cell is the check of the four before it.
pub fn sound(word: u32, check: u8) -> bool
    ensures { result ≡ sound_header word check }
{
    header::check(word) == check
}

// The route of a cell with header h to this VPI and VCI: its PT and CLP are kept.
fn goes(routing: u16, vpi: u16, vci: u16, h: Header) -> Looked
    ensures { result ≡ goes_by routing vpi vci h }
{
    if 4095 < vpi {
        return Looked::Misrouted;
    }
    let out = Header {
        gfc: 0,
        vpi,
        vci,
        pt: h.pt,
        clp: h.clp,
    };
    Looked::Goes {
        routing,
        header: header::write(Link::Nni, out),
    }
}

// By the record of the cell's VCI in a page.
#[tactic(auto, unfolding(crate::specs::Lookup::by_vci))]
fn by_vci(got: Option<Record>, h: Header) -> Looked
    ensures { result ≡ by_vci got h }
{
    match got {
        Some(Record::Route { header, vpi, vci }) => goes(header, vpi, vci, h),
        _ => Looked::Misrouted,
    }
}

// By the record of the cell's VPI.
fn by_vpi(card: Card, memory: &[u8], r: Record, h: Header) -> Looked
    ensures { result ≡ by_vpi (record_at card memory.now) r h }
{
    match r {
        Record::Empty => Looked::Misrouted,
        Record::Drop => Looked::Ignored,
        Record::Route { header, vpi, .. } => goes(header, vpi, h.vci, h),
        Record::Page { top, place } => {
            if top < h.vci {
                return Looked::Misrouted;
            }
            let at = (place as usize) + SIZE * (h.vci as usize);
            by_vci(get(card, memory, at), h)
        }
    }
}

// What becomes of a cell with this header at a unit with this link, top VPI and place of its records.
pub fn translate(card: Card, link: Link, top: u16, place: u32, memory: &[u8], word: u32) -> Looked
    ensures { result ≡ translated (record_at card memory.now) link top place word }
{
    let h = header::read(link, word);
    if (h.vpi == 0) & (h.vci == 0) {
        return Looked::Ignored;
    }
    if top < h.vpi {
        return Looked::Misrouted;
    }
    let at = (place as usize) + SIZE * (h.vpi as usize);
    let Some(r) = get(card, memory, at) else {
        return Looked::Misrouted;
    };
    by_vpi(card, memory, r, h)
}
