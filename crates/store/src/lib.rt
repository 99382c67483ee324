// Where queued cells stand in the lent store: a unit's part, its slots, the rings of slots; and the steps of a ring.
#![tactic(auto)]

ghost use Rattle.std.specs.Prelude.{◌≡◌, ◌+◌, ◌-◌, ◌<◌, ◌≤◌, min, length};
ghost use Rattle.octets.specs.Octets.{splice, part};
ghost use Rattle.store.specs.Places.{part_of, slot_at, start as start_of, outlet_slot, inlet_slot, control_out_slot};
ghost use Rattle.store.specs.Rings.{next as next_of, tail as tail_of, pushed as pushed_of, popped as popped_of};

use outlet::{Limits, Mode, Outlet, Ring};

// The bytes of a slot in the lent store (01's sizes): a cell before its parity.
pub const CELL: usize = 56;

// The bytes of a unit's part of the store.
pub const PART: usize = 8192;

// The first slots of CBR and of ABR in mode four, and of the inlet.
const CBR_START: u16 = Outlet::CONTROL as u16;

const ABR_START: u16 = (Outlet::CONTROL + Outlet::SHARED) as u16;

const INLET_START: u16 = Outlet::ONE as u16;

// The slots of the cells beside the data queues: the control cell and the loopback cell in the inlet, the first of the control outlet, the loopback outlet.
pub const CONTROL_IN: u16 = 127;

pub const LOOPBACK_IN: u16 = 128;

const CONTROL_OUT: u16 = 129;

pub const LOOPBACK_OUT: u16 = 133;

// Where the part of the unit in a place starts.
#[tactic(auto, unfolding(crate::specs::Places::part_of))]
pub fn part_of(place: usize) -> usize
    requires { place < 32 }
    ensures { result ≡ part_of place }
{
    PART * place
}

// Where a slot of the unit in a place starts.
pub fn slot_at(place: usize, slot: u16) -> usize
    requires { place < 32 }
    ensures { result ≡ slot_at place slot }
{
    part_of(place) + CELL * (slot as usize)
}

// The slot where a queue's ring starts.
#[tactic(auto, unfolding(crate::specs::Places::start))]
pub fn start(limits: Limits, queue: u8) -> u16
    ensures { result ≡ start_of limits queue }
{
    let mode = limits.mode;
    match mode {
        Mode::One => match queue {
            0 => 0,
            _ => INLET_START,
        },
        Mode::Four => match queue {
            0 => 0,
            1 => CBR_START,
            2 => CBR_START + (limits.cbrlength as u16),
            3 => ABR_START,
            _ => INLET_START,
        },
    }
}

// Where a place of a queue's ring starts in the store.
pub fn outlet_at(place: usize, limits: Limits, queue: u8, p: u8) -> usize
    requires { place < 32 }
    ensures { result ≡ slot_at place (outlet_slot limits queue p) }
{
    slot_at(place, start(limits, queue) + (p as u16))
}

// Where a place of the inlet's ring starts in the store.
pub fn inlet_at(place: usize, p: u8) -> usize
    requires { place < 32 }
    ensures { result ≡ slot_at place (inlet_slot p) }
{
    slot_at(place, INLET_START + (p as u16))
}

// Where a place of the control outlet's ring starts in the store.
pub fn control_at(place: usize, p: u8) -> usize
    requires { place < 32 }
    ensures { result ≡ slot_at place (control_out_slot p) }
{
    slot_at(place, CONTROL_OUT + (p as u16))
}

// Writes a cell into the store, by way of a local array: the compiler then knows that the two do not overlap, and copies
// in words.
pub fn put_cell(store: &mut [u8], at: usize, cell: &[u8])
    requires { (length cell.now ≡ 56) × (at + 56 ≤ length store.old) }
    ensures { store.new ≡ splice store.old at cell.now }
{
    let mut bytes = [0; 56];
    octets::copy(&cell[..56], &mut bytes, 0);
    octets::copy(&bytes, store, at);
}

// The cell that stands in the store.
pub fn get_cell(store: &[u8], at: usize) -> &[u8]
    requires { at + 56 ≤ length store.now }
    ensures { result.now ≡ part store.now at 56 }
{
    &store[at..at + CELL]
}

// The place after a place of a ring.
#[tactic(auto, using(std::proofs::lemmas::Bool::Decides::nat_tests), unfolding(crate::specs::Rings::next))]
fn next(place: u8, capacity: u8) -> u8
    ensures { result ≡ next_of capacity place }
{
    let after = place.saturating_add(1);
    if after < capacity { after } else { 0 }
}

// The place past the newest cell of a ring: where the next one goes.
#[tactic(auto, using(std::proofs::lemmas::Bool::Decides::nat_tests), unfolding(crate::specs::Rings::tail, crate::specs::Rings::back))]
pub fn tail(ring: Ring, capacity: u8) -> u8
    ensures { result ≡ tail_of ring capacity }
{
    let past = u16::from(ring.head) + u16::from(ring.count);
    let end = u16::from(capacity);
    let place = if past < end { past } else { past - end };
    place.min(255) as u8
}

// A ring with one cell more.
#[tactic(auto, unfolding(crate::specs::Rings::pushed))]
pub fn pushed(ring: Ring) -> Ring
    ensures { result ≡ pushed_of ring }
{
    Ring {
        head: ring.head,
        count: ring.count.saturating_add(1),
    }
}

// A ring without its oldest cell.
#[tactic(auto, unfolding(crate::specs::Rings::popped))]
pub fn popped(ring: Ring, capacity: u8) -> Ring
    ensures { result ≡ popped_of ring capacity }
{
    Ring {
        head: next(ring.head, capacity),
        count: ring.count.saturating_sub(1),
    }
}
