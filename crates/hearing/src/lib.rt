// Hearing: one of damaged, other, wide, full, clp, queued, of a frame at a unit.
#![tactic(auto)]

ghost use Rattle.std.specs.Prelude.{◌≡◌, ◌<◌, ◌≤◌, length, get_or, take};
ghost use Rattle.answer.specs.Answers.{outcome_by};
ghost use Rattle.bus.specs.Frame.{third, carried, heard_as, heard as heard_of};
ghost use Rattle.bus.specs.Heard.{Control, Loopback};
ghost use Rattle.state.specs.Bytes.{unit_in};
ghost use Rattle.soundness.specs.Admission.{Housed};
ghost use Rattle.hearing.specs.Hearings.{addressed as addressed_to, plan_to, plan_of, fate_by, store_by, store_of};
ghost use Rattle.hearing.specs.InPlace.{state_by, state_at, outcome_at, hear_out, hear_state, hear_store_in};

use answer::{Answer, Hearing, Single};
use bus::{Address, Target};
use card::Card;
use outlet::Fate;
use shelf::Unit;

// Whether a cell to this target is for the unit in a place.
pub fn addressed_at(s: &[u8; 2048], place: usize, target: Target) -> bool
    requires { place < 32 }
    ensures { result ≡ addressed_to (unit_in s.now place) target }
{
    match target {
        Target::Unit(number) => state::at(s, 0, place) == number,
        Target::Session(session) => state::hears_at(s, place, session),
        Target::All => true,
    }
}

// What becomes of a copy of this class with this header that is addressed to the unit in a place. A queued copy goes
// behind the others in its queue. Of the outlet only the limits and that queue's ring are read. The frame that is lent has any length, and its test is
// the event's own: so a cell of it stays a slice with its length in the clause, here and below.
pub fn accept(
    s: &mut [u8; 2048],
    place: usize,
    class: u8,
    header: u32,
    cell: &[u8],
    store: &mut [u8],
) -> Hearing
    requires { (length cell.now ≡ 56) × Housed place (unit_in s.old place) (length store.old) }
    ensures value { result ≡ fate_by (plan_to (unit_in s.old place) class header) }
    ensures kept { (s.new ≡ state_by (plan_to (unit_in s.old place) class header) s.old place)
        × (store.new ≡ store_by (plan_to (unit_in s.old place) class header) (unit_in s.old place) place store.old cell.now) }
{
    let link = state::link_of(state::at(s, 1, place));
    let limits = state::limits_at(s, place);
    let queue = outlet::queue_of(limits, class);
    let capacity = outlet::capacity(limits, queue);
    let q = queue as usize;
    let ring = state::ring_at(s, 16 + q, 20 + q, place);
    let limit = outlet::limit(limits, queue);
    match outlet::fate_in(capacity, limit, ring.count, link, header) {
        Fate::Wide => Hearing::Wide,
        Fate::Full => Hearing::Full,
        Fate::Clp => Hearing::Clp,
        Fate::Queued => {
            let tail = store::tail(ring, capacity);
            state::put_ring(s, 16 + q, 20 + q, place, store::pushed(ring));
            store::put_cell(store, store::outlet_at(place, limits, queue, tail), cell);
            Hearing::Queued
        }
    }
}

// A control cell for this unit is heard in a place. A queued one goes behind the others in the control outlet.
fn hear_control(
    s: &mut [u8; 2048],
    place: usize,
    unit: u8,
    cell: &[u8],
    store: &mut [u8],
) -> Hearing
    requires { (length cell.now ≡ 56) × Housed place (unit_in s.old place) (length store.old) }
    ensures value { result ≡ fate_by (plan_of (unit_in s.old place) (Control unit)) }
    ensures kept { (s.new ≡ state_by (plan_of (unit_in s.old place) (Control unit)) s.old place)
        × (store.new ≡ store_of (unit_in s.old place) (Control unit) place store.old cell.now) }
{
    if state::at(s, 0, place) != unit {
        return Hearing::Other;
    }
    let ring = state::ring_at(s, 28, 29, place);
    if Unit::CONTROL <= ring.count {
        return Hearing::Full;
    }
    let tail = store::tail(ring, Unit::CONTROL);
    state::put_ring(s, 28, 29, place, store::pushed(ring));
    store::put_cell(store, store::control_at(place, tail), cell);
    Hearing::Queued
}

// A loopback cell for this unit is heard in a place.
fn hear_loopback(
    s: &mut [u8; 2048],
    place: usize,
    unit: u8,
    cell: &[u8],
    store: &mut [u8],
) -> Hearing
    requires { (length cell.now ≡ 56) × Housed place (unit_in s.old place) (length store.old) }
    ensures value { result ≡ fate_by (plan_of (unit_in s.old place) (Loopback unit)) }
    ensures kept { (s.new ≡ state_by (plan_of (unit_in s.old place) (Loopback unit)) s.old place)
        × (store.new ≡ store_of (unit_in s.old place) (Loopback unit) place store.old cell.now) }
{
    if state::at(s, 0, place) != unit {
        return Hearing::Other;
    }
    if 1 <= state::at(s, 30, place) {
        return Hearing::Full;
    }
    state::put_byte(s, 30, place, 1);
    store::put_cell(store, store::slot_at(place, store::LOOPBACK_OUT), cell);
    Hearing::Queued
}

// A cell of kind 3 with this class and number is heard in a place.
pub fn hear_third(
    s: &mut [u8; 2048],
    place: usize,
    class: u8,
    number: u8,
    cell: &[u8],
    store: &mut [u8],
) -> Hearing
    requires { (length cell.now ≡ 56) × Housed place (unit_in s.old place) (length store.old) }
    ensures value { result ≡ fate_by (plan_of (unit_in s.old place) (third class number (get_or cell.now 2 0))) }
    ensures kept { (s.new ≡ state_by (plan_of (unit_in s.old place) (third class number (get_or cell.now 2 0))) s.old place)
        × (store.new ≡ store_of (unit_in s.old place) (third class number (get_or cell.now 2 0)) place store.old cell.now) }
{
    if 31 < number {
        return Hearing::Damaged;
    }
    if class == 0 {
        return hear_control(s, place, number, cell, store);
    }
    if (class == 1) & (cell[2] <= 31) {
        return hear_loopback(s, place, number, cell, store);
    }
    Hearing::Damaged
}

// The address of a cell. Of a frame that was just made no more is asked: its parity is right.
pub fn address_of(cell: &[u8]) -> Option<Address>
    requires { length cell.now ≡ 56 }
    ensures { heard_as result cell.now ≡ carried cell.now }
{
    bus::read(octets::two(cell, 0))
}

// The unit in a place hears a frame of this cell, with this address. It is taken into the loop over the units: a call for each costs up to an eighth of a frame.
#[tactic(auto, unfolding(crate::specs::Hearings::plan_of, crate::specs::Hearings::fate_by, crate::specs::InPlace::state_by, crate::specs::Hearings::store_by))]
#[inline(always)]
pub fn heed(
    s: &mut [u8; 2048],
    place: usize,
    address: Option<Address>,
    cell: &[u8],
    store: &mut [u8],
) -> Hearing
    requires { (length cell.now ≡ 56) × Housed place (unit_in s.old place) (length store.old) }
    ensures value { result ≡ fate_by (plan_of (unit_in s.old place) (heard_as address cell.now)) }
    ensures kept { (s.new ≡ state_by (plan_of (unit_in s.old place) (heard_as address cell.now)) s.old place)
        × (store.new ≡ store_of (unit_in s.old place) (heard_as address cell.now) place store.old cell.now) }
{
    match address {
        None => Hearing::Damaged,
        Some(Address::To { target, class }) => {
            if !addressed_at(s, place, target) {
                return Hearing::Other;
            }
            accept(s, place, class, octets::four(cell, 4), cell, store)
        }
        Some(Address::Third { class, number }) => hear_third(s, place, class, number, cell, store),
    }
}

// The unit in a place hears a frame of this cell, its parity being right.
fn hear_cell(s: &mut [u8; 2048], place: usize, cell: &[u8], store: &mut [u8]) -> Hearing
    requires { (length cell.now ≡ 56) × Housed place (unit_in s.old place) (length store.old) }
    ensures value { result ≡ fate_by (plan_of (unit_in s.old place) (carried cell.now)) }
    ensures kept { (s.new ≡ state_by (plan_of (unit_in s.old place) (carried cell.now)) s.old place)
        × (store.new ≡ store_of (unit_in s.old place) (carried cell.now) place store.old cell.now) }
{
    let address = address_of(cell);
    heed(s, place, address, cell, store)
}

// What comes of this fate in a place.
fn fated(place: usize, fate: Hearing) -> Single
    ensures { outcome_by result ≡ outcome_at place fate }
{
    answer::counted(Answer::Heard(fate), place, answer::hearing_rises(fate))
}

// The unit in a place hears a frame handed in.
fn hear_at(s: &mut [u8; 2048], place: usize, store: &mut [u8], frame: &[u8]) -> Single
    requires { (length frame.now ≡ 57) × Housed place (unit_in s.old place) (length store.old) }
    ensures result_value { outcome_by result ≡ outcome_at place (fate_by (plan_of (unit_in s.old place) (heard_of frame.now))) }
    ensures kept { (s.new ≡ state_at s.old place frame.now)
        × (store.new ≡ store_of (unit_in s.old place) (heard_of frame.now) place store.old (take 56 frame.now)) }
{
    if bus::parity(&frame[..56]) != frame[56] {
        return fated(place, Hearing::Damaged);
    }
    fated(place, hear_cell(s, place, &frame[..56], store))
}

// Hearing of a frame by the unit with this number; everything but the counter rows, of which there are so many.
pub fn hear(
    card: Card,
    s: &mut [u8; 2048],
    store: &mut [u8],
    rows: usize,
    unit: u8,
    frame: &[u8],
) -> Single
    ensures result_value { (outcome_by result ≡ hear_out card s.old (length store.old) rows unit frame.now)
        × ((s.new ≡ hear_state card s.old (length store.old) rows unit frame.now)
        × (store.new ≡ hear_store_in card s.old store.old rows unit frame.now)) }
    ensures fits { ((outcome_by result).rises.to ≤ 32) × ((outcome_by result).rises.to ≤ rows) }
{
    match soundness::admit(card, s, store.len(), rows, unit, frame.len() == 57) {
        Ok(place) => hear_at(s, place, store, frame),
        Err(number) => answer::uncounted(Answer::Refused(number)),
    }
}
