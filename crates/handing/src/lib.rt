// Hand and collect: what a unit's processor hands in to be sent, and takes from the control outlet.
#![tactic(auto)]

ghost use Rattle.std.specs.Prelude.{◌≡◌, ◌≤◌, length};
ghost use Rattle.soundness.specs.Admission.{Housed};
ghost use Rattle.answer.specs.Done.{outcome_of};
ghost use Rattle.answer.specs.Answers.{outcome_by};
ghost use Rattle.state.specs.Bytes.{unit_in, shelf_in};
ghost use Rattle.handing.specs.Hands.{hand_at, hand_store_at};
ghost use Rattle.handing.specs.Collects.{collect_at, collect_buffer_at};
ghost use Rattle.handing.specs.InPlace.{hand_state_at, hand_out, hand_state, hand_store_in, collect_state_at, collect_out, collect_state, collect_buffer_in};

use answer::{Answer, Single};
use card::Card;
use shelf::Unit;

// A cell is handed in at the unit in a place, if its place in the inlet is free.
// The cell that is lent has any length, and its test is the event's own: so it stays a slice with its length in the clause.
fn hand_at(s: &mut [u8; 2048], place: usize, store: &mut [u8], cell: &[u8]) -> Single
    requires { (length cell.now ≡ 56) × Housed place (unit_in s.old place) (length store.old) }
    ensures result_value { outcome_by result ≡ outcome_of (hand_at (shelf_in s.old) place) }
    ensures kept { (s.new ≡ hand_state_at s.old place) × (store.new ≡ hand_store_at (shelf_in s.old) place store.old cell.now) }
{
    if 1 <= state::at(s, 26, place) {
        return answer::uncounted(Answer::Refused(11));
    }
    state::put_byte(s, 26, place, 1);
    store::put_cell(store, store::slot_at(place, store::CONTROL_IN), cell);
    answer::uncounted(Answer::Handed)
}

// A cell is handed in at the unit with this number; nothing is counted. There are so many counter rows.
pub fn hand(
    card: Card,
    s: &mut [u8; 2048],
    store: &mut [u8],
    rows: usize,
    unit: u8,
    cell: &[u8],
) -> Single
    ensures { (outcome_by result ≡ hand_out card s.old (length store.old) rows unit (length cell.now))
        × ((s.new ≡ hand_state card s.old (length store.old) rows unit (length cell.now))
        × (store.new ≡ hand_store_in card s.old store.old rows unit cell.now)) }
{
    match soundness::admit(card, s, store.len(), rows, unit, cell.len() == 56) {
        Ok(place) => hand_at(s, place, store, cell),
        Err(number) => answer::uncounted(Answer::Refused(number)),
    }
}

// The oldest cell leaves the control outlet of the unit in a place.
// The buffer that is lent has any length, and its test is the event's own: so it stays a slice with its length in the clause.
fn collect_at(s: &mut [u8; 2048], place: usize, store: &[u8], buffer: &mut [u8]) -> Single
    requires { (length buffer.old ≡ 56) × Housed place (unit_in s.old place) (length store.now) }
    ensures result_value { outcome_by result ≡ outcome_of (collect_at (shelf_in s.old) place) }
    ensures kept { (s.new ≡ collect_state_at s.old place) × (buffer.new ≡ collect_buffer_at (shelf_in s.old) place store.now buffer.old) }
{
    let ring = state::ring_at(s, 28, 29, place);
    if ring.count == 0 {
        return answer::uncounted(Answer::Empty);
    }
    octets::copy(
        store::get_cell(store, store::control_at(place, ring.head)),
        buffer,
        0,
    );
    state::put_ring(s, 28, 29, place, store::popped(ring, Unit::CONTROL));
    answer::counted(Answer::Taken, place, answer::TAKEN)
}

// Collect at the unit with this number; everything but the counter rows, of which there are so many.
pub fn collect(
    card: Card,
    s: &mut [u8; 2048],
    store: &[u8],
    rows: usize,
    unit: u8,
    buffer: &mut [u8],
) -> Single
    ensures result_value { (outcome_by result ≡ collect_out card s.old (length store.now) rows unit (length buffer.old))
        × ((s.new ≡ collect_state card s.old (length store.now) rows unit (length buffer.old))
        × (buffer.new ≡ collect_buffer_in card s.old store.now rows unit buffer.old)) }
    ensures fits { ((outcome_by result).rises.to ≤ 32) × ((outcome_by result).rises.to ≤ rows) }
{
    match soundness::admit(card, s, store.len(), rows, unit, buffer.len() == 56) {
        Ok(place) => collect_at(s, place, store, buffer),
        Err(number) => answer::uncounted(Answer::Refused(number)),
    }
}
