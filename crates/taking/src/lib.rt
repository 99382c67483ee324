// Take: the oldest cell of a unit's outlet, or of the lowest class held, as it leaves on the link; or empty.
#![tactic(auto)]

ghost use Rattle.std.specs.Prelude.{◌≡◌, ◌<◌, ◌≤◌, length};
ghost use Rattle.soundness.specs.Admission.{Housed};
ghost use Rattle.answer.specs.Done.{outcome_of};
ghost use Rattle.answer.specs.Answers.{outcome_by};
ghost use Rattle.state.specs.Bytes.{unit_in, shelf_in};
ghost use Rattle.taking.specs.Takes.{line_cell, outward, done_at, buffer_at};
ghost use Rattle.taking.specs.InPlace.{state_at, take_out, take_state, take_buffer_in};

use answer::{Answer, Single};
use card::Card;
use header::Link;
use outlet::Outlet;

// Writes a line cell: header, check, payload. The payload goes by way of a local array: the compiler then knows that the
// two do not overlap, and copies in words.
fn write_cell(header: u32, payload: &[u8], buffer: &mut [u8])
    requires { (length payload.now ≡ 48) × (length buffer.old ≡ 53) }
    ensures { buffer.new ≡ line_cell header payload.now }
{
    octets::put_four(buffer, 0, header);
    buffer[4] = header::check(header);
    let mut bytes = [0; 48];
    octets::copy(&payload[..48], &mut bytes, 0);
    octets::copy(&bytes, buffer, 5);
}

// Writes a cell of the outlet as it leaves on the unit's link.
// The buffer that is lent has any length, and its test is the event's own: so it stays a slice with its length in the clause.
fn hand_out(link: Link, outlet: Outlet, cell: &[u8], buffer: &mut [u8])
    requires { (length cell.now ≡ 56) × (length buffer.old ≡ 53) }
    ensures { buffer.new ≡ outward link outlet cell.now }
{
    let header = outlet::outgoing(link, outlet::marks(outlet), octets::four(cell, 4));
    write_cell(header, &cell[8..56], buffer);
}

// A cell is taken from the unit in a place: only its link and its outlet are read, and one ring is put back.
fn take_at(s: &mut [u8; 2048], place: usize, store: &[u8], buffer: &mut [u8]) -> Single
    requires { (length buffer.old ≡ 53) × Housed place (unit_in s.old place) (length store.now) }
    ensures result_value { outcome_by result ≡ outcome_of (done_at (shelf_in s.old) place) }
    ensures kept { (s.new ≡ state_at s.old place) × (buffer.new ≡ buffer_at (shelf_in s.old) place store.now buffer.old) }
{
    let outlet = state::outlet_at(s, place);
    let Some(queue) = outlet::leaving_of(outlet) else {
        return answer::uncounted(Answer::Empty);
    };
    let limits = outlet.limits;
    let ring = outlet::queue(outlet, queue);
    let at = store::outlet_at(place, limits, queue, ring.head);
    let link = state::link_of(state::at(s, 1, place));
    hand_out(link, outlet, store::get_cell(store, at), buffer);
    let left = store::popped(ring, outlet::capacity(limits, queue));
    let q = queue as usize;
    state::put_ring(s, 16 + q, 20 + q, place, left);
    answer::counted(Answer::Taken, place, answer::TAKEN)
}

// Take at the unit with this number; everything but the counter rows, of which there are so many.
pub fn take(
    card: Card,
    s: &mut [u8; 2048],
    store: &[u8],
    rows: usize,
    unit: u8,
    buffer: &mut [u8],
) -> Single
    ensures result_value { (outcome_by result ≡ take_out card s.old (length store.now) rows unit (length buffer.old)) × ((s.new ≡ take_state card s.old (length store.now) rows unit (length buffer.old)) × (buffer.new ≡ take_buffer_in card s.old store.now rows unit buffer.old)) }
    ensures fits { ((outcome_by result).rises.to ≤ 32) × ((outcome_by result).rises.to ≤ rows) }
{
    match soundness::admit(card, s, store.len(), rows, unit, buffer.len() == 53) {
        Ok(place) => take_at(s, place, store, buffer),
        Err(number) => answer::uncounted(Answer::Refused(number)),
    }
}
