// Arrival at a unit: one of hec, ignored, misrouted, inletfull, queued.
#![tactic(auto)]

ghost use Rattle.std.specs.Prelude.{◌≡◌, ◌≤◌, length};
ghost use Rattle.soundness.specs.Admission.{Housed};
ghost use Rattle.answer.specs.Done.{outcome_of};
ghost use Rattle.answer.specs.Answers.{outcome_by};
ghost use Rattle.state.specs.Bytes.{unit_in, shelf_in};
ghost use Rattle.arriving.specs.Arriving.{way_by, way_for, done_at, store_at};
ghost use Rattle.arriving.specs.InPlace.{arrived_with, state_at, arrive_out, arrive_state, arrive_store_in};

use answer::{Answer, Arrival, Single};
use card::Card;
use lookup::Looked;
use shelf::{Settings, Unit};

// The headers with which a cell goes to the bus.
#[derive(Clone, Copy)]
pub struct Headers {
    pub routing: u16,
    pub header: u32,
}

// By what was looked up: the cell goes to the bus, or is lost with this fate.
#[tactic(auto, unfolding(crate::specs::Arriving::way_by))]
fn way_by(looked: Looked) -> Result<Headers, Arrival>
    ensures { result ≡ way_by looked }
{
    match looked {
        Looked::Ignored => Err(Arrival::Ignored),
        Looked::Misrouted => Err(Arrival::Misrouted),
        Looked::Goes { routing, header } => Ok(Headers { routing, header }),
    }
}

// Where a cell that arrives at a unit goes; its records begin at a byte of the memory.
// The cell that is lent has any length, and its test is the event's own: so it stays a slice with its length in the clause.
fn way_of(
    card: Card,
    settings: Settings,
    at: u32,
    memory: &[u8],
    cell: &[u8],
) -> Result<Headers, Arrival>
    requires { length cell.now ≡ 53 }
    ensures { result ≡ way_for card settings at memory.now cell.now }
{
    let word = octets::four(cell, 0);
    if !lookup::sound(word, cell[4]) {
        return Err(Arrival::Hec);
    }
    let link = settings.link;
    way_by(lookup::translate(card, link, settings.top, at, memory, word))
}

// A cell has arrived at the unit in a place.
fn arrived(place: usize, fate: Arrival) -> Single
    ensures { result ≡ arrived_with place fate }
{
    answer::counted(Answer::Arrived(fate), place, answer::arrival_rises(fate))
}

// A cell arrives at the unit in a place. A routed one is queued behind the others in the inlet.
fn arrive_at(
    card: Card,
    s: &mut [u8; 2048],
    place: usize,
    memory: &[u8],
    store: &mut [u8],
    cell: &[u8],
) -> Single
    requires { (length cell.now ≡ 53) × Housed place (unit_in s.old place) (length store.old) }
    ensures result_value { outcome_by result ≡ outcome_of (done_at card (shelf_in s.old) place memory.now cell.now) }
    ensures kept { (s.new ≡ state_at card s.old place memory.now cell.now) × (store.new ≡ store_at card (shelf_in s.old) place memory.now store.old cell.now) }
{
    let settings = state::settings_at(s, place);
    let Headers { routing, header } = match way_of(
        card,
        settings,
        state::place_at(s, place),
        memory,
        cell,
    ) {
        Ok(headers) => headers,
        Err(fate) => {
            return arrived(place, fate);
        }
    };
    let inlet = state::ring_at(s, 14, 15, place);
    if Unit::INLET <= inlet.count {
        return arrived(place, Arrival::Inletfull);
    }
    let mut bytes = [0; 56];
    bus::compose(routing, header, &cell[5..53], &mut bytes);
    let tail = store::tail(inlet, Unit::INLET);
    store::put_cell(store, store::inlet_at(place, tail), &bytes);
    state::put_ring(s, 14, 15, place, store::pushed(inlet));
    arrived(place, Arrival::Queued)
}

// Arrival of a cell at the unit with this number; everything but the counter rows, of which there are so many.
pub fn arrive(
    card: Card,
    s: &mut [u8; 2048],
    memory: &[u8],
    store: &mut [u8],
    rows: usize,
    unit: u8,
    cell: &[u8],
) -> Single
    ensures result_value { (outcome_by result ≡ arrive_out card s.old memory.now (length store.old) rows unit cell.now) × ((s.new ≡ arrive_state card s.old memory.now (length store.old) rows unit cell.now) × (store.new ≡ arrive_store_in card s.old memory.now store.old rows unit cell.now)) }
    ensures fits { ((outcome_by result).rises.to ≤ 32) × ((outcome_by result).rises.to ≤ rows) }
{
    match soundness::admit(card, s, store.len(), rows, unit, cell.len() == 53) {
        Ok(place) => arrive_at(card, s, place, memory, store, cell),
        Err(number) => answer::uncounted(Answer::Refused(number)),
    }
}
