// What a card's firmware calls; firmware_c has it for C. By numbers, and by slices, which go as pointers with lengths. Nothing large goes by value.
#![tactic(auto)]

ghost use Rattle.std.specs.Prelude.{◌≡◌, length};
ghost use Rattle.soundness.specs.Admission.{counted_in};
ghost use Rattle.entry.specs.Outcomes.{arrives, frames, hears, takes, hands, collects, loads, LeavesStore, LeavesAll, LeavesBytes, LeavesCell, LeavesMemory};
ghost use Rattle.firmware.specs.Codes.{card_of, arrival_code, hearing_code, pack as packed, code as code_of, place_code, Tells};

use answer::{Answer, Arrival, Counters, Hearing};
use card::Card;

// The card with this number.
#[tactic(auto, unfolding(crate::specs::Codes::card_of))]
fn card_of(number: u8) -> Card
    ensures { result ≡ card_of number }
{
    if number == 1 {
        Card::Wide
    } else {
        Card::Narrow
    }
}

// The parts of an answer as numbers.
#[tactic(auto, unfolding(crate::specs::Codes::arrival_code))]
fn arrival_code(fate: Arrival) -> u8
    ensures { result ≡ arrival_code fate }
{
    match fate {
        Arrival::Hec => 0,
        Arrival::Ignored => 1,
        Arrival::Misrouted => 2,
        Arrival::Inletfull => 3,
        Arrival::Queued => 4,
    }
}

#[tactic(auto, unfolding(crate::specs::Codes::hearing_code))]
fn hearing_code(fate: Hearing) -> u8
    ensures { result ≡ hearing_code fate }
{
    match fate {
        Hearing::Damaged => 0,
        Hearing::Other => 1,
        Hearing::Wide => 2,
        Hearing::Full => 3,
        Hearing::Clp => 4,
        Hearing::Queued => 5,
    }
}

// Each field in its bits.
fn pack(kind: u8, low: u8, sender: u8, granted: u8, high: u32) -> u64
    ensures { result ≡ packed kind low sender granted high }
{
    (kind as u64)
        + (low as u64) * 256
        + (sender as u64) * 65536
        + (granted as u64) * 16777216
        + (high as u64) * 4294967296
}

// An answer as one number.
#[tactic(auto, unfolding(crate::specs::Codes::code))]
fn code(answer: Answer) -> u64
    ensures { result ≡ code_of answer }
{
    match answer {
        Answer::Loaded(bytes) => pack(0, 0, 0, 0, bytes),
        Answer::Unloaded { number, line } => pack(1, number, 0, 0, line),
        Answer::Refused(number) => pack(2, number, 0, 0, 0),
        Answer::Arrived(fate) => pack(3, arrival_code(fate), 0, 0, 0),
        Answer::Framed {
            number,
            sender,
            granted,
            copies,
        } => { pack(4, copies, sender, granted, number as u32) }
        Answer::Heard(fate) => pack(5, hearing_code(fate), 0, 0, 0),
        Answer::Taken => 6,
        Answer::Empty => 7,
        Answer::Handed => 8,
    }
}

// Where the counters of a unit stand, or the refusal, as one number.
#[tactic(auto, unfolding(crate::specs::Codes::place_code))]
fn count_code(card: Card, state: &[u8; 2048], store: &[u8], rows: usize, unit: u8) -> u64
    ensures { result ≡ place_code (counted_in card state.now (length store.now) rows unit) }
{
    match soundness::counted(card, state, store, rows, unit) {
        Ok(at) => pack(9, 0, 0, 0, at as u32),
        Err(number) => pack(2, number, 0, 0, 0),
    }
}

// A route table is loaded.
pub fn plevandor_load(
    card: u8,
    text: &[u8],
    memory: &mut [u8],
    state: &mut [u8; 2048],
    store: &[u8],
    rows: &mut [Counters],
) -> u64
    ensures { Tells (λ a. LeavesMemory (loads (card_of card) text.now memory.old store.now rows.old (length rows.old)) a memory.new state.new rows.new) result }
{
    let which = card_of(card);
    let answer = entry::load(which, text, memory, state, store, rows);
    code(answer)
}

// A cell arrives at a unit.
pub fn plevandor_arrive(
    card: u8,
    state: &mut [u8; 2048],
    memory: &[u8],
    store: &mut [u8],
    rows: &mut [Counters],
    unit: u8,
    cell: &[u8],
) -> u64
    ensures { Tells (λ a. LeavesStore (arrives (card_of card) state.old memory.now store.old rows.old (length rows.old) unit cell.now) a state.new store.new rows.new) result }
{
    let which = card_of(card);
    let answer = entry::arrive(which, state, memory, store, rows, unit, cell);
    code(answer)
}

// A frame on the bus.
pub fn plevandor_frame(
    card: u8,
    state: &mut [u8; 2048],
    store: &mut [u8],
    rows: &mut [Counters],
    buffer: &mut [u8],
) -> u64
    ensures { Tells (λ a. LeavesAll (frames (card_of card) state.old store.old rows.old (length rows.old) buffer.old) a state.new store.new buffer.new rows.new) result }
{
    let which = card_of(card);
    let answer = entry::frame(which, state, store, rows, buffer);
    code(answer)
}

// A frame is handed in to a unit.
pub fn plevandor_hear(
    card: u8,
    state: &mut [u8; 2048],
    store: &mut [u8],
    rows: &mut [Counters],
    unit: u8,
    frame: &[u8],
) -> u64
    ensures { Tells (λ a. LeavesStore (hears (card_of card) state.old store.old rows.old (length rows.old) unit frame.now) a state.new store.new rows.new) result }
{
    let which = card_of(card);
    let answer = entry::hear(which, state, store, rows, unit, frame);
    code(answer)
}

// The oldest cell is taken from a unit.
pub fn plevandor_take(
    card: u8,
    state: &mut [u8; 2048],
    store: &[u8],
    rows: &mut [Counters],
    unit: u8,
    buffer: &mut [u8],
) -> u64
    ensures { Tells (λ a. LeavesBytes (takes (card_of card) state.old store.now rows.old (length rows.old) unit buffer.old) a state.new buffer.new rows.new) result }
{
    let which = card_of(card);
    let answer = entry::take(which, state, store, rows, unit, buffer);
    code(answer)
}

// A unit's processor hands in a cell.
pub fn plevandor_hand(
    card: u8,
    state: &mut [u8; 2048],
    store: &mut [u8],
    rows: &[Counters],
    unit: u8,
    cell: &[u8],
) -> u64
    ensures { Tells (λ a. LeavesCell (hands (card_of card) state.old store.old rows.now (length rows.now) unit cell.now) a state.new store.new) result }
{
    let which = card_of(card);
    let answer = entry::hand(which, state, store, rows, unit, cell);
    code(answer)
}

// A unit's processor takes the oldest cell from the control outlet.
pub fn plevandor_collect(
    card: u8,
    state: &mut [u8; 2048],
    store: &[u8],
    rows: &mut [Counters],
    unit: u8,
    buffer: &mut [u8],
) -> u64
    ensures { Tells (λ a. LeavesBytes (collects (card_of card) state.old store.now rows.old (length rows.old) unit buffer.old) a state.new buffer.new rows.new) result }
{
    let which = card_of(card);
    let answer = entry::collect(which, state, store, rows, unit, buffer);
    code(answer)
}

// Which row has the counters of a unit: the caller has the rows, and reads it there.
pub fn plevandor_count(
    card: u8,
    state: &[u8; 2048],
    store: &[u8],
    rows: &[Counters],
    unit: u8,
) -> u64
    ensures { result ≡ place_code (counted_in (card_of card) state.now (length store.now) (length rows.now) unit) }
{
    let which = card_of(card);
    let n = rows.len();
    count_code(which, state, store, n, unit)
}
