// What C calls of firmware: each function of it that a card's firmware calls, with its clauses; numbers, and pointers with lengths. Nothing large goes by value.
#![tactic(auto)]

ghost use Rattle.std.specs.Prelude.{◌≡◌, length};
ghost use Rattle.soundness.specs.Admission.{counted_in};
ghost use Rattle.entry.specs.Outcomes.{arrives, frames, hears, takes, hands, collects, loads, LeavesStore, LeavesAll, LeavesBytes, LeavesCell, LeavesMemory};
ghost use Rattle.firmware.specs.Codes.{card_of, place_code, Tells};

use answer::Counters;

// A route table is loaded.
#[unsafe(no_mangle)]
pub extern "C" fn plevandor_load(
    card: u8,
    text: &[u8],
    memory: &mut [u8],
    state: &mut [u8; 2048],
    store: &[u8],
    rows: &mut [Counters],
) -> u64
    ensures { Tells (λ a. LeavesMemory (loads (card_of card) text.now memory.old store.now rows.old (length rows.old)) a memory.new state.new rows.new) result }
{
    firmware::plevandor_load(card, text, memory, state, store, rows)
}

// A cell arrives at a unit.
#[unsafe(no_mangle)]
pub extern "C" fn plevandor_arrive(
    card: u8,
    state: &mut [u8; 2048],
    memory: &[u8],
    store: &mut [u8],
    rows: &mut [Counters],
    unit: u8,
    cell: &[u8],
) -> u64
    ensures { Tells (λ a. LeavesStore (arrives (card_of card) state.old memory.now store.old rows.old (length rows.old) unit cell.now) a state.new store.new rows.new) result }
{
    firmware::plevandor_arrive(card, state, memory, store, rows, unit, cell)
}

// A frame on the bus.
#[unsafe(no_mangle)]
pub extern "C" fn plevandor_frame(
    card: u8,
    state: &mut [u8; 2048],
    store: &mut [u8],
    rows: &mut [Counters],
    buffer: &mut [u8],
) -> u64
    ensures { Tells (λ a. LeavesAll (frames (card_of card) state.old store.old rows.old (length rows.old) buffer.old) a state.new store.new buffer.new rows.new) result }
{
    firmware::plevandor_frame(card, state, store, rows, buffer)
}

// A frame is handed in to a unit.
#[unsafe(no_mangle)]
pub extern "C" fn plevandor_hear(
    card: u8,
    state: &mut [u8; 2048],
    store: &mut [u8],
    rows: &mut [Counters],
    unit: u8,
    frame: &[u8],
) -> u64
    ensures { Tells (λ a. LeavesStore (hears (card_of card) state.old store.old rows.old (length rows.old) unit frame.now) a state.new store.new rows.new) result }
{
    firmware::plevandor_hear(card, state, store, rows, unit, frame)
}

// The oldest cell is taken from a unit.
#[unsafe(no_mangle)]
pub extern "C" fn plevandor_take(
    card: u8,
    state: &mut [u8; 2048],
    store: &[u8],
    rows: &mut [Counters],
    unit: u8,
    buffer: &mut [u8],
) -> u64
    ensures { Tells (λ a. LeavesBytes (takes (card_of card) state.old store.now rows.old (length rows.old) unit buffer.old) a state.new buffer.new rows.new) result }
{
    firmware::plevandor_take(card, state, store, rows, unit, buffer)
}

// A unit's processor hands in a cell.
#[unsafe(no_mangle)]
pub extern "C" fn plevandor_hand(
    card: u8,
    state: &mut [u8; 2048],
    store: &mut [u8],
    rows: &[Counters],
    unit: u8,
    cell: &[u8],
) -> u64
    ensures { Tells (λ a. LeavesCell (hands (card_of card) state.old store.old rows.now (length rows.now) unit cell.now) a state.new store.new) result }
{
    firmware::plevandor_hand(card, state, store, rows, unit, cell)
}

// A unit's processor takes the oldest cell from the control outlet.
#[unsafe(no_mangle)]
pub extern "C" fn plevandor_collect(
    card: u8,
    state: &mut [u8; 2048],
    store: &[u8],
    rows: &mut [Counters],
    unit: u8,
    buffer: &mut [u8],
) -> u64
    ensures { Tells (λ a. LeavesBytes (collects (card_of card) state.old store.now rows.old (length rows.old) unit buffer.old) a state.new buffer.new rows.new) result }
{
    firmware::plevandor_collect(card, state, store, rows, unit, buffer)
}

// Which row has the counters of a unit: the caller has the rows, and reads it there.
#[unsafe(no_mangle)]
pub extern "C" fn plevandor_count(
    card: u8,
    state: &[u8; 2048],
    store: &[u8],
    rows: &[Counters],
    unit: u8,
) -> u64
    ensures { result ≡ place_code (counted_in (card_of card) state.now (length store.now) (length rows.now) unit) }
{
    firmware::plevandor_count(card, state, store, rows, unit)
}
