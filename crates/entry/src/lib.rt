// The eight functions that others call, with the state lent. Each has a covered function do all but the counters, and `counters` writes those.
#![tactic(auto)]

ghost use Rattle.std.specs.Prelude.{◌≡◌, length};
ghost use Rattle.entry.specs.Outcomes.{arrives, frames, hears, takes, hands, collects, counts_of, loads, LeavesStore, LeavesAll, LeavesBytes, LeavesCell, LeavesMemory};

use answer::{Answer, Counters};
use card::Card;

// A route table is loaded.
pub fn load(
    card: Card,
    text: &[u8],
    memory: &mut [u8],
    state: &mut [u8; 2048],
    store: &[u8],
    rows: &mut [Counters],
) -> Answer
    ensures { LeavesMemory (loads card text.now memory.old store.now rows.old (length rows.old)) result memory.new state.new rows.new }
{
    let n = rows.len();
    let done = table::load(card, text, memory, state, store, n);
    let rises = answer::rises_of(done);
    answer::settle(rows, rises);
    answer::answer_of(done)
}

// A cell arrives at a unit.
pub fn arrive(
    card: Card,
    state: &mut [u8; 2048],
    memory: &[u8],
    store: &mut [u8],
    rows: &mut [Counters],
    unit: u8,
    cell: &[u8],
) -> Answer
    ensures { LeavesStore (arrives card state.old memory.now store.old rows.old (length rows.old) unit cell.now) result state.new store.new rows.new }
{
    let n = rows.len();
    let done = arriving::arrive(card, state, memory, store, n, unit, cell);
    answer::raise_one(rows, done);
    answer::answer_by(done)
}

// A frame on the bus. What rises at each unit is written into an array of its own, and read back from there.
pub fn frame(
    card: Card,
    state: &mut [u8; 2048],
    store: &mut [u8],
    rows: &mut [Counters],
    buffer: &mut [u8],
) -> Answer
    ensures { LeavesAll (frames card state.old store.old rows.old (length rows.old) buffer.old) result state.new store.new buffer.new rows.new }
{
    let n = rows.len();
    let mut each = [0; 32];
    let done = framing::frame(card, state, store, n, buffer, &mut each);
    answer::raise(rows, 0, &each, done.to);
    done.answer
}

// A frame is handed in to a unit.
pub fn hear(
    card: Card,
    state: &mut [u8; 2048],
    store: &mut [u8],
    rows: &mut [Counters],
    unit: u8,
    frame: &[u8],
) -> Answer
    ensures { LeavesStore (hears card state.old store.old rows.old (length rows.old) unit frame.now) result state.new store.new rows.new }
{
    let n = rows.len();
    let done = hearing::hear(card, state, store, n, unit, frame);
    answer::raise_one(rows, done);
    answer::answer_by(done)
}

// The oldest cell is taken from a unit.
pub fn take(
    card: Card,
    state: &mut [u8; 2048],
    store: &[u8],
    rows: &mut [Counters],
    unit: u8,
    buffer: &mut [u8],
) -> Answer
    ensures { LeavesBytes (takes card state.old store.now rows.old (length rows.old) unit buffer.old) result state.new buffer.new rows.new }
{
    let n = rows.len();
    let done = taking::take(card, state, store, n, unit, buffer);
    answer::raise_one(rows, done);
    answer::answer_by(done)
}

// A unit's processor hands in a cell. Nothing is counted: of the rows only their number is read.
pub fn hand(
    card: Card,
    state: &mut [u8; 2048],
    store: &mut [u8],
    rows: &[Counters],
    unit: u8,
    cell: &[u8],
) -> Answer
    ensures { LeavesCell (hands card state.old store.old rows.now (length rows.now) unit cell.now) result state.new store.new }
{
    let n = rows.len();
    let done = handing::hand(card, state, store, n, unit, cell);
    answer::answer_by(done)
}

// A unit's processor takes the oldest cell from the control outlet.
pub fn collect(
    card: Card,
    state: &mut [u8; 2048],
    store: &[u8],
    rows: &mut [Counters],
    unit: u8,
    buffer: &mut [u8],
) -> Answer
    ensures { LeavesBytes (collects card state.old store.now rows.old (length rows.old) unit buffer.old) result state.new buffer.new rows.new }
{
    let n = rows.len();
    let done = handing::collect(card, state, store, n, unit, buffer);
    answer::raise_one(rows, done);
    answer::answer_by(done)
}

// The counters of a unit, or the number of the refusal. A row is read only where it is not refused.
pub fn count(
    card: Card,
    state: &[u8; 2048],
    store: &[u8],
    rows: &[Counters],
    unit: u8,
) -> Result<Counters, u8>
    ensures { result ≡ counts_of card state.now store.now rows.now (length rows.now) unit }
{
    let at = soundness::counted(card, state, store, rows.len(), unit)?;
    Ok(rows[at])
}
