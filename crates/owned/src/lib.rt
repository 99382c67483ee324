// The entry points for a program that keeps 40 counter rows in an array and lends the first so many of them: as functions, where the rows go in by value
// and come back, and as methods of a shelf, which has all that they are lent together.
#![tactic(auto)]

ghost use Rattle.std.specs.Prelude.{◌≡◌, min};
ghost use Rattle.entry.specs.Outcomes.{arrives, frames, hears, takes, hands, collects, counts_of, loads, LeavesStore, LeavesAll, LeavesBytes, LeavesCell, LeavesMemory};

use answer::{Answer, Counters};
use card::Card;

// What is given back, and the rows afterwards.
#[derive(Clone, Copy)]
pub struct After {
    pub answer: Answer,
    pub rows: [Counters; 40],
}

pub fn joined(answer: Answer, rows: [Counters; 40]) -> After
    ensures { (result.answer ≡ answer) × (result.rows ≡ rows) }
{
    After { answer, rows }
}

// So many of the 40 are there to be lent.
fn within(lent: usize) -> usize
    ensures { result ≡ min lent 40 }
{
    lent.min(40)
}

pub fn load(
    card: Card,
    text: &[u8],
    memory: &mut [u8],
    state: &mut [u8; 2048],
    store: &[u8],
    rows: [Counters; 40],
    lent: usize,
) -> After
    ensures { LeavesMemory (loads card text.now memory.old store.now rows lent) result.answer memory.new state.new result.rows }
{
    let mut rs = rows;
    let n = within(lent);
    let answer = entry::load(card, text, memory, state, store, &mut rs[..n]);
    joined(answer, rs)
}

pub fn arrive(
    card: Card,
    state: &mut [u8; 2048],
    memory: &[u8],
    store: &mut [u8],
    rows: [Counters; 40],
    lent: usize,
    unit: u8,
    cell: &[u8],
) -> After
    ensures { LeavesStore (arrives card state.old memory.now store.old rows lent unit cell.now) result.answer state.new store.new result.rows }
{
    let mut rs = rows;
    let n = within(lent);
    let answer = entry::arrive(card, state, memory, store, &mut rs[..n], unit, cell);
    joined(answer, rs)
}

pub fn frame(
    card: Card,
    state: &mut [u8; 2048],
    store: &mut [u8],
    rows: [Counters; 40],
    lent: usize,
    buffer: &mut [u8],
) -> After
    ensures { LeavesAll (frames card state.old store.old rows lent buffer.old) result.answer state.new store.new buffer.new result.rows }
{
    let mut rs = rows;
    let n = within(lent);
    let answer = entry::frame(card, state, store, &mut rs[..n], buffer);
    joined(answer, rs)
}

pub fn hear(
    card: Card,
    state: &mut [u8; 2048],
    store: &mut [u8],
    rows: [Counters; 40],
    lent: usize,
    unit: u8,
    frame: &[u8],
) -> After
    ensures { LeavesStore (hears card state.old store.old rows lent unit frame.now) result.answer state.new store.new result.rows }
{
    let mut rs = rows;
    let n = within(lent);
    let answer = entry::hear(card, state, store, &mut rs[..n], unit, frame);
    joined(answer, rs)
}

pub fn take(
    card: Card,
    state: &mut [u8; 2048],
    store: &[u8],
    rows: [Counters; 40],
    lent: usize,
    unit: u8,
    buffer: &mut [u8],
) -> After
    ensures { LeavesBytes (takes card state.old store.now rows lent unit buffer.old) result.answer state.new buffer.new result.rows }
{
    let mut rs = rows;
    let n = within(lent);
    let answer = entry::take(card, state, store, &mut rs[..n], unit, buffer);
    joined(answer, rs)
}

// The rows are as they were: the answer alone comes back.
pub fn hand(
    card: Card,
    state: &mut [u8; 2048],
    store: &mut [u8],
    rows: [Counters; 40],
    lent: usize,
    unit: u8,
    cell: &[u8],
) -> Answer
    ensures { LeavesCell (hands card state.old store.old rows lent unit cell.now) result state.new store.new }
{
    let n = within(lent);
    entry::hand(card, state, store, &rows[..n], unit, cell)
}

pub fn collect(
    card: Card,
    state: &mut [u8; 2048],
    store: &[u8],
    rows: [Counters; 40],
    lent: usize,
    unit: u8,
    buffer: &mut [u8],
) -> After
    ensures { LeavesBytes (collects card state.old store.now rows lent unit buffer.old) result.answer state.new buffer.new result.rows }
{
    let mut rs = rows;
    let n = within(lent);
    let answer = entry::collect(card, state, store, &mut rs[..n], unit, buffer);
    joined(answer, rs)
}

pub fn count(
    card: Card,
    state: &[u8; 2048],
    store: &[u8],
    rows: [Counters; 40],
    lent: usize,
    unit: u8,
) -> Result<Counters, u8>
    ensures { result ≡ counts_of card state.now store.now rows lent unit }
{
    let n = within(lent);
    entry::count(card, state, store, &rows[..n], unit)
}

// A shelf as a program has it: the card, a state, a memory and a store that are lent whole, and 40 counter rows, of which the first so many are lent.
#[derive(Drop)]
pub struct Shelf<'a> {
    pub card: Card,
    pub state: &'a mut [u8; 2048],
    pub memory: &'a mut [u8],
    pub store: &'a mut [u8],
    pub rows: [Counters; 40],
    pub lent: usize,
}

// The rows go by a copy: the proof does not follow a part of a field that is lent beside other fields.
impl<'a> Shelf<'a> {
    // A route table is loaded.
    pub fn load(&mut self, text: &[u8]) -> Answer
        ensures leaves { let was = self.old in LeavesMemory (loads was.card text.now was.memory.now was.store.now was.rows was.lent) result self.new.memory.now self.new.state.now self.new.rows }
        ensures stays { (self.new.card ≡ self.old.card) × (self.new.store.now ≡ self.old.store.now) × (self.new.lent ≡ self.old.lent) }
        ensures keeps { (self.new.state.ghost_name ≡ self.old.state.ghost_name) × (self.new.memory.ghost_name ≡ self.old.memory.ghost_name) × (self.new.store.ghost_name ≡ self.old.store.ghost_name) }
    {
        let n = within(self.lent);
        let mut rows = self.rows;
        let card = self.card;
        let store = &mut *self.store;
        let answer = entry::load(card, text, self.memory, self.state, store, &mut rows[..n]);
        self.rows = rows;
        answer
    }

    // A cell arrives at a unit.
    pub fn arrive(&mut self, unit: u8, cell: &[u8]) -> Answer
        ensures leaves { let was = self.old in LeavesStore (arrives was.card was.state.now was.memory.now was.store.now was.rows was.lent unit cell.now) result self.new.state.now self.new.store.now self.new.rows }
        ensures stays { (self.new.card ≡ self.old.card) × (self.new.memory.now ≡ self.old.memory.now) × (self.new.lent ≡ self.old.lent) }
        ensures keeps { (self.new.state.ghost_name ≡ self.old.state.ghost_name) × (self.new.memory.ghost_name ≡ self.old.memory.ghost_name) × (self.new.store.ghost_name ≡ self.old.store.ghost_name) }
    {
        let n = within(self.lent);
        let mut rows = self.rows;
        let card = self.card;
        let memory = &mut *self.memory;
        let answer = entry::arrive(
            card,
            self.state,
            memory,
            self.store,
            &mut rows[..n],
            unit,
            cell,
        );
        self.rows = rows;
        answer
    }

    // A frame on the bus.
    pub fn frame(&mut self, buffer: &mut [u8]) -> Answer
        ensures leaves { let was = self.old in LeavesAll (frames was.card was.state.now was.store.now was.rows was.lent buffer.old) result self.new.state.now self.new.store.now buffer.new self.new.rows }
        ensures stays { (self.new.card ≡ self.old.card) × (self.new.memory.now ≡ self.old.memory.now) × (self.new.lent ≡ self.old.lent) }
        ensures keeps { (self.new.state.ghost_name ≡ self.old.state.ghost_name) × (self.new.memory.ghost_name ≡ self.old.memory.ghost_name) × (self.new.store.ghost_name ≡ self.old.store.ghost_name) }
    {
        let n = within(self.lent);
        let mut rows = self.rows;
        let answer = entry::frame(self.card, self.state, self.store, &mut rows[..n], buffer);
        self.rows = rows;
        answer
    }

    // A frame is handed in to a unit.
    pub fn hear(&mut self, unit: u8, frame: &[u8]) -> Answer
        ensures leaves { let was = self.old in LeavesStore (hears was.card was.state.now was.store.now was.rows was.lent unit frame.now) result self.new.state.now self.new.store.now self.new.rows }
        ensures stays { (self.new.card ≡ self.old.card) × (self.new.memory.now ≡ self.old.memory.now) × (self.new.lent ≡ self.old.lent) }
        ensures keeps { (self.new.state.ghost_name ≡ self.old.state.ghost_name) × (self.new.memory.ghost_name ≡ self.old.memory.ghost_name) × (self.new.store.ghost_name ≡ self.old.store.ghost_name) }
    {
        let n = within(self.lent);
        let mut rows = self.rows;
        let answer = entry::hear(
            self.card,
            self.state,
            self.store,
            &mut rows[..n],
            unit,
            frame,
        );
        self.rows = rows;
        answer
    }

    // The oldest cell is taken from a unit.
    pub fn take(&mut self, unit: u8, buffer: &mut [u8]) -> Answer
        ensures leaves { let was = self.old in LeavesBytes (takes was.card was.state.now was.store.now was.rows was.lent unit buffer.old) result self.new.state.now buffer.new self.new.rows }
        ensures stays { (self.new.card ≡ self.old.card) × (self.new.memory.now ≡ self.old.memory.now) × (self.new.store.now ≡ self.old.store.now) × (self.new.lent ≡ self.old.lent) }
        ensures keeps { (self.new.state.ghost_name ≡ self.old.state.ghost_name) × (self.new.memory.ghost_name ≡ self.old.memory.ghost_name) × (self.new.store.ghost_name ≡ self.old.store.ghost_name) }
    {
        let n = within(self.lent);
        let mut rows = self.rows;
        let card = self.card;
        let store = &mut *self.store;
        let answer = entry::take(card, self.state, store, &mut rows[..n], unit, buffer);
        self.rows = rows;
        answer
    }

    // A unit's processor hands in a cell: the rows are as they were.
    pub fn hand(&mut self, unit: u8, cell: &[u8]) -> Answer
        ensures leaves { let was = self.old in LeavesCell (hands was.card was.state.now was.store.now was.rows was.lent unit cell.now) result self.new.state.now self.new.store.now }
        ensures stays { (self.new.card ≡ self.old.card) × (self.new.memory.now ≡ self.old.memory.now) × (self.new.rows ≡ self.old.rows) × (self.new.lent ≡ self.old.lent) }
        ensures keeps { (self.new.state.ghost_name ≡ self.old.state.ghost_name) × (self.new.memory.ghost_name ≡ self.old.memory.ghost_name) × (self.new.store.ghost_name ≡ self.old.store.ghost_name) }
    {
        let n = within(self.lent);
        entry::hand(
            self.card,
            self.state,
            self.store,
            &self.rows[..n],
            unit,
            cell,
        )
    }

    // A unit's processor takes the oldest cell from the control outlet.
    pub fn collect(&mut self, unit: u8, buffer: &mut [u8]) -> Answer
        ensures leaves { let was = self.old in LeavesBytes (collects was.card was.state.now was.store.now was.rows was.lent unit buffer.old) result self.new.state.now buffer.new self.new.rows }
        ensures stays { (self.new.card ≡ self.old.card) × (self.new.memory.now ≡ self.old.memory.now) × (self.new.store.now ≡ self.old.store.now) × (self.new.lent ≡ self.old.lent) }
        ensures keeps { (self.new.state.ghost_name ≡ self.old.state.ghost_name) × (self.new.memory.ghost_name ≡ self.old.memory.ghost_name) × (self.new.store.ghost_name ≡ self.old.store.ghost_name) }
    {
        let n = within(self.lent);
        let mut rows = self.rows;
        let card = self.card;
        let store = &mut *self.store;
        let answer = entry::collect(card, self.state, store, &mut rows[..n], unit, buffer);
        self.rows = rows;
        answer
    }

    // The counters of a unit, or the number of the refusal.
    #[tactic(auto, using(crate::proofs::Few::counts_few))]
    pub fn count(&self, unit: u8) -> Result<Counters, u8>
        ensures { let is = self.now in result ≡ counts_of is.card is.state.now is.store.now is.rows is.lent unit }
    {
        entry::count(
            self.card,
            self.state,
            self.store,
            &self.rows[..within(self.lent)],
            unit,
        )
    }
}
