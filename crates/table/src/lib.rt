// The loader: what a line that is fine gives; text into lines, lines judged and enacted; and loading as an event.
#![tactic(auto)]

ghost use Rattle.std.specs.Prelude.{◌≡◌, ◌≤◌, min, length, [], Ok};
ghost use Rattle.shelf.specs.Shelves.{declared as declared_in, find_in};
ghost use Rattle.state.specs.Bytes.{shelf_in};
ghost use Rattle.meaning.specs.Told.{opens, takes as takes_of, memory_of};
ghost use Rattle.meaning.specs.Enact.{put_by, put_vc, memory_by, Places};
ghost use Rattle.lookup.specs.Record.{usable as usable_in, cleared};
ghost use Rattle.state.specs.Placing.{fresh_bytes};
ghost use Rattle.meaning.specs.Lines.{done};
ghost use Rattle.judge.specs.Verdicts.{fine};
ghost use Rattle.table.specs.Loading.{refusal_of};
ghost use Rattle.table.specs.GivenInPlace.{joined_at, state_by};
ghost use Rattle.table.specs.Load.{progress_by, memory_after, verdict_in, progress_of, told_in, ran_of, too_little, load as loading_of, loaded};
ghost use Rattle.table.specs.InPlace.{state_after, state_of, state_loaded};
ghost use Rattle.table.specs.Loads.{answer_of, load_memory};
ghost use Rattle.table.specs.EventInPlace.{outcome_by, load_out, load_state};

use answer::{Answer, Rises};
use card::Card;
use judge::{Fault, Owner, Verdict};
use line::{Line, Wrong};
use lookup::Record;
use outlet::Outlet;

// Writes a record at a VPI of a declared unit.
#[tactic(auto, unfolding(meaning::specs::Enact::put_by))]
fn put_path(card: Card, memory: &mut [u8], o: Option<Owner>, vpi: u16, r: Record)
    ensures { memory.new ≡ put_by card memory.old o vpi r }
{
    if let Some(o) = o {
        lookup::put(card, memory, judge::spot(o, vpi), r);
    }
}

// Writes a record at a VCI of the page that stands at a VPI.
#[tactic(auto, unfolding(meaning::specs::Enact::put_vc, meaning::specs::Enact::put_in))]
fn put_circuit(card: Card, memory: &mut [u8], o: Option<Owner>, vpi: u16, vci: u16, r: Record)
    ensures { memory.new ≡ put_vc card memory.old o vpi vci r }
{
    let Some(o) = o else {
        return;
    };
    if let Some(page) = judge::page_in(lookup::get(card, memory, judge::spot(o, vpi))) {
        lookup::put(card, memory, judge::vci_spot(page, vci), r);
    }
}

// Writes what a line gives that names this unit.
pub fn write(card: Card, memory: &mut [u8], used: u32, o: Option<Owner>, line: Line)
    ensures { memory.new ≡ memory_by card memory.old used o line }
{
    match line {
        Line::Vp {
            vpi,
            target,
            class,
            outvpi,
            ..
        } => {
            let header = bus::write(target, class);
            let r = Record::Route {
                header,
                vpi: outvpi,
                vci: 0,
            };
            put_path(card, memory, o, vpi, r);
        }
        Line::Drop { vpi, .. } => put_path(card, memory, o, vpi, Record::Drop),
        Line::Page { vpi, top, .. } => {
            let r = Record::Page { top, place: used };
            put_path(card, memory, o, vpi, r);
        }
        Line::Vc {
            vpi,
            vci,
            target,
            class,
            outvpi,
            outvci,
            ..
        } => {
            let header = bus::write(target, class);
            let r = Record::Route {
                header,
                vpi: outvpi,
                vci: outvci,
            };
            put_circuit(card, memory, o, vpi, vci, r);
        }
        Line::Bus(_) => {}
        Line::Unit { .. } => {}
        Line::Mc { .. } => {}
    }
}

// A unit hears one session more.
#[tactic(auto, unfolding(crate::specs::GivenInPlace::joined_at))]
fn join(s: &mut [u8; 2048], number: u8, session: u8)
    ensures { s.new ≡ joined_at s.old (find_in (declared_in (shelf_in s.old)) number) session }
{
    if let Some(i) = state::find(s, number) {
        state::join(s, i, session);
    }
}

// Writes a line into the state.
#[tactic(auto, unfolding(crate::specs::GivenInPlace::state_by))]
pub fn enter(s: &mut [u8; 2048], used: u32, line: Line)
    requires { Places (shelf_in s.old) (Ok line) }
    ensures { s.new ≡ state_by line used s.old }
{
    match line {
        Line::Bus(bus) => state::fresh(s, bus),
        Line::Unit { settings, limits } => {
            state::declare(s, settings, Outlet::fresh(limits), used)
        }
        Line::Mc { unit, session } => join(s, unit, session),
        Line::Vp { .. } => {}
        Line::Drop { .. } => {}
        Line::Page { .. } => {}
        Line::Vc { .. } => {}
    }
}

// How many records a line takes.
#[tactic(auto, unfolding(meaning::specs::Told::opens))]
pub fn takes(line: Line) -> u32
    ensures { (result ≡ takes_of (opens line)) × (result ≤ 65536) }
{
    match line {
        Line::Unit { settings, .. } => (settings.top as u32) + 1,
        Line::Page { top, .. } => (top as u32) + 1,
        Line::Bus(_) => 0,
        Line::Vp { .. } => 0,
        Line::Drop { .. } => 0,
        Line::Vc { .. } => 0,
        Line::Mc { .. } => 0,
    }
}

// The longest text that is read.
const LONGEST: usize = 65536;

// A table is refused with this number at this line.
#[derive(Clone, Copy)]
pub struct Refusal {
    pub number: u8,
    pub line: u32,
}

// The bytes used so far, how many lines were read, and what the last of them came to.
#[derive(Clone, Copy)]
pub struct Progress {
    pub used: u32,
    pub lines: u32,
    pub verdict: Verdict,
}

// One line more that can be read: judged, and enacted if it is fine.
fn enact(
    card: Card,
    room: usize,
    memory: &mut [u8],
    s: &mut [u8; 2048],
    p: Progress,
    line: Line,
) -> Progress
    requires bounded { (p.used ≤ 262144) × (p.lines ≤ 65536) }
    requires places { verdict_in card room memory.old (shelf_in s.old) p (Ok line) ≡ fine → Places (shelf_in s.old) (Ok line) }
    ensures value { result ≡ progress_by (verdict_in card room memory.old (shelf_in s.old) p (Ok line)) p (Ok line) }
    ensures memory_after { memory.new ≡ memory_after card memory.old (shelf_in s.old) (verdict_in card room memory.old (shelf_in s.old) p (Ok line)) p (Ok line) }
    ensures s_after { s.new ≡ state_after s.old (verdict_in card room memory.old (shelf_in s.old) p (Ok line)) p (Ok line) }
{
    let used = p.used;
    let lines = p.lines;
    let o = judge::owner_of(s, line);
    let verdict = judge::judge(card, room, lines == 0, memory, s, used, o, line);
    if verdict.is_err() {
        return Progress {
            used,
            lines: lines + 1,
            verdict,
        };
    }
    write(card, memory, used, o, line);
    enter(s, used, line);
    Progress {
        used: used + 8 * takes(line),
        lines: lines + 1,
        verdict,
    }
}

// One line more.
fn step(
    card: Card,
    room: usize,
    memory: &mut [u8],
    s: &mut [u8; 2048],
    p: Progress,
    reading: Result<Line, Wrong>,
) -> Progress
    requires bounded { (p.used ≤ 262144) × (p.lines ≤ 65536) }
    requires places { verdict_in card room memory.old (shelf_in s.old) p reading ≡ fine → Places (shelf_in s.old) reading }
    ensures value { result ≡ progress_by (verdict_in card room memory.old (shelf_in s.old) p reading) p reading }
    ensures memory_after { memory.new ≡ memory_after card memory.old (shelf_in s.old) (verdict_in card room memory.old (shelf_in s.old) p reading) p reading }
    ensures s_after { s.new ≡ state_after s.old (verdict_in card room memory.old (shelf_in s.old) p reading) p reading }
{
    match reading {
        Ok(line) => enact(card, room, memory, s, p, line),
        Err(wrong) => Progress {
            used: p.used,
            lines: p.lines + 1,
            verdict: Err(Fault::Form(wrong)),
        },
    }
}

// Before the first line.
fn begin() -> Progress
    ensures { result ≡ progress_of (done []) }
{
    Progress {
        used: 0,
        lines: 0,
        verdict: Ok(()),
    }
}

// How much of a memory a table may use.
fn usable(bytes: usize) -> usize
    ensures { result ≡ min bytes 262144 }
{
    bytes.min(lookup::MOST)
}

// Reads the lines of a text into a memory that is zero and a fresh state, up to the first faulty one.
fn read_lines(card: Card, text: &[u8], memory: &mut [u8], s: &mut [u8; 2048]) -> Progress
    requires { (length text.now ≤ 65536) × (memory.old ≡ cleared memory.old) × (s.old ≡ fresh_bytes 16) }
    ensures value { result ≡ progress_of (ran_of card (usable_in memory.old) text.now) }
    ensures memory_after { memory.new ≡ memory_of card memory.old (told_in (ran_of card (usable_in memory.old) text.now)) }
    ensures s_after { s.new ≡ state_of (told_in (ran_of card (usable_in memory.old) text.now)) }
{
    if text.len() == 0 {
        return Progress {
            used: 0,
            lines: 1,
            verdict: Err(Fault::Form(Wrong::Newline)),
        };
    }
    let room = usable(memory.len());
    let mut p = begin();
    let mut from: usize = 0;
    while from < text.len() {
        let stretch = text::line_at(text, from);
        let end = stretch.end;
        let reading = line::read(&text[from..end], end < text.len(), stretch.fields);
        p = step(card, room, memory, s, p, reading);
        let verdict = p.verdict;
        if verdict.is_err() {
            return p;
        }
        from = end + 1;
    }
    p
}

// A table that is refused leaves nothing behind.
fn refused(memory: &mut [u8], s: &mut [u8; 2048], number: u8, line: u32) -> Result<u32, Refusal>
    ensures value { result ≡ refusal_of number line }
    ensures memory_after { memory.new ≡ cleared memory.old }
    ensures s_after { s.new ≡ fresh_bytes 16 }
{
    lookup::clear(memory);
    state::fresh(s, 16);
    Err(Refusal { number, line })
}

// Whether a declared unit lacks its part of the store or its row.
fn too_little(s: &[u8; 2048], store: usize, rows: usize) -> bool
    ensures { result ≡ too_little (shelf_in s.now) store rows }
{
    let units = s[805] as usize;
    (store < store::PART * units) | (rows < units)
}

// Loads a table; the answer, the memory that holds its records, and the state with its units.
pub fn load_text(
    card: Card,
    text: &[u8],
    memory: &mut [u8],
    s: &mut [u8; 2048],
    store: usize,
    rows: usize,
) -> Result<u32, Refusal>
    ensures value { result ≡ (loading_of card text.now memory.old store rows).outcome }
    ensures memory_after { memory.new ≡ loaded card text.now memory.old store rows }
    ensures s_after { s.new ≡ state_loaded card text.now memory.old store rows }
{
    if LONGEST < text.len() {
        return refused(memory, s, 1, 0);
    }
    lookup::clear(memory);
    state::fresh(s, 16);
    let p = read_lines(card, text, memory, s);
    let verdict = p.verdict;
    if verdict.is_err() {
        return refused(memory, s, judge::number(verdict), p.lines);
    }
    if too_little(s, store, rows) {
        return refused(memory, s, 7, 0);
    }
    Ok(p.used)
}

// What loading answers.
#[tactic(auto, unfolding(crate::specs::Loads::answer_of))]
fn answer_of(outcome: Result<u32, Refusal>) -> Answer
    ensures { result ≡ answer_of outcome }
{
    match outcome {
        Ok(used) => Answer::Loaded(used),
        Err(Refusal { number, line }) => Answer::Unloaded { number, line },
    }
}

// The rows of the declared units start anew; a refused table declares none.
fn outcome_of(outcome: Result<u32, Refusal>, units: u8) -> answer::Outcome
    ensures { result ≡ outcome_by outcome units }
{
    let rises = Rises {
        from: 0,
        to: shelf::declared_count(units),
        anew: true,
        each: [0; 32],
    };
    answer::Outcome {
        answer: answer_of(outcome),
        rises,
    }
}

// Loads a table; everything but the counter rows, of which there are so many.
pub fn load(
    card: Card,
    text: &[u8],
    memory: &mut [u8],
    s: &mut [u8; 2048],
    store: &[u8],
    rows: usize,
) -> answer::Outcome
    ensures value { (result ≡ load_out card text.now memory.old (length store.now) rows) × ((memory.new ≡ load_memory card text.now memory.old (length store.now) rows) × (s.new ≡ load_state card text.now memory.old (length store.now) rows)) }
    ensures fits { (result.rises.to ≤ 32) × (result.rises.to ≤ rows) }
{
    let outcome = load_text(card, text, memory, s, store.len(), rows);
    outcome_of(outcome, s[805])
}
