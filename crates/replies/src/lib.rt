// The lines that the programs print: a fate, a unit and the counters as fields; what an event answered; the lines of the bench; those of the console.
#![tactic(auto)]

ghost use Rattle.std.specs.Prelude.{◌≡◌, ◌+◌, ◌≤◌, ◌*◌, length, [], ◌∷◌, ◌++◌};
ghost use Rattle.answer.specs.Answers.{arrival_word, hearing_word};
ghost use Rattle.answer.specs.Counting.{listed as listed_of};
ghost use Rattle.text.specs.Writing.{Wrote};
ghost use Rattle.text.specs.Hex.{hex_of};
ghost use Rattle.text.specs.Decimals.{decimal, number_fields, number_field};
ghost use Rattle.replies.specs.LineFields.{tabbed, who, fields};
ghost use Rattle.replies.specs.Answers.{w_refused, w_ok, w_empty, byte_at, header_bytes, answer_fields};
ghost use Rattle.replies.specs.Lines.{outcome_text, word_of, unit_of, table_line, event_line, bad_line, fitting};
ghost use Rattle.replies.specs.ConsoleLines.{frame_text, said_text, count_text, sum_text, state_text, rows_text};

use answer::{Answer, Arrival, Counters, Hearing};
use arbiter::NOBODY;
use event::Event;

// Writes a tab and a text. A place goes beside the buffer here and below, as in the writers of `text`, whose contracts other rooms rest on.
pub fn put_field(out: &mut [u8], at: usize, text: &[u8]) -> usize
    requires { at + 1 + length text.now ≤ length out.old }
    ensures { Wrote out.old at (tabbed text.now) result out.new }
{
    let next = text::put(out, at, b"\t");
    text::put(out, next, text)
}

// Writes a tab and a unit's number, or `-` for nobody.
pub fn put_who(out: &mut [u8], at: usize, n: u8) -> usize
    requires { at + 21 ≤ length out.old }
    ensures { Wrote out.old at (tabbed (who n)) result out.new × (result ≤ at + 21) }
{
    if n == NOBODY {
        return put_field(out, at, b"-");
    }
    text::put_number(out, at, n as u64)
}

// Writes a tab and the fate of an arrival.
#[tactic(auto, unfolding(answer::specs::Answers::arrival_word))]
pub fn put_arrival(out: &mut [u8], at: usize, fate: Arrival) -> usize
    requires { at + 10 ≤ length out.old }
    ensures { Wrote out.old at (tabbed (arrival_word fate)) result out.new × (result ≤ at + 10) }
{
    match fate {
        Arrival::Hec => put_field(out, at, b"hec"),
        Arrival::Ignored => put_field(out, at, b"ignored"),
        Arrival::Misrouted => put_field(out, at, b"misrouted"),
        Arrival::Inletfull => put_field(out, at, b"inletfull"),
        Arrival::Queued => put_field(out, at, b"queued"),
    }
}

// Writes a tab and the fate of a heard frame.
#[tactic(auto, unfolding(answer::specs::Answers::hearing_word))]
pub fn put_hearing(out: &mut [u8], at: usize, fate: Hearing) -> usize
    requires { at + 8 ≤ length out.old }
    ensures { Wrote out.old at (tabbed (hearing_word fate)) result out.new × (result ≤ at + 8) }
{
    match fate {
        Hearing::Damaged => put_field(out, at, b"damaged"),
        Hearing::Other => put_field(out, at, b"other"),
        Hearing::Wide => put_field(out, at, b"wide"),
        Hearing::Full => put_field(out, at, b"full"),
        Hearing::Clp => put_field(out, at, b"clp"),
        Hearing::Queued => put_field(out, at, b"queued"),
    }
}

// The thirteen counters in 01's order.
pub fn listed(c: Counters) -> [u64; 13]
    ensures { result ≡ listed_of c }
{
    [
        u64::from(c.arrived),
        u64::from(c.hec),
        u64::from(c.ignored),
        u64::from(c.misrouted),
        u64::from(c.inletfull),
        u64::from(c.sent),
        u64::from(c.unheard),
        u64::from(c.damaged),
        u64::from(c.queued),
        u64::from(c.full),
        u64::from(c.clp),
        u64::from(c.wide),
        u64::from(c.taken),
    ]
}

// Writes that something is refused.
fn put_refused(out: &mut [u8], at: usize, number: u8) -> usize
    requires { at + 29 ≤ length out.old }
    ensures { Wrote out.old at (fields (w_refused ∷ decimal number ∷ [])) result out.new × (result ≤ at + 29) }
{
    let next = put_field(out, at, b"refused");
    text::put_number(out, next, number as u64)
}

// Writes what a frame says.
fn put_framed(out: &mut [u8], at: usize, number: u16, sender: u8, granted: u8, copies: u8) -> usize
    requires { at + 84 ≤ length out.old }
    ensures { Wrote out.old at (fields (decimal number ∷ who sender ∷ who granted ∷ decimal copies ∷ [])) result out.new × (result ≤ at + 84) }
{
    let a = text::put_number(out, at, number as u64);
    let b = put_who(out, a, sender);
    let c = put_who(out, b, granted);
    text::put_number(out, c, copies as u64)
}

// The byte at a place of a cell; 0 past its end.
fn byte_at(cell: &[u8], k: usize) -> u8
    ensures { result ≡ byte_at cell.now k }
{
    *cell.get(k).unwrap_or(&0)
}

// Writes a tab, the header and its check in hex.
fn put_header(out: &mut [u8], at: usize, cell: &[u8]) -> usize
    requires { at + 11 ≤ length out.old }
    ensures { Wrote out.old at (tabbed (hex_of (header_bytes cell.now))) result out.new × (result ≤ at + 11) }
{
    let header = [
        byte_at(cell, 0),
        byte_at(cell, 1),
        byte_at(cell, 2),
        byte_at(cell, 3),
        byte_at(cell, 4),
    ];
    let next = text::put(out, at, b"\t");
    text::put_hex(out, next, &header)
}

// Writes a tab and the first payload byte in hex.
fn put_byte(out: &mut [u8], at: usize, cell: &[u8]) -> usize
    requires { at + 3 ≤ length out.old }
    ensures { Wrote out.old at (tabbed (hex_of (byte_at cell.now 5 ∷ []))) result out.new × (result ≤ at + 3) }
{
    let byte = [byte_at(cell, 5)];
    let next = text::put(out, at, b"\t");
    text::put_hex(out, next, &byte)
}

// Writes what a take says.
fn put_taken(out: &mut [u8], at: usize, unit: u8, cell: &[u8]) -> usize
    requires { at + 35 ≤ length out.old }
    ensures { Wrote out.old at (fields (decimal unit ∷ hex_of (header_bytes cell.now) ∷ hex_of (byte_at cell.now 5 ∷ []) ∷ [])) result out.new × (result ≤ at + 35) }
{
    let a = text::put_number(out, at, unit as u64);
    let b = put_header(out, a, cell);
    put_byte(out, b, cell)
}

// Writes a unit and the fate of an arrival there.
fn put_arrived(out: &mut [u8], at: usize, unit: u8, fate: Arrival) -> usize
    requires { at + 31 ≤ length out.old }
    ensures { Wrote out.old at (fields (decimal unit ∷ arrival_word fate ∷ [])) result out.new × (result ≤ at + 31) }
{
    let next = text::put_number(out, at, unit as u64);
    put_arrival(out, next, fate)
}

// Writes a unit and the fate of a heard frame there.
fn put_heard(out: &mut [u8], at: usize, unit: u8, fate: Hearing) -> usize
    requires { at + 29 ≤ length out.old }
    ensures { Wrote out.old at (fields (decimal unit ∷ hearing_word fate ∷ [])) result out.new × (result ≤ at + 29) }
{
    let next = text::put_number(out, at, unit as u64);
    put_hearing(out, next, fate)
}

// Writes that a unit has no cell.
fn put_empty(out: &mut [u8], at: usize, unit: u8) -> usize
    requires { at + 27 ≤ length out.old }
    ensures { Wrote out.old at (fields (decimal unit ∷ w_empty ∷ [])) result out.new × (result ≤ at + 27) }
{
    let next = text::put_number(out, at, unit as u64);
    put_field(out, next, b"empty")
}

// Writes that a cell was handed in at a unit.
fn put_handed(out: &mut [u8], at: usize, unit: u8) -> usize
    requires { at + 24 ≤ length out.old }
    ensures { Wrote out.old at (fields (decimal unit ∷ w_ok ∷ [])) result out.new × (result ≤ at + 24) }
{
    let next = text::put_number(out, at, unit as u64);
    put_field(out, next, b"ok")
}

// Writes that a table is loaded.
fn put_loaded(out: &mut [u8], at: usize, used: u32) -> usize
    requires { at + 24 ≤ length out.old }
    ensures { Wrote out.old at (fields (w_ok ∷ decimal used ∷ [])) result out.new × (result ≤ at + 24) }
{
    let next = put_field(out, at, b"ok");
    text::put_number(out, next, used as u64)
}

// Writes that a table is refused at a line.
fn put_unloaded(out: &mut [u8], at: usize, number: u8, line: u32) -> usize
    requires { at + 50 ≤ length out.old }
    ensures { Wrote out.old at (fields (w_refused ∷ decimal number ∷ decimal line ∷ [])) result out.new × (result ≤ at + 50) }
{
    let next = put_refused(out, at, number);
    text::put_number(out, next, line as u64)
}

// Writes the fields of an answer.
#[tactic(auto, unfolding(crate::specs::Answers::answer_fields))]
pub fn put_answer(out: &mut [u8], at: usize, unit: u8, answer: Answer, cell: &[u8]) -> usize
    requires { at + 84 ≤ length out.old }
    ensures { Wrote out.old at (fields (answer_fields unit answer cell.now)) result out.new × (result ≤ at + 84) }
{
    match answer {
        Answer::Loaded(used) => put_loaded(out, at, used),
        Answer::Unloaded { number, line } => put_unloaded(out, at, number, line),
        Answer::Refused(number) => put_refused(out, at, number),
        Answer::Arrived(fate) => put_arrived(out, at, unit, fate),
        Answer::Framed {
            number,
            sender,
            granted,
            copies,
        } => put_framed(out, at, number, sender, granted, copies),
        Answer::Heard(fate) => put_heard(out, at, unit, fate),
        Answer::Taken => put_taken(out, at, unit, cell),
        Answer::Empty => put_empty(out, at, unit),
        Answer::Handed => put_handed(out, at, unit),
    }
}

// What is said of an event.
#[derive(Clone, Copy)]
pub enum Outcome {
    Answered(Answer),
    Counted(Counters),
}

// The longest line is shorter.
const ROOM: usize = 512;

// Writes a unit and its thirteen counters.
fn put_counters(out: &mut [u8], at: usize, unit: u8, c: Counters) -> usize
    requires { at + 294 ≤ length out.old }
    ensures { Wrote out.old at (number_fields (unit ∷ listed_of c)) result out.new × (result ≤ at + 294) }
{
    let next = text::put_number(out, at, unit as u64);
    text::put_numbers(out, next, &listed(c))
}

// Writes what is said of an event behind its word.
#[tactic(auto, unfolding(crate::specs::Lines::outcome_text))]
fn put_outcome(out: &mut [u8], at: usize, unit: u8, outcome: Option<Outcome>, cell: &[u8]) -> usize
    requires { at + 294 ≤ length out.old }
    ensures { Wrote out.old at (outcome_text unit outcome cell.now) result out.new × (result ≤ at + 294) }
{
    match outcome {
        None => at,
        Some(Outcome::Answered(answer)) => put_answer(out, at, unit, answer, cell),
        Some(Outcome::Counted(c)) => put_counters(out, at, unit, c),
    }
}

// Writes the word of an event, or of what is none.
#[tactic(auto, unfolding(crate::specs::Lines::word_of))]
fn put_word(out: &mut [u8], event: Option<Event>) -> usize
    requires { 6 ≤ length out.old }
    ensures { Wrote out.old 0 (word_of event) result out.new × (result ≤ 6) }
{
    match event {
        Some(Event::Arrive { .. }) => text::put(out, 0, b"arrive"),
        Some(Event::Frame) => text::put(out, 0, b"frame"),
        Some(Event::Take(_)) => text::put(out, 0, b"take"),
        Some(Event::Count(_)) => text::put(out, 0, b"count"),
        None => text::put(out, 0, b"bad"),
    }
}

// The unit that an event names; 0 where it names none.
#[tactic(auto, unfolding(crate::specs::Lines::unit_of))]
fn unit_of(event: Option<Event>) -> u8
    ensures { result ≡ unit_of event }
{
    match event {
        Some(Event::Arrive { unit, .. } | Event::Take(unit) | Event::Count(unit)) => unit,
        Some(Event::Frame) | None => 0,
    }
}

// Writes the line of an event, or of what is none, to the front of out, and says how long it is. Of the event nothing may be said behind its word.
pub fn event_line(
    event: Option<Event>,
    outcome: Option<Outcome>,
    cell: &[u8],
    out: &mut [u8],
) -> usize
    ensures { Wrote out.old 0 (fitting out.old (event_line event outcome cell.now)) result out.new }
{
    if out.len() < ROOM {
        return 0;
    }
    let word = put_word(out, event);
    let next = put_outcome(out, word, unit_of(event), outcome, cell);
    text::put(out, next, b"\n")
}

// Writes the line of what is no event to the front of out, and says how long it is.
pub fn bad_line(out: &mut [u8]) -> usize
    ensures { Wrote out.old 0 (fitting out.old bad_line) result out.new }
{
    if out.len() < ROOM {
        return 0;
    }
    text::put(out, 0, b"bad\n")
}

// Writes the line of a table to the front of out, and says how long it is.
pub fn table_line(answer: Answer, out: &mut [u8]) -> usize
    ensures { Wrote out.old 0 (fitting out.old (table_line answer)) result out.new }
{
    if out.len() < ROOM {
        return 0;
    }
    let word = text::put(out, 0, b"table");
    let next = put_answer(out, word, 0, answer, b"");
    text::put(out, next, b"\n")
}

// A text and a number.
pub fn say(out: &mut [u8], at: usize, text: &[u8], n: u64) -> usize
    requires { at + length text.now + 21 ≤ length out.old }
    ensures { Wrote out.old at (text.now ++ number_field n) result out.new × (result ≤ at + length text.now + 21) }
{
    let next = text::put(out, at, text);
    text::put_number(out, next, n)
}

fn put_frame(out: &mut [u8], at: usize, number: u16, sender: u8, granted: u8, copies: u8) -> usize
    requires { at + 89 ≤ length out.old }
    ensures { Wrote out.old at (frame_text number sender granted copies) result out.new × (result ≤ at + 89) }
{
    let numbered = say(out, at, b"frame", number as u64);
    let sent = put_who(out, numbered, sender);
    let all = put_who(out, sent, granted);
    text::put_number(out, all, copies as u64)
}

// What an event answers, but for its buffer: the word is that of an event that is refused, or of one that took a cell or found none.
#[tactic(auto, unfolding(crate::specs::ConsoleLines::said_text))]
pub fn said(out: &mut [u8], at: usize, word: &[u8], unit: u8, answer: Answer) -> usize
    requires { (length word.now ≤ 20) × (at + 100 ≤ length out.old) }
    ensures { Wrote out.old at (said_text word.now unit answer) result out.new × (result ≤ at + 100) }
{
    match answer {
        Answer::Loaded(used) => say(out, at, b"load\tok", used as u64),
        Answer::Unloaded { number, line } => {
            let next = say(out, at, b"load\trefused", number as u64);
            text::put_number(out, next, line as u64)
        }
        Answer::Refused(number) => {
            let next = text::put(out, at, word);
            say(out, next, b"\trefused", number as u64)
        }
        Answer::Arrived(fate) => {
            let next = say(out, at, b"arrive", unit as u64);
            put_arrival(out, next, fate)
        }
        Answer::Framed {
            number,
            sender,
            granted,
            copies,
        } => put_frame(out, at, number, sender, granted, copies),
        Answer::Heard(fate) => {
            let next = say(out, at, b"hear", unit as u64);
            put_hearing(out, next, fate)
        }
        Answer::Taken => {
            let next = say(out, at, word, unit as u64);
            text::put(out, next, b"\tcell")
        }
        Answer::Empty => {
            let next = say(out, at, word, unit as u64);
            text::put(out, next, b"\tempty")
        }
        Answer::Handed => {
            let next = say(out, at, b"hand", unit as u64);
            text::put(out, next, b"\tok")
        }
    }
}

// A buffer, whole.
pub fn put_bytes(out: &mut [u8], at: usize, bytes: &[u8]) -> usize
    requires { at + 1 + 2 * length bytes.now ≤ length out.old }
    ensures { Wrote out.old at (9 ∷ hex_of bytes.now) result out.new × (result ≤ at + 1 + 2 * length bytes.now) }
{
    let next = text::put(out, at, b"\t");
    text::put_hex(out, next, bytes)
}

// A unit's counters.
pub fn counted(out: &mut [u8], at: usize, unit: u8, c: Counters) -> usize
    requires { at + 299 ≤ length out.old }
    ensures { Wrote out.old at (count_text unit c) result out.new × (result ≤ at + 299) }
{
    let next = say(out, at, b"count", unit as u64);
    text::put_numbers(out, next, &listed(c))
}

// How many bytes there are, and their sum.
pub fn summed(out: &mut [u8], at: usize, text: &[u8], count: u64, sum: u32) -> usize
    requires { at + length text.now + 30 ≤ length out.old }
    ensures { Wrote out.old at (sum_text text.now count sum) result out.new }
{
    let next = say(out, at, text, count);
    let mut bytes = [0u8; 4];
    octets::put_four(&mut bytes, 0, sum);
    put_bytes(out, next, &bytes)
}

// All bytes of the state.
pub fn state(out: &mut [u8], at: usize, bytes: &[u8]) -> usize
    requires { at + 11 + 2 * length bytes.now ≤ length out.old }
    ensures { Wrote out.old at (state_text bytes.now) result out.new }
{
    let next = text::put(out, at, b"show\tstate");
    put_bytes(out, next, bytes)
}

// How many rows there are, and the counters of each.
pub fn rows(out: &mut [u8], at: usize, rows: &[Counters]) -> usize
    requires { (length rows.now ≤ 40) × (at + 10950 ≤ length out.old) }
    ensures { Wrote out.old at (rows_text rows.now) result out.new }
{
    let mut next = say(out, at, b"show\trows", rows.len() as u64);
    for row in rows {
        next = text::put_numbers(out, next, &listed(*row));
    }
    next
}
