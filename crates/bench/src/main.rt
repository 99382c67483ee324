// The bench: document 01's program. It reads table.txt, then events on standard input, on the wide card.
#![tactic(auto)]

use answer::{Answer, Counters};
use card::Card;
use event::Event;
use owned::Shelf;
use replies::Outcome;
use std::fs;
use std::io::Read;
use std::rt::Files;

// A line cell of this header and check, its payload one byte 48 times.
fn cell_of(header: u32, check: u8, byte: u8) -> [u8; 53] {
    let mut cell = [byte; 53];
    octets::put_four(&mut cell, 0, header);
    cell[4] = check;
    cell
}

// Prints a line: the first n bytes of out.
fn print(rt: &impl Print, out: &[u8; 512], n: usize) {
    if n <= 512 {
        let _ = rt.write_all(&out[..n]);
    }
}

// Prints the line of an event.
fn say(rt: &impl Print, event: Event, outcome: Outcome, cell: &[u8]) {
    let mut out = [0u8; 512];
    let n = replies::event_line(Some(event), Some(outcome), cell, &mut out);
    print(rt, &out, n);
}

// Prints the line of what is no event.
fn say_bad(rt: &impl Print) {
    let mut out = [0u8; 512];
    let n = replies::bad_line(&mut out);
    print(rt, &out, n);
}

// Prints the line of the table.
fn say_table(rt: &impl Print, answer: Answer) {
    let mut out = [0u8; 512];
    let n = replies::table_line(answer, &mut out);
    print(rt, &out, n);
}

// The counters of a unit, or the refusal.
fn count(shelf: &Shelf, unit: u8) -> Outcome {
    match shelf.count(unit) {
        Ok(c) => Outcome::Counted(c),
        Err(number) => Outcome::Answered(Answer::Refused(number)),
    }
}

// One event is done, and then told.
fn happen(rt: &impl Print, shelf: &mut Shelf, event: Event) {
    match event {
        Event::Arrive {
            unit,
            header,
            check,
            byte,
        } => {
            let cell = cell_of(header, check, byte);
            let answer = shelf.arrive(unit, &cell);
            say(rt, event, Outcome::Answered(answer), &cell);
        }
        Event::Frame => {
            let answer = shelf.frame(&mut [0; 57]);
            say(rt, event, Outcome::Answered(answer), b"");
        }
        Event::Take(unit) => {
            let mut cell = [0u8; 53];
            let answer = shelf.take(unit, &mut cell);
            say(rt, event, Outcome::Answered(answer), &cell);
        }
        Event::Count(unit) => say(rt, event, count(shelf, unit), b""),
    }
}

// A piece of a line is held behind the n bytes that are; none is the length of a line that is too long to be an event.
fn keep(line: &mut [u8; 65536], held: Option<usize>, piece: &[u8]) -> Option<usize> {
    let n = held?;
    if line.len() < n || line.len() - n < piece.len() {
        return None;
    }
    octets::copy(piece, line, n);
    Some(n + piece.len())
}

// The event that a whole line says.
fn event_in(line: &[u8; 65536], held: Option<usize>) -> Option<Event> {
    event::read(line.get(..held?)?)
}

// What a whole line says is done.
fn obey(rt: &impl Print, shelf: &mut Shelf, line: &[u8; 65536], held: Option<usize>) {
    match event_in(line, held) {
        Some(event) => happen(rt, shelf, event),
        None => say_bad(rt),
    }
}

// All lines that a part of the input ends; how much is held of the next.
fn feed(
    rt: &impl Print,
    shelf: &mut Shelf,
    line: &mut [u8; 65536],
    held: Option<usize>,
    part: &[u8],
) -> Option<usize> {
    let mut so_far = held;
    let mut from: usize = 0;
    while from < part.len() {
        let end = text::field_end(part, from, b'\n');
        so_far = keep(line, so_far, &part[from..end]);
        if part.len() <= end {
            return so_far;
        }
        obey(rt, shelf, line, so_far);
        so_far = Some(0);
        from = end + 1;
    }
    so_far
}

// Reads to the end of the input: nothing says that there is one, so reads are counted, to a number that no run comes to.
fn feed_all(
    rt: &(impl Print + Eprint + Alloc),
    from: &mut impl Read,
    shelf: &mut Shelf,
    line: &mut [u8; 65536],
) -> Option<usize> {
    let mut held = Some(0);
    let mut part = [0u8; 65536];
    for _ in 0..u64::MAX {
        let n = streams::get(rt, from, "the events", &mut part).unwrap_or(0);
        if n == 0 {
            return held;
        }
        held = feed(rt, shelf, line, held, &part[..n]);
    }
    held
}

// All events; a last line without its newline is read too.
fn run(rt: &(impl Print + Eprint + Alloc), from: &mut impl Read, shelf: &mut Shelf) {
    let mut line = [0u8; 65536];
    let held = feed_all(rt, from, shelf, &mut line);
    if held != Some(0) {
        obey(rt, shelf, &line, held);
    }
}

// Reads the table; a missing or unreadable file counts as the empty text.
fn read_table(rt: &(impl Eprint + Alloc + Files), text: &mut [u8]) -> usize {
    let path = "table.txt";
    match fs::open(rt, path) {
        Ok(mut file) => streams::get_all(rt, &mut file, path, text).unwrap_or(0),
        Err(why) => {
            streams::fail(rt, path, why);
            0
        }
    }
}

// Loads the table and, if it is good, goes through the events.
fn bench(rt: &(impl Print + Eprint + Alloc), from: &mut impl Read, text: &[u8]) {
    let mut shelf = Shelf {
        card: Card::Wide,
        state: &mut [0; 2048],
        memory: &mut [0; 16384],
        store: &mut [0; 32768],
        rows: [Counters::zero(); 40],
        lent: 40,
    };
    let answer = shelf.load(text);
    say_table(rt, answer);
    if let Answer::Loaded(_) = answer {
        run(rt, from, &mut shelf);
    }
}

fn main(rt: HostRuntime) {
    // one byte more than a table may have tells a longer one
    let mut text = [0u8; 8193];
    let n = read_table(&rt, &mut text);
    if 8192 < n {
        say_table(&rt, Answer::Unloaded { number: 1, line: 0 });
        return;
    }
    bench(&rt, &mut rt.stdin(), &text[..n]);
}
