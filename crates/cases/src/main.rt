// Document 01's listing and its values on each side of a line, and data sheet 004's worked examples, through `owned`.
#![tactic(auto)]

use answer::{Answer, Arrival, Counters, Hearing};
use arbiter::NOBODY;
use bus::Target;
use card::Card;
use owned::Shelf;
use std::{fmt, io};

// A unit's number, or `-` for nobody.
#[derive(Clone, Copy)]
struct Who(u8);

impl fmt::Display for Who {
    fn fmt<W: fmt::Write>(&self, f: &mut fmt::Formatter<W>) -> fmt::Result {
        if self.0 == NOBODY {
            write!(f, "-")
        } else {
            write!(f, "{}", self.0)
        }
    }
}

fn arrival_word(fate: Arrival) -> &'static str {
    match fate {
        Arrival::Hec => "hec",
        Arrival::Ignored => "ignored",
        Arrival::Misrouted => "misrouted",
        Arrival::Inletfull => "inletfull",
        Arrival::Queued => "queued",
    }
}

fn hearing_word(fate: Hearing) -> &'static str {
    match fate {
        Hearing::Damaged => "damaged",
        Hearing::Other => "other",
        Hearing::Wide => "wide",
        Hearing::Full => "full",
        Hearing::Clp => "clp",
        Hearing::Queued => "queued",
    }
}

// An answer as it is printed.
#[derive(Clone, Copy)]
struct Said(Answer);

impl fmt::Display for Said {
    fn fmt<W: fmt::Write>(&self, f: &mut fmt::Formatter<W>) -> fmt::Result {
        match self.0 {
            Answer::Loaded(used) => write!(f, "table ok {used}"),
            Answer::Unloaded { number, line } => write!(f, "table refused {number} {line}"),
            Answer::Refused(number) => write!(f, "refused {number}"),
            Answer::Arrived(fate) => write!(f, "arrive {}", arrival_word(fate)),
            Answer::Framed {
                number,
                sender,
                granted,
                copies,
            } => write!(
                f,
                "frame {number} {} {} {copies}",
                Who(sender),
                Who(granted)
            ),
            Answer::Heard(fate) => write!(f, "hear {}", hearing_word(fate)),
            Answer::Taken => write!(f, "take"),
            Answer::Empty => write!(f, "take empty"),
            Answer::Handed => write!(f, "hand"),
        }
    }
}

fn say(rt: &impl Print, answer: Answer) -> io::Result<()> {
    println!(rt; "{}", Said(answer))
}

// Prints the answer, and the header, the check and the first payload byte of the cell.
fn take(rt: &impl Print, shelf: &mut Shelf, unit: u8) -> io::Result<()> {
    let mut cell = [238u8; 53];
    let answer = shelf.take(unit, &mut cell);
    println!(rt;
        "{} {} {} {} {} {} {}",
        Said(answer),
        cell[0],
        cell[1],
        cell[2],
        cell[3],
        cell[4],
        cell[5]
    )
}

fn say_counters(rt: &impl Print, c: Counters) -> io::Result<()> {
    let Counters {
        arrived,
        hec,
        ignored,
        misrouted,
        inletfull,
        sent,
        unheard,
        damaged,
        queued,
        full,
        clp,
        wide,
        taken,
    } = c;
    println!(rt;
        "count {arrived} {hec} {ignored} {misrouted} {inletfull} {sent} {unheard} {damaged} {queued} {full} {clp} {wide} {taken}"
    )
}

fn count(rt: &impl Print, shelf: &Shelf, unit: u8) -> io::Result<()> {
    match shelf.count(unit) {
        Ok(c) => say_counters(rt, c),
        Err(number) => println!(rt; "count refused {number}"),
    }
}

// A line cell of this header and check, its payload one byte over and over.
fn cell_of(header: u32, check: u8, byte: u8) -> [u8; 53] {
    let mut cell = [byte; 53];
    octets::put_four(&mut cell, 0, header);
    cell[4] = check;
    cell
}

// A line cell of this header with its right check.
fn sound_cell(header: u32) -> [u8; 53] {
    cell_of(header, header::check(header), 165)
}

// A bus frame to unit 0 of this class and cell header.
fn frame_of(class: u8, header: u32) -> [u8; 57] {
    let payload = [165u8; 48];
    let mut cell = [0u8; 56];
    bus::compose(
        bus::write(Target::Unit(0), class),
        header,
        &payload,
        &mut cell,
    );
    let mut frame = [0u8; 57];
    bus::seal(&cell, &mut frame);
    frame
}

// One step of a script, by its letter.
fn step(rt: &impl Print, shelf: &mut Shelf, letter: u8) -> io::Result<()> {
    match letter {
        // a good cell arrives at unit 0, one with a wrong check; at a unit that is not declared; one byte short
        b'A' => say(rt, shelf.arrive(0, &cell_of(5243408, 43, 165))),
        b'B' => say(rt, shelf.arrive(0, &cell_of(273678864, 79, 165))),
        b'C' => say(rt, shelf.arrive(9, &cell_of(5243408, 43, 165))),
        b'D' => say(rt, shelf.arrive(0, &[0; 52])),
        // a frame
        b'F' => say(rt, shelf.frame(&mut [238; 57])),
        // unit 0 hears a cell of each class with CLP 0, and with CLP 1
        b'0' => say(rt, shelf.hear(0, &frame_of(0, 16))),
        b'1' => say(rt, shelf.hear(0, &frame_of(1, 16))),
        b'2' => say(rt, shelf.hear(0, &frame_of(2, 16))),
        b'3' => say(rt, shelf.hear(0, &frame_of(3, 16))),
        b'4' => say(rt, shelf.hear(0, &frame_of(0, 17))),
        b'5' => say(rt, shelf.hear(0, &frame_of(1, 17))),
        b'6' => say(rt, shelf.hear(0, &frame_of(2, 17))),
        b'7' => say(rt, shelf.hear(0, &frame_of(3, 17))),
        // at an NNI, by VPI: to a unit that nobody declared, to all, to a UNI with VPI 256, dropped, without a record; VPI 0 with VCI 0
        b'a' => say(rt, shelf.arrive(0, &sound_cell(1048592))),
        b'b' => say(rt, shelf.arrive(0, &sound_cell(2097168))),
        b'c' => say(rt, shelf.arrive(0, &sound_cell(4194320))),
        b'd' => say(rt, shelf.arrive(0, &sound_cell(5242896))),
        b'e' => say(rt, shelf.arrive(0, &sound_cell(6291472))),
        b'f' => say(rt, shelf.arrive(0, &sound_cell(0))),
        // a frame of bad parity, one for another unit, 57 zero bytes
        b'z' => say(rt, shelf.hear(0, &[1; 57])),
        b'o' => say(rt, shelf.hear(3, &frame_of(1, 16))),
        b'Z' => say(rt, shelf.hear(0, &[0; 57])),
        // a cell is taken at units 3 and 0
        b'S' => take(rt, shelf, 3),
        b'T' => take(rt, shelf, 0),
        _ => Ok(()),
    }
}

// Loads a table, goes through a script, and counts units 0, 3 and 9.
fn run(rt: &impl Print, text: &[u8], script: &[u8]) -> io::Result<()> {
    // no table was loaded on it: its bytes are anything
    let mut shelf = Shelf {
        card: Card::Wide,
        state: &mut [7; 2048],
        memory: &mut [7; 16384],
        store: &mut [7; 16384],
        rows: [Counters::zero(); 40],
        lent: 40,
    };
    say(rt, shelf.load(text))?;
    for letter in script {
        step(rt, &mut shelf, *letter)?;
    }
    count(rt, &shelf, 0)?;
    count(rt, &shelf, 3)?;
    count(rt, &shelf, 9)
}

fn main(rt: HostRuntime) -> io::Result<()> {
    // 01's listing; then the inlet's fourth and fifth cell, a unit that is not declared, a cell of 52 bytes
    run(
        &rt,
        b"bus\t16\nunit\t0\tuni\t5\t2\tone\t0\t0\t100\t0\nunit\t3\tuni\t0\t1\tfour\t40\t30\t20\t1\npage\t0\t5\t33\nvc\t0\t5\t33\tu3\t2\t9\t40\n",
        b"ABFFSSAAAAACD",
    )?;
    // mode one with limit 123: cells 123 and 124 with CLP 0
    run(
        &rt,
        b"bus\t16\nunit\t0\tuni\t0\t1\tone\t0\t0\t123\t0\n",
        b"1111111111111111111111111111111111111111111111111111111111111111111111111111111111111111111111111111111111111111111111111111",
    )?;
    // mode one with limit 2: CLP 1 just below it and at it
    run(
        &rt,
        b"bus\t16\nunit\t0\tuni\t0\t1\tone\t0\t0\t2\t0\n",
        b"666",
    )?;
    // mode four with CBR length 3 and limit 2, VBR limit 2: CLP 1 in each queue, then CLP 0
    run(
        &rt,
        b"bus\t16\nunit\t0\tuni\t0\t1\tfour\t3\t2\t2\t0\n",
        b"444555116662777777777777777777777777777777777",
    )?;
    // sent and unheard; a broadcast that its sender hears too; wide at a UNI; ignored, misrouted, ignored; damaged, other, 57 zero bytes
    run(
        &rt,
        b"bus\t16\nunit\t0\tnni\t300\t1\tone\t0\t0\t10\t0\nunit\t3\tuni\t0\t1\tone\t0\t0\t10\t0\nvp\t0\t1\tu9\t1\t0\nvp\t0\t2\tb\t1\t7\nvp\t0\t4\tu3\t1\t256\ndrop\t0\t5\n",
        b"aFFbFFcFFdefzoZ",
    )?;
    // data sheet 004, figures 15 and 16
    run(
        &rt,
        b"bus\t16\nunit\t0\tuni\t0\t1\tone\t0\t0\t2\t1\n",
        b"222TTT",
    )?;
    run(
        &rt,
        b"bus\t16\nunit\t0\tuni\t0\t1\tfour\t40\t3\t2\t1\n",
        b"11122TTTTT",
    )
}
