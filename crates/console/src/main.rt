// The console: one command a line on standard input, one answer a line on standard output (docs/CONSOLE.md).
// The state, the memory and the store are lent to every command; its bytes in hex are read before it is done, and its answer is written after that.
#![tactic(auto)]

ghost use Rattle.std.specs.Prelude.{◌≡◌, ◌+◌, ◌≤◌, ◌<◌, length};

use answer::{Answer, Counters};
use card::Card;
use command::{Bank, Command};
use owned::Shelf;
use std::env::Env;
use std::io::Read;
use text::Slip;

const NEWLINE: u8 = b'\n';

// The most that a line has, and where there is no room left for the longest answer.
const MOST: usize = 150000;

const FULL: usize = 180000;

// The bytes from a place to another, as far as there are any.
fn part_of(b: &[u8], from: usize, to: usize) -> &[u8]
    ensures { length result.now ≤ to }
{
    let e = to.min(b.len());
    &b[from.min(e)..e]
}

// The first n bytes of b, as far as there are any, each with this value; how many they are.
fn fill(b: &mut [u8], n: usize, byte: u8) -> usize {
    let e = n.min(b.len());
    b[..e].fill(byte);
    e
}

// Writes bytes from a place on, if they all lie inside what is lent.
fn poke(b: &mut [u8], lent: usize, to: usize, bytes: &[u8]) -> bool {
    let e = lent.min(b.len());
    if e < to || e - to < bytes.len() {
        return false;
    }
    octets::copy(bytes, b, to);
    true
}

// A newline where there is room.
fn ended(out: &mut [u8], at: usize) -> usize {
    if at < out.len() {
        out[at] = NEWLINE;
        return at + 1;
    }
    at
}

// The bytes that a bank has, of which the first so many are lent.
#[derive(Drop)]
struct Lent {
    bytes: [u8; 300000],
    count: usize,
}

impl Lent {
    fn lend(&mut self, n: usize, byte: u8) {
        self.count = fill(&mut self.bytes, n, byte);
    }

    fn poke(&mut self, to: usize, bytes: &[u8]) -> bool {
        let lent = self.count;
        poke(&mut self.bytes, lent, to, bytes)
    }
}

// What commands choose, lend and poke: the card, the state, the memory, the store, the rows and how many of them are lent.
#[derive(Drop)]
struct Lab {
    card: Card,
    state: [u8; 2048],
    memory: Lent,
    store: Lent,
    rows: [Counters; 40],
    lent: usize,
}

impl Lab {
    fn lend_rows(&mut self, n: usize, value: u32) {
        let row = Counters {
            arrived: value,
            hec: value,
            ignored: value,
            misrouted: value,
            inletfull: value,
            sent: value,
            unheard: value,
            damaged: value,
            queued: value,
            full: value,
            clp: value,
            wide: value,
            taken: value,
        };
        self.rows = [row; 40];
        self.lent = n;
    }

    fn bank(&mut self, bank: Bank) -> &mut Lent {
        match bank {
            Bank::Memory => &mut self.memory,
            Bank::Store => &mut self.store,
        }
    }

    // What a command sets up: what is chosen, lent or poked; whether it may.
    fn set_up(&mut self, bytes: &[u8], command: Command) -> bool {
        match command {
            Command::Card(card) => self.card = card,
            Command::Lend { bank, length, byte } => self.bank(bank).lend(length as usize, byte),
            Command::LendRows { count, value } => self.lend_rows(usize::from(count), value),
            Command::Poke { bank, at, .. } => return self.bank(bank).poke(at as usize, bytes),
            Command::PokeState { at, .. } => return poke(&mut self.state, 2048, at as usize, bytes),
            _ => {}
        }
        true
    }
}

// How many bytes of its buffer a command asks for.
fn wanted(command: Command) -> usize
    ensures { result ≤ 1000 }
{
    match command {
        Command::Frame(length) | Command::Take { length, .. } | Command::Collect { length, .. } =>
            usize::from(length).min(1000),
        _ => 0,
    }
}

// What an event does, and its answer; all other commands do nothing.
fn act(shelf: &mut Shelf, text: &[u8], buffer: &mut [u8], command: Command) -> Answer {
    match command {
        Command::Load(_) => shelf.load(text),
        Command::Arrive { unit, .. } => shelf.arrive(unit, text),
        Command::Hear { unit, .. } => shelf.hear(unit, text),
        Command::Frame(_) => shelf.frame(buffer),
        Command::Take { unit, .. } => shelf.take(unit, buffer),
        Command::Hand { unit, .. } => shelf.hand(unit, text),
        Command::Collect { unit, .. } => shelf.collect(unit, buffer),
        _ => Answer::Empty,
    }
}

// The word that a line starts with, which its answer starts with too.
fn word_of(line: &[u8]) -> &[u8]
    ensures { length result.now ≤ 20 }
{
    let word = text::field(line, 1);
    &word[..word.len().min(20)]
}

// The answers that are not written end at `at`; a read or a write failed if `lost`.
#[derive(Drop)]
struct Output {
    bytes: [u8; 200000],
    at: usize,
    lost: bool,
}

impl Output {
    // The answers so far are written out, or it is told, once, that they are lost.
    fn write(&mut self, rt: &(impl Print + Eprint + Alloc))
        ensures { self.new.at ≡ 0 }
    {
        let end = self.at;
        self.at = 0;
        if !self.lost {
            let kept = streams::put(rt, part_of(&self.bytes, 0, end));
            self.lost = !kept;
        }
    }

    // An answer has room to start: what there is is written out if the room is short.
    fn clear(&mut self, rt: &(impl Print + Eprint + Alloc))
        ensures { self.new.at ≤ 180000 }
    {
        if FULL < self.at {
            self.write(rt);
        }
    }

    // The line ends here, where there is room.
    fn end(&mut self, at: usize) {
        self.at = ended(&mut self.bytes, at);
    }

    // The answer of an event but for its buffer.
    fn event(&mut self, line: &[u8], unit: u8, answer: Answer) -> usize
        requires { self.old.at ≤ 180000 }
        ensures { result ≤ self.old.at + 100 }
    {
        let at = self.at;
        replies::said(&mut self.bytes, at, word_of(line), unit, answer)
    }

    // The answer of an event with its buffer.
    fn buffer(&mut self, line: &[u8], unit: u8, answer: Answer, buffer: &[u8]) -> usize
        requires { (self.old.at ≤ 180000) × (length buffer.now ≤ 1000) }
    {
        let end = self.event(line, unit, answer);
        replies::put_bytes(&mut self.bytes, end, buffer)
    }

    // A command that is no event is done, or bad.
    fn done(&mut self, line: &[u8], good: bool) -> usize
        requires { self.old.at ≤ 180000 }
    {
        let at = self.at;
        if good {
            let end = text::put(&mut self.bytes, at, word_of(line));
            return text::put(&mut self.bytes, end, b"\tok");
        }
        text::put(&mut self.bytes, at, b"bad")
    }

    // What a command that did something answers.
    fn after(
        &mut self,
        line: &[u8],
        command: Command,
        answer: Answer,
        buffer: &[u8],
        good: bool,
    ) -> usize
        requires { (self.old.at ≤ 180000) × (length buffer.now ≤ 1000) }
    {
        match command {
            Command::Load(_) => self.event(line, 0, answer),
            Command::Arrive { unit, .. }
            | Command::Hear { unit, .. }
            | Command::Hand { unit, .. } => self.event(line, unit, answer),
            Command::Frame(_) => self.buffer(line, 0, answer, buffer),
            Command::Take { unit, .. } | Command::Collect { unit, .. } => self.buffer(
                line, unit, answer, buffer,
            ),
            _ => self.done(line, good),
        }
    }

    fn count(&mut self, line: &[u8], unit: u8, counted: Result<Counters, u8>) -> usize
        requires { self.old.at ≤ 180000 }
    {
        let at = self.at;
        match counted {
            Ok(c) => replies::counted(&mut self.bytes, at, unit, c),
            Err(number) => self.event(line, unit, Answer::Refused(number)),
        }
    }

    // How many bytes are lent, and their sum, behind the words that asked for it.
    fn sum(&mut self, line: &[u8], lent: &[u8]) -> usize
        requires { self.old.at ≤ 180000 }
    {
        let at = self.at;
        let words = &line[..line.len().min(20)];
        replies::summed(
            &mut self.bytes,
            at,
            words,
            lent.len() as u64,
            text::fnv(lent),
        )
    }

    // What a command that shows something answers, and any other.
    fn tell(
        &mut self,
        shelf: &Shelf,
        line: &[u8],
        command: Command,
        answer: Answer,
        buffer: &[u8],
        good: bool,
    ) -> usize
        requires { (self.old.at ≤ 180000) × (length buffer.now ≤ 1000) }
    {
        let at = self.at;
        match command {
            Command::Count(unit) => self.count(line, unit, shelf.count(unit)),
            Command::Show(Bank::Memory) => self.sum(line, shelf.memory),
            Command::Show(Bank::Store) => self.sum(line, shelf.store),
            Command::ShowRows => replies::rows(
                &mut self.bytes,
                at,
                &shelf.rows[..shelf.lent.min(40)],
            ),
            Command::ShowState => replies::state(&mut self.bytes, at, shelf.state),
            Command::ShowUnit(unit) => named::unit(&mut self.bytes, at, shelf.state, unit),
            _ => self.after(line, command, answer, buffer, good),
        }
    }

    // Words for a person, on standard error; the answers so far are written first, so that both are read in order.
    fn tell_person(&mut self, rt: &(impl Print + Eprint + Alloc), words: &str) {
        self.write(rt);
        let _ = rt.eprint(words);
    }
}

// A command is done, and then answered.
fn obey(lab: &mut Lab, bytes: &[u8], line: &[u8], command: Command, out: &mut Output)
    requires { out.old.at ≤ 180000 }
{
    let good = lab.set_up(bytes, command);
    let Lab {
        card,
        rows,
        lent,
        ..
    } = *lab;
    let m = lab.memory.count.min(300000);
    let s = lab.store.count.min(300000);
    let memory = &mut lab.memory.bytes[..];
    let store = &mut lab.store.bytes[..];
    let mut shelf = Shelf {
        card,
        state: &mut lab.state,
        memory: &mut memory[..m],
        store: &mut store[..s],
        rows,
        lent,
    };
    let mut buffer = [238u8; 1000];
    let n = wanted(command);
    let answer = act(&mut shelf, bytes, &mut buffer[..n], command);
    let end = out.tell(&shelf, line, command, answer, &buffer[..n], good);
    out.end(end);
    // a field that is an array takes no other field's value but by a variable
    let after = shelf.rows;
    lab.rows = after;
}

// What was read and is not answered: its first line stands from `from`, or from the front where its start was too long to be kept, up to `to`, all of it up to `end`; more may come if `open`.
#[derive(Drop)]
struct Input {
    bytes: [u8; 400000],
    from: Option<usize>,
    to: usize,
    end: usize,
    open: bool,
}

impl Input {
    fn start(&self) -> usize {
        self.from.unwrap_or(0)
    }

    // Whether nothing is left: no more comes, and the last line is answered.
    fn is_over(&self) -> bool {
        !self.open && self.end <= self.start()
    }

    // Where the first line ends; at the end of all if no newline has come.
    fn line_end(&self) -> usize {
        let all = part_of(&self.bytes, 0, self.end);
        text::field_end(all, self.start().min(all.len()), NEWLINE)
    }

    // The start of a line comes to the front, unless it is too long already; how many bytes are kept.
    fn keep(&mut self) -> usize {
        let e = self.end.min(400000);
        let f = self.start().min(e);
        if MOST < e - f {
            return 0;
        }
        self.bytes.copy_within(f..e, 0);
        e - f
    }

    // More was read behind what was kept, up to `end`; at the end of the input a last line without a newline gets one.
    fn refill(&mut self, kept: usize, end: usize) {
        if kept == 0 && self.start() < self.end {
            self.from = None;
        } else if self.from.is_some() {
            self.from = Some(0);
        }
        self.end = end;
        if end == kept {
            self.open = false;
            if self.from.is_none() || 0 < kept {
                self.end = ended(&mut self.bytes, kept);
            }
        }
        self.to = self.end;
    }

    // Reads into what is free behind the kept bytes.
    fn read(&mut self, rt: &(impl Eprint + Alloc), source: &mut impl Read) -> bool {
        let kept = self.keep().min(400000);
        let all = &mut self.bytes[..];
        let Some(got) = streams::get(rt, source, "standard input", &mut all[kept..]) else {
            return false;
        };
        self.refill(kept, kept + got);
        true
    }

    // The next line; where no whole one is left, the answers are written and more is read.
    fn next(
        &mut self,
        rt: &(impl Print + Eprint + Alloc),
        source: &mut impl Read,
        out: &mut Output,
    ) {
        self.to = self.line_end();
        if self.to < self.end {
            return;
        }
        out.write(rt);
        if !out.lost {
            let read = self.read(rt, source);
            out.lost = !read;
        }
    }
}

// The bytes that the last field of a line says in hex, to the front of text; how many there are. No command has 256 fields.
fn unhexed(line: &[u8], text: &mut [u8; 75000]) -> usize {
    let hex = text::field(line, (text::count(line) % 256) as u8);
    if hex.len() / 2 <= 75000 && text::is_hex(hex) {
        text::unhex(hex, text, 0);
        return hex.len() / 2;
    }
    0
}

// What a person may have got wrong in a line that is bad.
fn hint(rt: &(impl Print + Eprint + Alloc), out: &mut Output, line: &[u8]) {
    let words = match text::slip_in(line) {
        Some(Slip::Blanks) => "hint: a blank stands in this line; fields are parted by one tab\n",
        Some(Slip::Return) =>
            "hint: this line ends in a carriage return; a line ends in a newline alone\n",
        Some(Slip::Both) =>
            "hint: a blank stands in this line, and a carriage return ends it; fields are parted by one tab, lines by a newline\n",
        None => return,
    };
    out.tell_person(rt, words);
}

// After its answer `help` lists the commands for a person.
fn list(rt: &(impl Print + Eprint + Alloc), out: &mut Output, command: Command) {
    if let Command::Help = command {
        out.tell_person(
            rt,
            "Commands, one a line; fields are parted by one tab (here a blank), a line ends in a newline alone:\n\
              card narrow, card wide\n\
              lend memory LENGTH BYTE, lend store LENGTH BYTE, lend rows COUNT VALUE\n\
              load HEX\n\
              arrive UNIT HEX\n\
              hear UNIT HEX\n\
              frame LENGTH\n\
              take UNIT LENGTH\n\
              hand UNIT HEX\n\
              collect UNIT LENGTH\n\
              count UNIT\n\
              poke memory AT HEX, poke store AT HEX, poke state AT HEX\n\
              help\n\
              show memory, show store, show rows, show state, show unit UNIT\n\
              docs/CONSOLE.md has what each does and answers; docs/FORMATS.md has tables, fates and refusals.\n",
        );
    }
}

// What is no command is bad, and so is a line that was too long.
fn say_bad(rt: &(impl Print + Eprint + Alloc), line: &[u8], out: &mut Output)
    requires { out.old.at ≤ 180000 }
{
    let at = out.at;
    let end = text::put(&mut out.bytes, at, b"bad");
    out.end(end);
    hint(rt, out, line);
}

// Answers the next line, if there is a whole one; one that was too long to be kept says no command.
fn turn(
    rt: &(impl Print + Eprint + Alloc),
    lab: &mut Lab,
    text: &mut [u8; 75000],
    input: &mut Input,
    out: &mut Output,
) {
    if input.end <= input.to {
        return;
    }
    let from = input.from;
    let end = input.to;
    input.from = Some(end + 1);
    let line = part_of(&input.bytes, from.unwrap_or(0), end);
    let n = unhexed(line, text);
    out.clear(rt);
    match from.and_then(|_| command::read(line)) {
        Some(command) => {
            obey(lab, part_of(text, 0, n), line, command, out);
            list(rt, out, command);
        }
        None => say_bad(rt, line, out),
    }
}

// Where it is asked to, the program says on descriptor 3 that nothing was lost. `std` gives no descriptor by its number, and `io` writes to one.
fn say_kept(rt: &impl Env) {
    let mut word = [0u8; 8];
    let n = streams::argument(rt, &mut word);
    if text::is(&word[..n], b"verdict") {
        io::write_all(3, b"good\n");
    }
}

// Reads to the end of the input: nothing says that there is one, so turns are counted, to a number that no run comes to.
fn run(
    rt: &(impl Print + Eprint + Alloc + Env),
    source: &mut impl Read,
    lab: &mut Lab,
    input: &mut Input,
    out: &mut Output,
) {
    let mut text = [0; 75000];
    for _ in 0..u64::MAX {
        input.next(rt, source, out);
        turn(rt, lab, &mut text, input, out);
        if out.lost || input.is_over() {
            break;
        }
    }
    out.write(rt);
    if !out.lost {
        say_kept(rt);
    }
}

// Nothing is lent and nothing is read yet. The state starts as a fresh 16 bus.
fn main(rt: HostRuntime) {
    let mut lab = Lab {
        card: Card::Wide,
        state: [0; 2048],
        memory: Lent {
            bytes: [0; 300000],
            count: 0,
        },
        store: Lent {
            bytes: [0; 300000],
            count: 0,
        },
        rows: [Counters::zero(); 40],
        lent: 0,
    };
    state::fresh(&mut lab.state, 16);
    let mut input = Input {
        bytes: [0; 400000],
        from: Some(0),
        to: 0,
        end: 0,
        open: true,
    };
    let mut out = Output {
        bytes: [0; 200000],
        at: 0,
        lost: false,
    };
    run(&rt, &mut rt.stdin(), &mut lab, &mut input, &mut out);
}
