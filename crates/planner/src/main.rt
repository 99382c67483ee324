// The planner's program: a table on standard input, `narrow`, `wide` or `both` as its argument. It prints what comes of the table on each card, and
// then its verdict; where it cannot read or write, it ends without one.
#![tactic(auto)]

ghost use Rattle.std.specs.Prelude.{◌≤◌, length, IfSome};

use card::Card;
use std::env::Env;
use std::io::Read;
use table::Refusal;

// Which cards are asked for.
#[derive(Clone, Copy)]
enum Cards {
    Narrow,
    Wide,
    Both,
}

// What came of a table. A function that prints gives none where what it said is lost.
#[derive(Clone, Copy)]
enum Said {
    Good,
    Refused,
}

// Prints a line, which says this.
fn say(rt: &(impl Print + Eprint + Alloc), line: &[u8], said: Said) -> Option<Said> {
    streams::put(rt, line).then_some(said)
}

fn say_ok(rt: &(impl Print + Eprint + Alloc), card: Card, used: u32, units: u8) -> Option<Said> {
    let mut line = [0u8; 256];
    let n = report::ok_line(card, used, units, &mut line);
    say(rt, &line[..n], Said::Good)
}

fn say_refused(
    rt: &(impl Print + Eprint + Alloc),
    card: Card,
    number: u8,
    at: u32,
    text: &[u8],
) -> Option<Said> {
    let mut line = [0u8; 256];
    let n = report::refused_line(card, number, at, text, &mut line);
    say(rt, &line[..n], Said::Refused)
}

// Loads at full size: 32 units, their store and 262,144 bytes of memory.
fn load(
    card: Card,
    text: &[u8],
    memory: &mut [u8; 262144],
    state: &mut [u8; 2048],
) -> Result<u32, Refusal> {
    table::load_text(card, text, memory, state, 262144, 32)
}

// Whether the wide card takes a table.
fn wide_takes(text: &[u8], memory: &mut [u8; 262144]) -> bool {
    let mut state = [0u8; 2048];
    load(Card::Wide, text, memory, &mut state).is_ok()
}

// One line that asks for too much.
fn say_wide(
    rt: &(impl Print + Eprint + Alloc),
    number: usize,
    bytes: &[u8],
    ask: card::Ask,
) -> Option<Said> {
    let mut line = [0u8; 256];
    let n = report::wide_line(number as u64, bytes, ask, &mut line);
    say(rt, &line[..n], Said::Refused)
}

// Every line that asks for too much, or the first alone.
fn list(rt: &(impl Print + Eprint + Alloc), text: &[u8], every: bool) -> Option<Said> {
    let mut from: usize = 0;
    let mut lines: usize = 0;
    while let Some(next) = toowide::next_wide(text, from) {
        lines = lines + next.before + 1;
        say_wide(rt, lines, &text[next.start..next.end], next.ask)?;
        if !every {
            break;
        }
        from = next.end + 1;
    }
    Some(Said::Refused)
}

// What comes of a table on a card; what it asks of a narrow card is listed, whole if the wide one takes it.
fn on_card(
    rt: &(impl Print + Eprint + Alloc),
    card: Card,
    text: &[u8],
    memory: &mut [u8; 262144],
) -> Option<Said> {
    let mut state = [0u8; 2048];
    match load(card, text, memory, &mut state) {
        Ok(used) => say_ok(rt, card, used, state[805]),
        Err(Refusal { number, line }) => {
            if number == 5 {
                return list(rt, text, wide_takes(text, memory));
            }
            say_refused(rt, card, number, line, text)
        }
    }
}

// Both cards: good if both take it.
fn on_both(
    rt: &(impl Print + Eprint + Alloc),
    text: &[u8],
    memory: &mut [u8; 262144],
) -> Option<Said> {
    let narrow = on_card(rt, Card::Narrow, text, memory)?;
    let wide = on_card(rt, Card::Wide, text, memory)?;
    match narrow {
        Said::Good => Some(wide),
        Said::Refused => Some(Said::Refused),
    }
}

// The verdict is the last line; where what was said is lost there is none, and standard error has said so.
fn verdict(rt: &impl Print, said: Said) {
    let line = match said {
        Said::Good => "verdict good\n",
        Said::Refused => "verdict refused\n",
    };
    let _ = rt.print(line);
}

// The cards that the argument names.
fn asked(rt: &impl Env) -> Option<Cards> {
    let mut word = [0u8; 8];
    let n = streams::argument(rt, &mut word);
    match &word[..n] {
        b"narrow" => Some(Cards::Narrow),
        b"wide" => Some(Cards::Wide),
        b"both" => Some(Cards::Both),
        _ => None,
    }
}

// How far an input is read on that is too long to be a table: it may have no end.
const FURTHER: usize = 16777216;

// Reads on, so that who writes the input is not stopped.
fn read_on(rt: &(impl Eprint + Alloc), from: &mut impl Read) -> Option<()> {
    let mut left = FURTHER;
    while 0 < left {
        let mut part = [0u8; 65536];
        let n = streams::get(rt, from, "standard input", &mut part)?;
        if n == 0 {
            break;
        }
        left = left.saturating_sub(n);
    }
    Some(())
}

// Reads the input and keeps what there is room for, which is more than a table may have; how much is kept, if nothing failed.
fn read(rt: &(impl Eprint + Alloc), from: &mut impl Read, text: &mut [u8]) -> Option<usize>
    ensures { IfSome result (λ kept. kept ≤ length text.new) }
{
    let kept = streams::get_all(rt, from, "standard input", text)?;
    if kept == text.len() {
        read_on(rt, from)?;
    }
    Some(kept)
}

// What comes of a table on the cards that are asked for.
fn check(rt: &(impl Print + Eprint + Alloc), cards: Cards, text: &[u8]) {
    let mut memory = [0u8; 262144];
    let said = match cards {
        Cards::Narrow => on_card(rt, Card::Narrow, text, &mut memory),
        Cards::Wide => on_card(rt, Card::Wide, text, &mut memory),
        Cards::Both => on_both(rt, text, &mut memory),
    };
    if let Some(said) = said {
        verdict(rt, said);
    }
}

fn main(rt: HostRuntime) {
    // one byte more than a text may have tells a longer one
    let mut text = [0u8; 65537];
    let mut from = rt.stdin();
    let Some(n) = read(&rt, &mut from, &mut text) else {
        return;
    };
    match asked(&rt) {
        Some(cards) => check(&rt, cards, &text[..n]),
        None => {
            let _ = rt.eprint("usage: planner narrow|wide|both\n");
        }
    }
}
