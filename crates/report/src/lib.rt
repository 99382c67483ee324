// What the planner's tool says of a table on a card. Each function writes from a place on and says where it ends; the last three write a whole line.
#![tactic(auto)]

ghost use Rattle.std.specs.Prelude.{◌≡◌, ◌+◌, ◌≤◌, length};
ghost use Rattle.text.specs.Writing.{Wrote};
ghost use Rattle.report.specs.Messages.{card_word, units_word, ok_line, shown_byte, cut_mark, shown as shown_of, showing, line_in, place, head, ask_words, wide_line, slip_words, form_words, why, shown_in, refused_line};

use card::{Ask, Card};
use text::Slip;

// How much of a line is shown.
const SHOWN: usize = 80;

#[tactic(auto, unfolding(crate::specs::Messages::card_word))]
fn put_card(out: &mut [u8], at: usize, card: Card) -> usize
    requires { at + 6 ≤ length out.old }
    ensures { Wrote out.old at (card_word card) result out.new × (result ≤ at + 6) }
{
    match card {
        Card::Narrow => text::put(out, at, b"narrow"),
        Card::Wide => text::put(out, at, b"wide"),
    }
}

#[tactic(auto, unfolding(crate::specs::Messages::units_word))]
fn put_units(out: &mut [u8], at: usize, units: u8) -> usize
    requires { at + 6 ≤ length out.old }
    ensures { Wrote out.old at (units_word units) result out.new × (result ≤ at + 6) }
{
    if units == 1 {
        return text::put(out, at, b" unit");
    }
    text::put(out, at, b" units")
}

// A byte as it is shown.
#[tactic(auto, unfolding(crate::specs::Messages::shown_byte))]
fn shown_byte(b: u8) -> u8
    ensures { result ≡ shown_byte b }
{
    if b == b'\t' {
        return b' ';
    }
    if b < b' ' {
        return b'?';
    }
    if b'~' < b {
        return b'?';
    }
    b
}

// That a line is cut.
#[tactic(auto, unfolding(crate::specs::Messages::cut_mark), using(text::proofs::Splices::nothing))]
fn put_cut(out: &mut [u8], at: usize, line: &[u8]) -> usize
    requires { at + 3 ≤ length out.old }
    ensures { Wrote out.old at (cut_mark line.now) result out.new × (result ≤ at + 3) }
{
    if SHOWN < line.len() {
        return text::put(out, at, b" ..");
    }
    at
}

// A line as it is shown.
fn put_shown(out: &mut [u8], at: usize, line: &[u8]) -> usize
    requires { at + 83 ≤ length out.old }
    ensures { Wrote out.old at (shown_of line.now) result out.new × (result ≤ at + 83) }
{
    let mut next = at;
    for b in &line[..SHOWN.min(line.len())] {
        next = text::put(out, next, &[shown_byte(*b)]);
    }
    put_cut(out, next, line)
}

// The line of a text with this number, counted from 1; an empty one where there is none.
pub fn line_in(text: &[u8], line: u32) -> &[u8]
    ensures { result.now ≡ line_in text.now line }
{
    text::part(text, u64::from(line), b'\n')
}

#[tactic(auto, unfolding(crate::specs::Messages::place), using(text::proofs::Splices::nothing))]
fn put_place(out: &mut [u8], at: usize, line: u64) -> usize
    requires { at + 22 ≤ length out.old }
    ensures { Wrote out.old at (place line) result out.new × (result ≤ at + 22) }
{
    if line == 0 {
        return at;
    }
    let next = text::put_decimal(out, at, line);
    text::put(out, next, b": ")
}

fn put_head(out: &mut [u8], at: usize, card: Card, number: u8, line: u64) -> usize
    requires { at + 60 ≤ length out.old }
    ensures { Wrote out.old at (head card number line) result out.new × (result ≤ at + 60) }
{
    let placed = put_place(out, at, line);
    let named = put_card(out, placed, card);
    let refused = text::put(out, named, b" refused ");
    let numbered = text::put_decimal(out, refused, number as u64);
    text::put(out, numbered, b": ")
}

#[tactic(auto, unfolding(crate::specs::Messages::ask_words))]
fn put_ask(out: &mut [u8], at: usize, ask: Ask) -> usize
    requires { at + 60 ≤ length out.old }
    ensures { Wrote out.old at (ask_words ask) result out.new × (result ≤ at + 60) }
{
    match ask {
        Ask::Bus(_) => text::put(out, at, b"a bus of 32 units needs the wide card"),
        Ask::On(_) => text::put(out, at, b"an nni link needs the wide card"),
        Ask::Out(vpi) => {
            let path = text::put(out, at, b"outgoing path ");
            let numbered = text::put_decimal(out, path, vpi as u64);
            text::put(out, numbered, b" is above 255")
        }
    }
}

// What is wrong in the form of a line that a person may have got wrong so.
#[tactic(auto, unfolding(crate::specs::Messages::slip_words))]
fn put_slip(out: &mut [u8], at: usize, slip: Option<Slip>) -> usize
    requires { at + 104 ≤ length out.old }
    ensures { Wrote out.old at (slip_words slip) result out.new × (result ≤ at + 104) }
{
    match slip {
        Some(Slip::Blanks) => text::put(
            out,
            at,
            b"fields are parted by one tab, and this line has blanks",
        ),
        Some(Slip::Return) => text::put(out, at, b"the line ends in a carriage return"),
        Some(Slip::Both) => text::put(
            out,
            at,
            b"fields are parted by one tab, and this line has blanks and ends in a carriage return",
        ),
        None => text::put(
            out,
            at,
            b"unknown word, wrong field count, field outside its range, or no newline at its end",
        ),
    }
}

#[tactic(auto, unfolding(crate::specs::Messages::form_words))]
fn put_form(out: &mut [u8], at: usize, text: &[u8], line: u32) -> usize
    requires { at + 104 ≤ length out.old }
    ensures { Wrote out.old at (form_words text.now line) result out.new × (result ≤ at + 104) }
{
    if text.len() == 0 {
        return text::put(out, at, b"the text is empty");
    }
    put_slip(out, at, text::slip_in(line_in(text, line)))
}

#[tactic(auto, unfolding(crate::specs::Messages::why))]
fn put_why(out: &mut [u8], at: usize, text: &[u8], line: u32, number: u8) -> usize
    requires { at + 104 ≤ length out.old }
    ensures { Wrote out.old at (why text.now line number) result out.new × (result ≤ at + 104) }
{
    match number {
        1 => text::put(out, at, b"the text is above 65,536 bytes"),
        2 => put_form(out, at, text, line),
        3 => text::put(
            out,
            at,
            b"bus not first or again, unit off the bus or not declared, VPI or VCI above its top, or vc without page",
        ),
        4 => text::put(
            out,
            at,
            b"this unit, path, channel or session is given twice",
        ),
        5 => text::put(out, at, b"bus 32, nni or an outgoing path above 255"),
        6 => text::put(out, at, b"with this line the records exceed 262,144 bytes"),
        _ => text::put(out, at, b"cell store or counter rows too small"),
    }
}

// A line as it is shown, and a colon; nothing of an empty one.
#[tactic(auto, unfolding(crate::specs::Messages::showing), using(text::proofs::Splices::nothing))]
fn put_line(out: &mut [u8], at: usize, line: &[u8]) -> usize
    requires { at + 85 ≤ length out.old }
    ensures { Wrote out.old at (showing line.now) result out.new × (result ≤ at + 85) }
{
    if line.len() == 0 {
        return at;
    }
    let next = put_shown(out, at, line);
    text::put(out, next, b": ")
}

// The refused line as it is shown, where there is one.
#[tactic(auto, unfolding(crate::specs::Messages::shown_in), using(text::proofs::Splices::nothing))]
fn put_refused(out: &mut [u8], at: usize, text: &[u8], line: u32) -> usize
    requires { at + 85 ≤ length out.old }
    ensures { Wrote out.old at (shown_in text.now line) result out.new × (result ≤ at + 85) }
{
    if line == 0 {
        return at;
    }
    put_line(out, at, line_in(text, line))
}

fn put_ok(out: &mut [u8], at: usize, card: Card, used: u32, units: u8) -> usize
    requires { at + 80 ≤ length out.old }
    ensures { Wrote out.old at (ok_line card used units) result out.new × (result ≤ at + 80) }
{
    let named = put_card(out, at, card);
    let good = text::put(out, named, b" ok, ");
    let full = text::put_decimal(out, good, used as u64);
    let bytes = text::put(out, full, b" bytes of memory, ");
    let counted = text::put_decimal(out, bytes, units as u64);
    let last = put_units(out, counted, units);
    text::put(out, last, b"\n")
}

fn put_wide(out: &mut [u8], at: usize, line: u64, bytes: &[u8], ask: Ask) -> usize
    requires { at + 210 ≤ length out.old }
    ensures { Wrote out.old at (wide_line line bytes.now ask) result out.new × (result ≤ at + 210) }
{
    let headed = put_head(out, at, Card::Narrow, 5, line);
    let lined = put_line(out, headed, bytes);
    let asked = put_ask(out, lined, ask);
    text::put(out, asked, b"\n")
}

fn put_refusal(out: &mut [u8], at: usize, card: Card, number: u8, line: u32, text: &[u8]) -> usize
    requires { at + 254 ≤ length out.old }
    ensures { Wrote out.old at (refused_line card number line text.now) result out.new × (result ≤ at + 254) }
{
    let headed = put_head(out, at, card, number, line as u64);
    let lined = put_refused(out, headed, text, line);
    let said = put_why(out, lined, text, line, number);
    text::put(out, said, b"\n")
}

// That a card takes a table: the bytes of memory and the units.
pub fn ok_line(card: Card, used: u32, units: u8, out: &mut [u8; 256]) -> usize
    ensures { Wrote out.old 0 (ok_line card used units) result out.new × (result ≤ length out.new) }
{
    put_ok(out, 0, card, used, units)
}

// That a narrow card refuses a line for what it asks.
pub fn wide_line(line: u64, bytes: &[u8], ask: Ask, out: &mut [u8; 256]) -> usize
    ensures { Wrote out.old 0 (wide_line line bytes.now ask) result out.new × (result ≤ length out.new) }
{
    put_wide(out, 0, line, bytes, ask)
}

// That a card refuses a table with this number at this line.
pub fn refused_line(card: Card, number: u8, line: u32, text: &[u8], out: &mut [u8; 256]) -> usize
    ensures { Wrote out.old 0 (refused_line card number line text.now) result out.new × (result ≤ length out.new) }
{
    put_refusal(out, 0, card, number, line, text)
}
