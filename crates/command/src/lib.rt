// A line of the console, read: what a field says; the lines that choose a card, lend, poke and show; those that call for an event; and the command.
#![tactic(auto)]

ghost use Rattle.std.specs.Prelude.{◌≡◌, ◌≤◌, IfSome};
ghost use Rattle.text.specs.Text.{fields_of};
ghost use Rattle.command.specs.Fields.{place_in, number_in, unit_in, byte_in, span_in, bank_of, place_and_span, unit_and_span, unit_and_length};
ghost use Rattle.command.specs.SetUpLines.{card_line, lend_bank, lend_rows, lend_line, poke_line, show_lent, show_unit, show_line};
ghost use Rattle.command.specs.EventLines.{load_line, arrive_line, hear_line, frame_line, take_line, hand_line, collect_line, count_line};
ghost use Rattle.command.specs.Commands.{event_line, spoken, reading_of};

use card::Card;

const TAB: u8 = b'\t';

// The place of a word among names that are parted by tabs, and how many there are where it is none of them.
pub fn find(names: &[u8], w: &[u8]) -> usize
    ensures { result ≡ place_in (fields_of names.now) w.now }
{
    let mut from: usize = 0;
    let mut k: usize = 0;
    loop {
        let e = text::field_end(names, from, TAB);
        if text::is(&names[from..e], w) {
            return k;
        }
        k += 1;
        if names.len() <= e {
            return k;
        }
        from = e + 1;
    }
}

// The number in field f, up to the most that it may be.
pub fn number_at(s: &[u8], f: u8, most: u64) -> Option<u64>
    ensures says { result ≡ number_in (fields_of s.now) f most }
    ensures within { IfSome result (λ n. n ≤ most) }
{
    text::number(text::field(s, f), most).ok()
}

// The unit in field f: 255, which is never declared, for all that a byte does not hold.
pub fn unit_at(s: &[u8], f: u8) -> Option<u8>
    ensures { result ≡ unit_in (fields_of s.now) f }
{
    event::unit_of(text::field(s, f))
}

// The byte in field f.
#[tactic(auto, unfolding(crate::specs::Fields::byte_in))]
pub fn byte_at(s: &[u8], f: u8) -> Option<u8>
    ensures { result ≡ byte_in (fields_of s.now) f }
{
    let hex = text::field(s, f);
    if hex.len() != 2 || !text::is_hex(hex) {
        return None;
    }
    let mut byte = [0u8; 1];
    text::unhex(hex, &mut byte, 0);
    Some(byte[0])
}

// Where field f, the last one, starts, if it is bytes in hex and no more than these.
#[tactic(auto, unfolding(crate::specs::Fields::span_in))]
pub fn span_at(s: &[u8], f: u8, most: usize) -> Option<usize>
    ensures { result ≡ span_in s.now f most }
{
    let hex = text::field(s, f);
    if most < hex.len() / 2 || !text::is_hex(hex) {
        return None;
    }
    Some(s.len().saturating_sub(hex.len()))
}

// What is lent in bytes.
#[derive(Clone, Copy, Debug, PartialEq, Eq)]
pub enum Bank {
    Memory,
    Store,
}

// Bytes in hex are always the last field of a line: `from` is where it starts.
#[derive(Clone, Copy)]
pub enum Command {
    Card(Card),
    Lend { bank: Bank, length: u32, byte: u8 },
    LendRows { count: u8, value: u32 },
    Load(usize),
    Arrive { unit: u8, from: usize },
    Hear { unit: u8, from: usize },
    Frame(u16),
    Take { unit: u8, length: u16 },
    Hand { unit: u8, from: usize },
    Collect { unit: u8, length: u16 },
    Count(u8),
    Poke { bank: Bank, at: u32, from: usize },
    PokeState { at: u32, from: usize },
    Help,
    Show(Bank),
    ShowRows,
    ShowState,
    ShowUnit(u8),
}

// The bytes that a word names.
#[tactic(auto, unfolding(crate::specs::Fields::bank_of))]
fn bank_named(w: &[u8]) -> Option<Bank>
    ensures { result ≡ bank_of w.now }
{
    if text::is(w, b"memory") {
        return Some(Bank::Memory);
    }
    if text::is(w, b"store") {
        return Some(Bank::Store);
    }
    None
}

#[tactic(auto, unfolding(crate::specs::SetUpLines::card_line))]
pub fn card_line(s: &[u8]) -> Option<Command>
    ensures { result ≡ card_line (fields_of s.now) }
{
    let which = text::field(s, 2);
    if text::is(which, b"narrow") {
        return Some(Command::Card(Card::Narrow));
    }
    if text::is(which, b"wide") {
        return Some(Command::Card(Card::Wide));
    }
    None
}

#[tactic(auto, unfolding(crate::specs::SetUpLines::lend_bank))]
fn lend_bank(s: &[u8], bank: Bank) -> Option<Command>
    ensures { result ≡ lend_bank (fields_of s.now) bank }
{
    let length = number_at(s, 3, 300000)? as u32;
    let byte = byte_at(s, 4)?;
    Some(Command::Lend { bank, length, byte })
}

#[tactic(auto, unfolding(crate::specs::SetUpLines::lend_rows))]
fn lend_rows(s: &[u8]) -> Option<Command>
    ensures { result ≡ lend_rows (fields_of s.now) }
{
    let count = number_at(s, 3, 40)? as u8;
    let value = number_at(s, 4, 4294967295)? as u32;
    Some(Command::LendRows { count, value })
}

#[tactic(auto, unfolding(crate::specs::SetUpLines::lend_line))]
pub fn lend_line(s: &[u8]) -> Option<Command>
    ensures { result ≡ lend_line (fields_of s.now) }
{
    let which = text::field(s, 2);
    if text::is(which, b"rows") {
        return lend_rows(s);
    }
    lend_bank(s, bank_named(which)?)
}

// A place and bytes, as a `poke` has them.
fn place_and_span(s: &[u8]) -> Option<(u32, usize)>
    ensures { result ≡ place_and_span s.now }
{
    let place = number_at(s, 3, 300000)? as u32;
    Some((place, span_at(s, 4, 75000)?))
}

#[tactic(auto, unfolding(crate::specs::SetUpLines::poke_line))]
pub fn poke_line(s: &[u8]) -> Option<Command>
    ensures { result ≡ poke_line s.now }
{
    let which = text::field(s, 2);
    let (at, from) = place_and_span(s)?;
    if text::is(which, b"state") {
        return Some(Command::PokeState { at, from });
    }
    let bank = bank_named(which)?;
    Some(Command::Poke { bank, at, from })
}

#[tactic(auto, unfolding(crate::specs::SetUpLines::show_lent))]
fn show_lent(s: &[u8]) -> Option<Command>
    ensures { result ≡ show_lent (fields_of s.now) }
{
    let which = text::field(s, 2);
    if text::is(which, b"rows") {
        return Some(Command::ShowRows);
    }
    if text::is(which, b"state") {
        return Some(Command::ShowState);
    }
    bank_named(which).map(Command::Show)
}

#[tactic(auto, unfolding(crate::specs::SetUpLines::show_unit))]
fn show_unit(s: &[u8]) -> Option<Command>
    ensures { result ≡ show_unit (fields_of s.now) }
{
    if text::is(text::field(s, 2), b"unit") {
        return unit_at(s, 3).map(Command::ShowUnit);
    }
    None
}

// The one command whose lines have two fields or three.
#[tactic(auto, unfolding(crate::specs::SetUpLines::show_line))]
pub fn show_line(s: &[u8]) -> Option<Command>
    ensures { result ≡ show_line (fields_of s.now) }
{
    match text::count(s) {
        2 => show_lent(s),
        3 => show_unit(s),
        _ => None,
    }
}

#[tactic(auto, unfolding(crate::specs::EventLines::load_line))]
pub fn load_line(s: &[u8]) -> Option<Command>
    ensures { result ≡ load_line s.now }
{
    span_at(s, 2, 70000).map(Command::Load)
}

// A unit and bytes, as `arrive`, `hear` and `hand` have them.
fn unit_and_span(s: &[u8]) -> Option<(u8, usize)>
    ensures { result ≡ unit_and_span s.now }
{
    Some((unit_at(s, 2)?, span_at(s, 3, 70000)?))
}

#[tactic(auto, unfolding(crate::specs::EventLines::arrive_line))]
pub fn arrive_line(s: &[u8]) -> Option<Command>
    ensures { result ≡ arrive_line s.now }
{
    let (unit, from) = unit_and_span(s)?;
    Some(Command::Arrive { unit, from })
}

#[tactic(auto, unfolding(crate::specs::EventLines::hear_line))]
pub fn hear_line(s: &[u8]) -> Option<Command>
    ensures { result ≡ hear_line s.now }
{
    let (unit, from) = unit_and_span(s)?;
    Some(Command::Hear { unit, from })
}

#[tactic(auto, unfolding(crate::specs::EventLines::hand_line))]
pub fn hand_line(s: &[u8]) -> Option<Command>
    ensures { result ≡ hand_line s.now }
{
    let (unit, from) = unit_and_span(s)?;
    Some(Command::Hand { unit, from })
}

#[tactic(auto, unfolding(crate::specs::EventLines::frame_line))]
pub fn frame_line(s: &[u8]) -> Option<Command>
    ensures { result ≡ frame_line (fields_of s.now) }
{
    Some(Command::Frame(number_at(s, 2, 1000)? as u16))
}

// A unit and the length of a buffer, as `take` and `collect` have them.
fn unit_and_length(s: &[u8]) -> Option<(u8, u16)>
    ensures { result ≡ unit_and_length (fields_of s.now) }
{
    Some((unit_at(s, 2)?, number_at(s, 3, 1000)? as u16))
}

#[tactic(auto, unfolding(crate::specs::EventLines::take_line))]
pub fn take_line(s: &[u8]) -> Option<Command>
    ensures { result ≡ take_line (fields_of s.now) }
{
    let (unit, length) = unit_and_length(s)?;
    Some(Command::Take { unit, length })
}

#[tactic(auto, unfolding(crate::specs::EventLines::collect_line))]
pub fn collect_line(s: &[u8]) -> Option<Command>
    ensures { result ≡ collect_line (fields_of s.now) }
{
    let (unit, length) = unit_and_length(s)?;
    Some(Command::Collect { unit, length })
}

#[tactic(auto, unfolding(crate::specs::EventLines::count_line))]
pub fn count_line(s: &[u8]) -> Option<Command>
    ensures { result ≡ count_line (fields_of s.now) }
{
    unit_at(s, 2).map(Command::Count)
}

// A line that calls for an event, by its word and how many fields it has (no `match` on its bytes: `event::read` says why).
#[tactic(auto, unfolding(crate::specs::Commands::event_line))]
fn event_line(s: &[u8], word: &[u8], fields: usize) -> Option<Command>
    ensures { result ≡ event_line s.now word.now fields }
{
    if fields == 2 && text::is(word, b"load") {
        return load_line(s);
    }
    if fields == 3 && text::is(word, b"arrive") {
        return arrive_line(s);
    }
    if fields == 3 && text::is(word, b"hear") {
        return hear_line(s);
    }
    if fields == 2 && text::is(word, b"frame") {
        return frame_line(s);
    }
    if fields == 3 && text::is(word, b"take") {
        return take_line(s);
    }
    if fields == 3 && text::is(word, b"hand") {
        return hand_line(s);
    }
    if fields == 3 && text::is(word, b"collect") {
        return collect_line(s);
    }
    if fields == 2 && text::is(word, b"count") {
        return count_line(s);
    }
    None
}

// A line by its word and how many fields it has (no `match` on its bytes: `event::read` says why).
#[tactic(auto, unfolding(crate::specs::Commands::spoken))]
fn spoken(s: &[u8], word: &[u8], fields: usize) -> Option<Command>
    ensures { result ≡ spoken s.now word.now fields }
{
    if fields == 2 && text::is(word, b"card") {
        return card_line(s);
    }
    if fields == 4 && text::is(word, b"lend") {
        return lend_line(s);
    }
    if fields == 4 && text::is(word, b"poke") {
        return poke_line(s);
    }
    if fields == 1 && text::is(word, b"help") {
        return Some(Command::Help);
    }
    if fields == 2 && text::is(word, b"show") {
        return show_lent(s);
    }
    if fields == 3 && text::is(word, b"show") {
        return show_unit(s);
    }
    event_line(s, word, fields)
}

// What a line says.
#[tactic(auto, unfolding(crate::specs::Commands::reading_of))]
pub fn read(s: &[u8]) -> Option<Command>
    ensures { result ≡ reading_of s.now }
{
    if s.len() <= 150000 {
        return spoken(s, text::field(s, 1), text::count(s));
    }
    None
}
