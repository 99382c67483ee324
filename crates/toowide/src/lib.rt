// The lines of a table that ask for too much of a narrow card: where each stands, and what it asks.
#![tactic(auto)]

ghost use Rattle.std.specs.Prelude.{◌≡◌};
ghost use Rattle.toowide.specs.Asks.{ask_of, asked};
ghost use Rattle.toowide.specs.Listing.{next_wide, Inside};

use card::{Ask, Card};
use line::{Line, Wrong};

// A line that asks for too much: how many lines stand before it, where it starts and ends, and what it asks.
#[derive(Clone, Copy)]
pub struct Next {
    pub before: usize,
    pub start: usize,
    pub end: usize,
    pub ask: Ask,
}

// What a line asks of a card, if it asks for anything.
#[tactic(auto, unfolding(crate::specs::Asks::ask_of))]
fn ask_of(line: Line) -> Option<Ask>
    ensures { result ≡ ask_of line }
{
    match line {
        Line::Bus(bus) => Some(Ask::Bus(bus)),
        Line::Unit { settings, .. } => Some(Ask::On(settings.link)),
        Line::Vp { outvpi, .. } | Line::Vc { outvpi, .. } => Some(Ask::Out(outvpi)),
        Line::Drop { .. } | Line::Page { .. } | Line::Mc { .. } => None,
    }
}

// What a line asks that a narrow card does not hold; one that cannot be read asks nothing.
#[tactic(auto, unfolding(crate::specs::Asks::asked, crate::specs::Asks::beyond, card::specs::Cards::holds))]
pub fn too_much(reading: Result<Line, Wrong>) -> Option<Ask>
    ensures { result ≡ asked reading }
{
    let ask = ask_of(reading.ok()?)?;
    if card::holds(Card::Narrow, ask) {
        return None;
    }
    Some(ask)
}

// The next line of a text that asks for too much, from a line's start on.
pub fn next_wide(text: &[u8], from: usize) -> Option<Next>
    ensures { (result ≡ next_wide text.now from) × Inside result from text.now }
{
    let mut before: usize = 0;
    let mut start = from;
    // a cursor from line to line: how far it jumps is found on the way
    while start < text.len() {
        let stretch = text::line_at(text, start);
        let end = stretch.end;
        let reading = line::read(&text[start..end], end < text.len(), stretch.fields);
        if let Some(ask) = too_much(reading) {
            return Some(Next {
                before,
                start,
                end,
                ask,
            });
        }
        before += 1;
        start = end + 1;
    }
    None
}
