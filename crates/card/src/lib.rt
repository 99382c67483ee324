// The two cards: narrow or wide, as a value; and what a line must not ask of a narrow one.
#![tactic(auto)]

ghost use Rattle.std.specs.Prelude.{◌≡◌};
ghost use Rattle.card.specs.Cards.{narrow_holds, holds as holds_it};

use header::Link;

#[derive(Clone, Copy)]
pub enum Card {
    Narrow,
    Wide,
}

// What a line asks of a card: a bus of so many units, a link, an outgoing VPI.
#[derive(Clone, Copy)]
pub enum Ask {
    Bus(u8),
    On(Link),
    Out(u16),
}

// Whether the card can hold it.
#[tactic(auto, unfolding(crate::specs::Cards::holds))]
pub fn holds(card: Card, ask: Ask) -> bool
    ensures { result ≡ holds_it card ask }
{
    match card {
        Card::Wide => true,
        Card::Narrow => narrow_holds(ask),
    }
}

#[tactic(auto, unfolding(crate::specs::Cards::narrow_holds))]
fn narrow_holds(ask: Ask) -> bool
    ensures { result ≡ narrow_holds ask }
{
    match ask {
        Ask::Bus(units) => units != 32,
        Ask::On(Link::Uni) => true,
        Ask::On(Link::Nni) => false,
        Ask::Out(vpi) => vpi <= 255,
    }
}
