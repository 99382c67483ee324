// Requests and grants.
#![tactic(auto)]

ghost use Rattle.std.specs.Prelude.{◌≡◌, cond};
ghost use Rattle.arbiter.specs.Arbitration.{fresh as fresh_of, due as is_due, asking as asks_for, renewed, units, cyclic, next as next_to, some_asks, highest as highest_of, first, granted as granted_of, granted_by};

// No unit: before any grant, and where no grant is open. No unit has this number.
pub const NOBODY: u8 = 255;

// For each of the three priorities the number of the last unit granted, and for each unit number the priority that it asks at, 0 for none.
#[derive(Clone, Copy)]
pub struct Arbiter {
    pub last: [u8; 3],
    pub asks: [u8; 32],
}

// What the grant rule answers: the unit granted, or NOBODY, and both arrays afterwards.
#[derive(Clone, Copy)]
pub struct Grant {
    pub unit: u8,
    pub last: [u8; 3],
    pub asks: [u8; 32],
}

// What a grant answers: the new arbiter, and the unit granted, or NOBODY. Beside Grant, since `granting` in crates/document says it so.
#[derive(Clone, Copy)]
pub struct Granted {
    pub arbiter: Arbiter,
    pub unit: u8,
}

// Whether the request of the unit with this number is renewed in this frame.
#[tactic(auto, using(std::proofs::lemmas::Bool::Decides::nat_tests), unfolding(crate::specs::Arbitration::due))]
pub fn due(bus: u8, frame: u16, number: u8) -> bool
    ensures { result ≡ is_due bus frame number }
{
    let half = (number < 16) == (frame % 2 == 0);
    bus != 32 || half
}

// The priority that a unit with so many cells in its inlet asks at, 0 for none; whether the oldest of them is granted.
#[tactic(auto, using(std::proofs::lemmas::Bool::Decides::nat_tests), unfolding(crate::specs::Arbitration::asking))]
pub fn asking(priority: u8, cells: u16, granted: bool) -> u8
    ensures { result ≡ asks_for priority cells granted }
{
    let besides = cells.saturating_sub(u16::from(granted));
    if 0 < besides { priority } else { 0 }
}

// A request after its renewal: what the unit asks now, if it is due; else it stands.
fn ask_after(due: bool, now: u8, before: u8) -> u8
    ensures { result ≡ cond due now before }
{
    if due { now } else { before }
}

// The unit after this one in cyclic order; after nobody unit 0.
#[tactic(auto, using(std::proofs::lemmas::Bool::Decides::nat_tests), unfolding(crate::specs::Arbitration::next))]
fn next(unit: u8) -> u8
    ensures { result ≡ next_to unit }
{
    if unit < 31 { unit + 1 } else { 0 }
}

// Whether some unit asks at this priority.
fn some_asks(asks: [u8; 32], priority: u8) -> bool
    ensures { result ≡ some_asks asks priority units }
{
    asks.contains(&priority)
}

// The highest priority asking, 0 where nobody asks. Said once by `find` over the three, a frame took 2.5% more instructions.
fn highest(asks: [u8; 32]) -> u8
    ensures { result ≡ highest_of asks }
{
    if some_asks(asks, 3) {
        return 3;
    }
    if some_asks(asks, 2) {
        return 2;
    }
    if some_asks(asks, 1) {
        return 1;
    }
    0
}

// The first unit in cyclic order after the last one granted that asks at this priority, or NOBODY.
fn first_after(asks: [u8; 32], priority: u8, last: u8) -> u8
    ensures { result ≡ first asks priority (cyclic last) }
{
    let mut unit = next(last);
    for _passed in 0..32u8 {
        if asks[unit as usize] == priority {
            return unit;
        }
        unit = next(unit);
    }
    NOBODY
}

// The grant rule: the last unit granted at each priority and the requests go in, and come out as they are after the grant.
pub fn grant_rule(mut last: [u8; 3], mut asks: [u8; 32]) -> Grant
    ensures { result ≡ granted_of last asks }
{
    let priority = highest(asks);
    if priority == 0 {
        return Grant {
            unit: NOBODY,
            last,
            asks,
        };
    }
    let place = (priority - 1) as usize;
    let unit = first_after(asks, priority, last[place]);
    last[place] = unit;
    asks[unit as usize] = 0;
    Grant { unit, last, asks }
}

impl Arbiter {
    // Before any grant and without a request.
    pub fn fresh() -> Arbiter
        ensures { result ≡ fresh_of }
    {
        Arbiter {
            last: [NOBODY; 3],
            asks: [0; 32],
        }
    }

    // The requests of the units whose turn is in this frame become what each asks now; the others stand.
    pub fn renew(mut self, bus: u8, frame: u16, now: [u8; 32]) -> Arbiter
        ensures { result ≡ renewed self bus frame now }
    {
        let mut asks = self.asks;
        for number in 0..32u8 {
            let n = number as usize;
            asks[n] = ask_after(due(bus, frame, number), now[n], asks[n]);
        }
        self.asks = asks;
        self
    }

    // A unit is granted, if one asks.
    pub fn grant(self) -> Granted
        ensures { result ≡ granted_by self }
    {
        let g = grant_rule(self.last, self.asks);
        let last = g.last;
        let asks = g.asks;
        let arbiter = Arbiter { last, asks };
        Granted {
            arbiter,
            unit: g.unit,
        }
    }
}
