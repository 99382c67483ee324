// What an event answers, and which counters of which units rise by it; the counters, and the one function that writes the lent rows.
#![tactic(auto)]

ghost use Rattle.std.specs.Prelude.{◌≡◌, ◌+◌, ◌<◌, ◌≤◌, length};
ghost use Rattle.answer.specs.Answers.{arrival_rises, hearing_rises, uncounted_with, counted_with, outcome_by, #arrived, #queued, #taken};
ghost use Rattle.answer.specs.Counting.{zeros, tick as ticked, raised as raised_by, rise_at, row_by, settled, raised_from, set_of, place_of, many_of};

// The fates of an arriving cell.
#[derive(Clone, Copy)]
pub enum Arrival {
    Hec,
    Ignored,
    Misrouted,
    Inletfull,
    Queued,
}

// The fates of a heard frame at a unit.
#[derive(Clone, Copy)]
pub enum Hearing {
    Damaged,
    Other,
    Wide,
    Full,
    Clp,
    Queued,
}

// What is given back.
#[derive(Clone, Copy)]
pub enum Answer {
    // a table is loaded and uses so many bytes
    Loaded(u32),
    // a table is refused with this number at this line
    Unloaded {
        number: u8,
        line: u32,
    },
    // an event is refused with this number
    Refused(u8),
    Arrived(Arrival),
    // its number, who sent, who was granted (either may be arbiter::NOBODY), how many copies were queued
    Framed {
        number: u16,
        sender: u8,
        granted: u8,
        copies: u8,
    },
    Heard(Hearing),
    // a cell was taken
    Taken,
    // there was none to take
    Empty,
    // a cell was handed in
    Handed,
}

// The counters, each a bit: a set of them is a sum.
pub const ARRIVED: u16 = 1;

pub const HEC: u16 = 2;

pub const IGNORED: u16 = 4;

pub const MISROUTED: u16 = 8;

pub const INLETFULL: u16 = 16;

pub const SENT: u16 = 32;

pub const UNHEARD: u16 = 64;

pub const DAMAGED: u16 = 128;

pub const QUEUED: u16 = 256;

pub const FULL: u16 = 512;

pub const CLP: u16 = 1024;

pub const WIDE: u16 = 2048;

pub const TAKEN: u16 = 4096;

// What becomes of the rows from one place up to another: they start anew, or each has these counters raised.
#[derive(Clone, Copy)]
pub struct Rises {
    pub from: usize,
    pub to: usize,
    pub anew: bool,
    pub each: [u16; 32],
}

// What an event comes to but for the lent bytes: its answer, and the counters that rise.
#[derive(Clone, Copy)]
pub struct Outcome {
    pub answer: Answer,
    pub rises: Rises,
}

// The counters that rise in the row of one place.
#[derive(Clone, Copy)]
pub struct Rise {
    pub place: usize,
    pub counters: u16,
}

// The same of an event at one unit: what rises in the row of its place, if it is counted at all. It goes by value in a few words.
#[derive(Clone, Copy)]
pub struct Single {
    pub answer: Answer,
    pub rise: Option<Rise>,
}

// The counters that rise by an arrival with this fate.
#[tactic(auto, unfolding(crate::specs::Answers::arrival_rises))]
pub fn arrival_rises(fate: Arrival) -> u16
    ensures { result ≡ arrival_rises fate }
{
    match fate {
        Arrival::Hec => ARRIVED + HEC,
        Arrival::Ignored => ARRIVED + IGNORED,
        Arrival::Misrouted => ARRIVED + MISROUTED,
        Arrival::Inletfull => ARRIVED + INLETFULL,
        Arrival::Queued => ARRIVED,
    }
}

// The counters that rise at a unit that hears a frame with this fate.
#[tactic(auto, unfolding(crate::specs::Answers::hearing_rises))]
pub fn hearing_rises(fate: Hearing) -> u16
    ensures { result ≡ hearing_rises fate }
{
    match fate {
        Hearing::Damaged => DAMAGED,
        Hearing::Other => 0,
        Hearing::Wide => WIDE,
        Hearing::Full => FULL,
        Hearing::Clp => CLP,
        Hearing::Queued => QUEUED,
    }
}

// An event at a unit answers this, and nothing is counted.
pub fn uncounted(answer: Answer) -> Single
    ensures { result ≡ uncounted_with answer }
{
    Single { answer, rise: None }
}

// It answers this, and these counters rise in the row of a place.
pub fn counted(answer: Answer, place: usize, counters: u16) -> Single
    ensures { result ≡ counted_with answer place counters }
{
    Single {
        answer,
        rise: Some(Rise { place, counters }),
    }
}

#[repr(C)]
#[derive(Clone, Copy, Default)]
pub struct Counters {
    pub arrived: u32,
    pub hec: u32,
    pub ignored: u32,
    pub misrouted: u32,
    pub inletfull: u32,
    pub sent: u32,
    pub unheard: u32,
    pub damaged: u32,
    pub queued: u32,
    pub full: u32,
    pub clp: u32,
    pub wide: u32,
    pub taken: u32,
}

// A counter one up if its bit is in the set: no bit is above TAKEN.
fn tick(bit: u16, counters: u16, value: u32) -> u32
    requires { (0 < bit) × (bit ≤ 4096) }
    ensures { result ≡ ticked bit counters value }
{
    if bit <= counters % (2 * bit) {
        return value.wrapping_add(1);
    }
    value
}

impl Counters {
    pub fn zero() -> Counters
        ensures { result ≡ zeros }
    {
        Counters::default()
    }

    // Each of this set of counters one up.
    pub fn raised(self, counters: u16) -> Counters
        ensures { result ≡ raised_by self counters }
    {
        Counters {
            arrived: tick(ARRIVED, counters, self.arrived),
            hec: tick(HEC, counters, self.hec),
            ignored: tick(IGNORED, counters, self.ignored),
            misrouted: tick(MISROUTED, counters, self.misrouted),
            inletfull: tick(INLETFULL, counters, self.inletfull),
            sent: tick(SENT, counters, self.sent),
            unheard: tick(UNHEARD, counters, self.unheard),
            damaged: tick(DAMAGED, counters, self.damaged),
            queued: tick(QUEUED, counters, self.queued),
            full: tick(FULL, counters, self.full),
            clp: tick(CLP, counters, self.clp),
            wide: tick(WIDE, counters, self.wide),
            taken: tick(TAKEN, counters, self.taken),
        }
    }
}

// The sets of one counter that rise all the time, each written out: the others are then not looked at.
#[tactic(auto, unfolding(crate::specs::Counting::raised))]
fn queued_up(mut c: Counters) -> Counters
    ensures { result ≡ raised_by c #queued }
{
    c.queued = c.queued.wrapping_add(1);
    c
}

#[tactic(auto, unfolding(crate::specs::Counting::raised))]
fn arrived_up(mut c: Counters) -> Counters
    ensures { result ≡ raised_by c #arrived }
{
    c.arrived = c.arrived.wrapping_add(1);
    c
}

#[tactic(auto, unfolding(crate::specs::Counting::raised))]
fn taken_up(mut c: Counters) -> Counters
    ensures { result ≡ raised_by c #taken }
{
    c.taken = c.taken.wrapping_add(1);
    c
}

// Each of a set of counters one up.
pub fn risen(c: Counters, rise: u16) -> Counters
    ensures { result ≡ raised_by c rise }
{
    if rise == QUEUED {
        return queued_up(c);
    }
    if rise == ARRIVED {
        return arrived_up(c);
    }
    if rise == TAKEN {
        return taken_up(c);
    }
    c.raised(rise)
}

// By the empty set a row stays as it is. It does nothing: what writes rows calls it where a row is left alone, for what it says. A function that answers
// the row, or None where it stays, makes a frame of 16 units 1,741 instructions, this 1,548.
#[tactic(auto, unfolding(crate::specs::Counting::raised))]
fn unraised(_c: Counters)
    ensures { raised_by _c 0 ≡ _c }
{}

// A row starts anew: above every set of counters.
const ANEW: u16 = 8192;

// What becomes of the row at place i, in one number: the counters that rise in it, or ANEW.
#[tactic(auto, unfolding(crate::specs::Counting::rise_at))]
pub fn rise_at(rises: Rises, i: usize) -> u16
    requires { i < 32 }
    ensures { result ≡ rise_at rises i }
{
    if rises.anew {
        return ANEW;
    }
    rises.each[i] % ANEW
}

// The row c after that.
#[tactic(auto, unfolding(crate::specs::Counting::row_by))]
pub fn row_by(c: Counters, rise: u16) -> Counters
    ensures { result ≡ row_by c rise }
{
    if rise == ANEW {
        return Counters::zero();
    }
    risen(c, rise)
}

pub fn rises_of(o: Outcome) -> Rises
    ensures { result ≡ o.rises }
{
    o.rises
}

pub fn answer_of(o: Outcome) -> Answer
    ensures { result ≡ o.answer }
{
    o.answer
}

// The first place whose row changes, and the place after the last.
pub fn first(rises: Rises) -> usize
    ensures { result ≡ rises.from }
{
    rises.from
}

pub fn last(rises: Rises) -> usize
    ensures { result ≡ rises.to }
{
    rises.to
}

// The counters of a load. It is given no more than the rises, which are read once for each row; a row in which nothing rises is left alone. It and
// `raise` are all that write rows, and a load only starts them anew.
pub fn settle(rows: &mut [Counters], rises: Rises)
    requires { (rises.to ≤ 32) × (rises.to ≤ length rows.old) }
    ensures { rows.new ≡ settled rows.old rises }
{
    for i in rises.from..rises.to {
        let rise = rise_at(rises, i);
        if rise != 0 {
            rows[i] = row_by(rows[i], rise);
        } else {
            unraised(rows[i]);
        }
    }
}

// The one function that bumps the lent rows: the counters of sets[k] rise in the row at place at + k, for the first n of the sets. Most often a copy
// is queued; a row is read, and written, only where something rises in it.
pub fn raise(rows: &mut [Counters], at: usize, sets: &[u16], n: usize)
    requires { (n ≤ length sets.now) × (at + n ≤ length rows.old) }
    ensures { rows.new ≡ raised_from rows.old at sets.now n }
{
    for k in 0..n {
        let rise = sets[k];
        let i = at + k;
        if rise == QUEUED {
            rows[i] = queued_up(rows[i]);
        } else if rise != 0 {
            rows[i] = risen(rows[i], rise);
        } else {
            unraised(rows[i]);
        }
    }
}

// What an event at one unit raises: the set of counters; the place of the row; in how many rows, one or none.
#[tactic(auto, unfolding(crate::specs::Counting::set_in))]
pub fn set_of(done: Single) -> u16
    ensures { result ≡ set_of done }
{
    if let Some(rise) = done.rise {
        return rise.counters;
    }
    0
}

#[tactic(auto, unfolding(crate::specs::Counting::place_in))]
pub fn place_of(done: Single) -> usize
    ensures { result ≡ place_of done }
{
    if let Some(rise) = done.rise {
        return rise.place;
    }
    0
}

#[tactic(auto, unfolding(crate::specs::Counting::many_in))]
pub fn many_of(done: Single) -> usize
    ensures { result ≡ many_of done }
{
    if done.rise.is_some() {
        return 1;
    }
    0
}

// What it answers.
pub fn answer_by(done: Single) -> Answer
    ensures { result ≡ (outcome_by done).answer }
{
    done.answer
}

// The counters of an event at one unit: `raise` is given a row of one set. It writes no row itself.
#[tactic(auto, unfolding(crate::specs::Answers::spread, crate::specs::Counting::settled_to), using(crate::proofs::Settling::raised_one))]
pub fn raise_one(rows: &mut [Counters], done: Single)
    requires { ((outcome_by done).rises.to ≤ 32) × ((outcome_by done).rises.to ≤ length rows.old) }
    ensures { rows.new ≡ settled rows.old (outcome_by done).rises }
{
    if let Some(rise) = done.rise {
        raise(rows, rise.place, &[rise.counters], 1);
    }
}
