// A unit's outlet: its limits as a `unit` line gives them, its queues, their capacities; and the rules of hearing and taking at it: what befalls a
// copy, which cell leaves next, whether it is marked, its header.
#![tactic(auto)]

ghost use Rattle.std.specs.Prelude.{◌≡◌, ◌-◌};
ghost use Rattle.outlet.specs.Outlets.{empty as empty_of, fresh as fresh_of, one as one_of, four as four_of, capacity as capacity_of, queue as ring_of, Given};
ghost use Rattle.outlet.specs.Hearing.{queue_of, limit as limit_in, held as held_in, at_limit, too_wide, fate_at, fate_in};
ghost use Rattle.outlet.specs.Taking.{queues as queues_in, leaving, marks as marks_it, marked as marked_of, outgoing as outgoing_of};

use header::{Header, Link};

#[derive(Clone, Copy)]
pub enum Mode {
    One,
    Four,
}

// The last five fields of a `unit` line.
#[derive(Clone, Copy)]
pub struct Limits {
    pub mode: Mode,
    pub cbrlength: u8,
    pub cbrlimit: u8,
    pub vbrlimit: u8,
    pub mark: bool,
}

// A queue in a ring of places: the place of its oldest cell, and how many cells it holds.
#[derive(Clone, Copy)]
pub struct Ring {
    pub head: u8,
    pub count: u8,
}

// Queue q holds class q; in mode one all cells are in queue 0 and the other three are not used.
#[derive(Clone, Copy)]
pub struct Outlet {
    pub limits: Limits,
    pub queues: [Ring; 4],
}

// A queue without a cell.
pub fn empty() -> Ring
    ensures { result ≡ empty_of }
{
    Ring { head: 0, count: 0 }
}

impl Outlet {
    // The one queue of mode one.
    pub const ONE: u8 = 123;

    // Class 0 of mode four.
    pub const CONTROL: u8 = 2;

    // What CBR and VBR share in mode four.
    pub const SHARED: u8 = 89;

    // ABR of mode four.
    pub const ABR: u8 = 32;

    // All queues empty.
    fn emptied(limits: Limits) -> Outlet
        ensures { result ≡ fresh_of limits }
    {
        Outlet {
            limits,
            queues: [empty(); 4],
        }
    }

    // A fresh outlet in mode one.
    pub fn one(vbrlimit: u8, mark: bool) -> Outlet
        ensures { result ≡ one_of vbrlimit mark }
    {
        Outlet::emptied(Limits {
            mode: Mode::One,
            cbrlength: 0,
            cbrlimit: 0,
            vbrlimit,
            mark,
        })
    }

    // A fresh outlet in mode four.
    pub fn four(cbrlength: u8, cbrlimit: u8, vbrlimit: u8, mark: bool) -> Outlet
        ensures { result ≡ four_of cbrlength cbrlimit vbrlimit mark }
    {
        Outlet::emptied(Limits {
            mode: Mode::Four,
            cbrlength,
            cbrlimit,
            vbrlimit,
            mark,
        })
    }

    // A fresh outlet with limits that a `unit` line gave.
    pub fn fresh(limits: Limits) -> Outlet
        requires { Given limits }
        ensures { result ≡ fresh_of limits }
    {
        let mode = limits.mode;
        match mode {
            Mode::One => Outlet::one(limits.vbrlimit, limits.mark),
            Mode::Four => Outlet::four(
                limits.cbrlength,
                limits.cbrlimit,
                limits.vbrlimit,
                limits.mark,
            ),
        }
    }
}

// How many cells a queue holds; 0 where there is no such queue.
#[tactic(auto, unfolding(crate::specs::Outlets::capacity))]
pub fn capacity(limits: Limits, queue: u8) -> u8
    ensures { result ≡ capacity_of limits queue }
{
    let mode = limits.mode;
    match mode {
        Mode::One => match queue {
            0 => Outlet::ONE,
            _ => 0,
        },
        Mode::Four => match queue {
            0 => Outlet::CONTROL,
            1 => limits.cbrlength,
            2 => Outlet::SHARED.saturating_sub(limits.cbrlength),
            3 => Outlet::ABR,
            _ => 0,
        },
    }
}

// The queue with a number; an empty one where there is none. Not `queues[q]`: a place that is computed would be read from memory only after
// all that was written there.
pub fn queue(outlet: Outlet, q: u8) -> Ring
    ensures { result ≡ ring_of outlet q }
{
    let queues = outlet.queues;
    match q {
        0 => queues[0],
        1 => queues[1],
        2 => queues[2],
        3 => queues[3],
        _ => empty(),
    }
}

// What befalls a copy that is addressed to a unit.
#[derive(Clone, Copy)]
pub enum Fate {
    Wide,
    Full,
    Clp,
    Queued,
}

// The queue that holds a class; a class has two bits.
#[tactic(auto, unfolding(crate::specs::Hearing::queue_of))]
pub fn queue_of(limits: Limits, class: u8) -> u8
    ensures { result ≡ queue_of limits class }
{
    let mode = limits.mode;
    match mode {
        Mode::One => 0,
        Mode::Four => class % 4,
    }
}

// From how many cells on a queue takes none with CLP 1: its limit, or its capacity where it has no limit.
#[tactic(auto, using(std::proofs::lemmas::Bool::Decides::nat_tests), unfolding(crate::specs::Hearing::limit))]
pub fn limit(limits: Limits, queue: u8) -> u8
    ensures { result ≡ limit_in limits queue }
{
    let mode = limits.mode;
    match mode {
        Mode::One => match queue {
            0 => limits.vbrlimit,
            _ => capacity(limits, queue),
        },
        Mode::Four => match queue {
            1 => limits.cbrlimit,
            2 => limits.vbrlimit,
            _ => capacity(limits, queue),
        },
    }
}

// How many cells a queue holds; none where there is no such queue.
pub fn held(outlet: Outlet, queue: u8) -> u8
    ensures { result ≡ held_in outlet queue }
{
    let ring = crate::queue(outlet, queue);
    ring.count
}

// Whether a queue is at its limit or above.
#[tactic(auto, unfolding(crate::specs::Hearing::at_limit))]
pub fn at_limit(outlet: Outlet, queue: u8) -> bool
    ensures { result ≡ at_limit outlet queue }
{
    limit(outlet.limits, queue) <= held(outlet, queue)
}

// Whether the VPI of a bus header is above what a UNI unit can write.
#[tactic(auto, unfolding(crate::specs::Hearing::too_wide))]
fn too_wide(link: Link, header: u32) -> bool
    ensures { result ≡ too_wide link header }
{
    match link {
        Link::Uni => 255 < header::path(Link::Nni, header),
        Link::Nni => false,
    }
}

// What befalls a copy with this CLP at a queue that holds so many cells.
#[tactic(auto, using(std::proofs::lemmas::Bool::Decides::nat_tests), unfolding(crate::specs::Hearing::fate_at))]
pub fn fate_at(held: u8, capacity: u8, limit: u8, clp: u8) -> Fate
    ensures { result ≡ fate_at held capacity limit clp }
{
    if capacity <= held {
        return Fate::Full;
    }
    if (clp == 1) & (limit <= held) {
        return Fate::Clp;
    }
    Fate::Queued
}

// What befalls a copy with this bus header at a unit with this link, at a queue that holds so many cells.
pub fn fate_in(capacity: u8, limit: u8, held: u8, link: Link, header: u32) -> Fate
    ensures { result ≡ fate_in capacity limit held link header }
{
    if too_wide(link, header) {
        return Fate::Wide;
    }
    let clp = (header % 2) as u8;
    fate_at(held, capacity, limit, clp)
}

// How many queues there are in a mode.
fn queues(mode: Mode) -> u8
    ensures { result ≡ queues_in mode }
{
    match mode {
        Mode::One => 1,
        Mode::Four => 4,
    }
}

// Which queue's oldest cell leaves next, if there is one.
pub fn leaving_of(outlet: Outlet) -> Option<u8>
    ensures { result ≡ leaving outlet }
{
    for q in 0..queues(outlet.limits.mode) {
        if 0 < held(outlet, q) {
            return Some(q);
        }
    }
    None
}

// Whether the outlet marks the user cell that leaves next.
#[tactic(auto, unfolding(crate::specs::Taking::marks))]
pub fn marks(outlet: Outlet) -> bool
    ensures { result ≡ marks_it outlet }
{
    let limits = outlet.limits;
    let mode = limits.mode;
    match mode {
        Mode::One => limits.mark & at_limit(outlet, 0),
        Mode::Four => limits.mark & (at_limit(outlet, 1) | at_limit(outlet, 2)),
    }
}

// A PT with its middle bit set, where it is marked.
#[tactic(auto, unfolding(crate::specs::Taking::marked))]
fn marked(mark: bool, pt: u8) -> u8
    ensures { result ≡ marked_of mark pt }
{
    if mark { pt / 4 * 4 + 2 + pt % 2 } else { pt }
}

// The header as it leaves on the link, made of the bus header: only a cell whose top PT bit is 0 is marked.
pub fn outgoing(link: Link, mark: bool, header: u32) -> u32
    ensures { result ≡ outgoing_of link mark header }
{
    let h = header::read(Link::Nni, header);
    let user = h.pt / 4 % 2 == 0;
    let out = Header {
        gfc: 0,
        vpi: h.vpi,
        vci: h.vci,
        pt: marked(mark & user, h.pt),
        clp: h.clp,
    };
    header::write(link, out)
}
