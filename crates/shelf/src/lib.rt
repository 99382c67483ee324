// A unit and its settings, how many units are declared, which sessions a unit hears.
#![tactic(auto)]

ghost use Rattle.std.specs.Prelude.{◌≡◌, min};
ghost use Rattle.shelf.specs.Sessions.{hears as hears_it};

use header::Link;
use outlet::{Outlet, Ring};

// The first four settings of a `unit` line.
#[derive(Clone, Copy)]
pub struct Settings {
    pub number: u8,
    pub link: Link,
    pub top: u16,
    pub priority: u8,
}

// The places beside the data queues: a control cell and a loopback cell in the inlet, 0 or 1 of each; the control outlet; a loopback cell in the outlet,
// 0 or 1.
#[derive(Clone, Copy)]
pub struct Side {
    pub controlin: u8,
    pub loopbackin: u8,
    pub controlout: Ring,
    pub loopbackout: u8,
}

#[derive(Clone, Copy)]
pub struct Unit {
    pub settings: Settings,
    pub inlet: Ring,
    pub outlet: Outlet,
    pub side: Side,
    // the byte of the memory where its VPI records start
    pub place: u32,
    // the sessions that it hears: session s is bit s % 8 of byte s / 8
    pub sessions: [u8; 32],
}

impl Unit {
    // how many data cells an inlet holds
    pub const INLET: u8 = 4;

    // how many cells a control outlet holds
    pub const CONTROL: u8 = 4;
}

// How many units are declared; there are 32 places.
pub fn declared_count(count: u8) -> usize
    ensures { result ≡ min count 32 }
{
    usize::from(count).min(32)
}

// Whether a unit with these sessions hears this one.
pub fn hears(sessions: [u8; 32], session: u8) -> bool
    ensures { result ≡ hears_it sessions session }
{
    let at = (session / 8) as usize;
    let bit = session % 8;
    (sessions[at] >> bit) % 2 == 1
}
