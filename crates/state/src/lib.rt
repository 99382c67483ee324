// The state of a shelf as 2,048 lent bytes (docs/STATE.md): each part of a unit read by value, a ring put back, a unit found.
#![tactic(auto)]

ghost use Rattle.std.specs.Prelude.{◌≡◌, ◌+◌, ◌*◌, ◌<◌, ◌≤◌, length, get_or};
ghost use Rattle.octets.specs.Octets.{part};
ghost use Rattle.shelf.specs.Shelves.{declared, find_in, waiting};
ghost use Rattle.shelf.specs.Sessions.{hears};
ghost use Rattle.state.specs.Bytes.{col, link_of, mode_of, settings_by, limits_by, ring_by, outlet_by, side_by, place_by, unit_in, shelf_in, with_ring, with_byte, with_turn};
ghost use Rattle.state.specs.Placing.{fresh_bytes, link_byte, mode_byte, columns_of, puts, declared_by, joined};

use arbiter::Arbiter;
use header::Link;
use outlet::{Limits, Mode, Outlet, Ring};
use shelf::{Settings, Side, Unit};

// Which byte says which link and mode is this room's matter, and Link and Mode are of other rooms: so no From here, as an impl stands beside its type.
pub fn link_of(b: u8) -> Link
    ensures { result ≡ link_of b }
{
    if b == 0 { Link::Uni } else { Link::Nni }
}

fn mode_of(b: u8) -> Mode
    ensures { result ≡ mode_of b }
{
    if b == 0 { Mode::One } else { Mode::Four }
}

// The byte of a column at a place.
pub fn at(s: &[u8; 2048], column: usize, i: usize) -> u8
    requires { (column < 32) × (i < 32) }
    ensures { result ≡ col s.now i column }
{
    s[column * 32 + i]
}

pub fn two_of(high: u8, low: u8) -> u16
    ensures { result ≡ high * 256 + low }
{
    u16::from_be_bytes([high, low])
}

pub fn settings_at(s: &[u8; 2048], i: usize) -> Settings
    requires { i < 32 }
    ensures { result ≡ settings_by (col s.now i) }
{
    Settings {
        number: at(s, 0, i),
        link: link_of(at(s, 1, i)),
        top: two_of(at(s, 2, i), at(s, 3, i)),
        priority: at(s, 4, i),
    }
}

pub fn limits_at(s: &[u8; 2048], i: usize) -> Limits
    requires { i < 32 }
    ensures { result ≡ limits_by (col s.now i) }
{
    Limits {
        mode: mode_of(at(s, 5, i)),
        cbrlength: at(s, 6, i),
        cbrlimit: at(s, 7, i),
        vbrlimit: at(s, 8, i),
        mark: at(s, 9, i) == 1,
    }
}

pub fn ring_at(s: &[u8; 2048], h: usize, c: usize, i: usize) -> Ring
    requires { (h < 32) × (c < 32) × (i < 32) }
    ensures { result ≡ ring_by (col s.now i) h c }
{
    Ring {
        head: at(s, h, i),
        count: at(s, c, i),
    }
}

pub fn outlet_at(s: &[u8; 2048], i: usize) -> Outlet
    requires { i < 32 }
    ensures { result ≡ outlet_by (col s.now i) }
{
    let limits = limits_at(s, i);
    let queues = std::array::from_fn(|q| ring_at(s, 16 + q, 20 + q, i));
    Outlet { limits, queues }
}

pub fn side_at(s: &[u8; 2048], i: usize) -> Side
    requires { i < 32 }
    ensures { result ≡ side_by (col s.now i) }
{
    let controlout = ring_at(s, 28, 29, i);
    Side {
        controlin: at(s, 26, i),
        loopbackin: at(s, 27, i),
        controlout,
        loopbackout: at(s, 30, i),
    }
}

pub fn place_at(s: &[u8; 2048], i: usize) -> u32
    requires { i < 32 }
    ensures { result ≡ place_by (col s.now i) }
{
    u32::from_be_bytes([at(s, 10, i), at(s, 11, i), at(s, 12, i), at(s, 13, i)])
}

pub fn sessions_at(s: &[u8; 2048], i: usize) -> [u8; 32]
    requires { i < 32 }
    ensures { result ≡ part s.now (1024 + 32 * i) 32 }
{
    *s[1024 + 32 * i..].first_chunk().unwrap()
}

// Whether the unit in a place hears a session: of its 32 bytes one is read.
pub fn hears_at(s: &[u8; 2048], i: usize, session: u8) -> bool
    requires { i < 32 }
    ensures { result ≡ hears (part s.now (1024 + 32 * i) 32) session }
{
    let at = 1024 + 32 * i + (session / 8) as usize;
    (s[at] >> (session % 8)) % 2 == 1
}

// The unit in a place.
pub fn unit_at(s: &[u8; 2048], i: usize) -> Unit
    requires { i < 32 }
    ensures { result ≡ unit_in s.now i }
{
    let settings = settings_at(s, i);
    let inlet = ring_at(s, 14, 15, i);
    let outlet = outlet_at(s, i);
    let side = side_at(s, i);
    let sessions = sessions_at(s, i);
    Unit {
        settings,
        inlet,
        outlet,
        side,
        place: place_at(s, i),
        sessions,
    }
}

// How many cells wait in the inlet of the unit in a place: data, control and loopback.
pub fn waiting_at(s: &[u8; 2048], i: usize) -> u16
    requires { i < 32 }
    ensures { result ≡ waiting (unit_in s.now i) }
{
    (at(s, 15, i) as u16) + (at(s, 26, i) as u16) + (at(s, 27, i) as u16)
}

// A ring is written into its two columns.
pub fn put_ring(s: &mut [u8; 2048], h: usize, c: usize, i: usize, ring: Ring)
    requires { (h < 32) × (c < 32) × (i < 32) }
    ensures { s.new ≡ with_ring s.old h c i ring }
{
    s[h * 32 + i] = ring.head;
    s[c * 32 + i] = ring.count;
}

// One byte of a column is written.
pub fn put_byte(s: &mut [u8; 2048], c: usize, i: usize, value: u8)
    requires { (c < 32) × (i < 32) }
    ensures { s.new ≡ with_byte s.old c i value }
{
    s[c * 32 + i] = value;
}

// Where the unit with this number stands among the declared ones.
pub fn find(s: &[u8; 2048], number: u8) -> Option<usize>
    ensures { result ≡ find_in (declared (shelf_in s.now)) number }
{
    let end = shelf::declared_count(s[805]);
    for i in 0..end {
        if at(s, 0, i) == number {
            return Some(i);
        }
    }
    None
}

// What each unit number asks at.
pub fn asks_at(s: &[u8; 2048]) -> [u8; 32]
    ensures { result ≡ part s.now 768 32 }
{
    *s[768..].first_chunk().unwrap()
}

// The arbiter.
pub fn arbiter_at(s: &[u8; 2048]) -> Arbiter
    ensures { result ≡ (shelf_in s.now).arbiter }
{
    let asks = asks_at(s);
    let last = [s[800], s[801], s[802]];
    Arbiter { last, asks }
}

// The number of the next frame.
pub fn frame_at(s: &[u8; 2048]) -> u16
    ensures { result ≡ (shelf_in s.now).frame }
{
    two_of(s[806], s[807])
}

// What a frame leaves is written: the arbiter, the open grant, the next frame's number.
pub fn put_turn(s: &mut [u8; 2048], arbiter: Arbiter, granted: u8, frame: u16)
    ensures { s.new ≡ with_turn s.old arbiter granted frame }
{
    let asks = arbiter.asks;
    let last = arbiter.last;
    octets::copy(&asks, s, 768);
    octets::copy(&last, s, 800);
    s[803] = granted;
    octets::put_two(s, 806, frame);
}

// A bus without a unit, whatever the bytes were.
pub fn fresh(s: &mut [u8; 2048], bus: u8)
    ensures { s.new ≡ fresh_bytes bus }
{
    s.fill(0);
    s[800] = arbiter::NOBODY;
    s[801] = arbiter::NOBODY;
    s[802] = arbiter::NOBODY;
    s[803] = arbiter::NOBODY;
    s[804] = bus;
}

fn link_byte(link: Link) -> u8
    ensures { result ≡ link_byte link }
{
    match link {
        Link::Uni => 0,
        Link::Nni => 1,
    }
}

fn mode_byte(mode: Mode) -> u8
    ensures { result ≡ mode_byte mode }
{
    match mode {
        Mode::One => 0,
        Mode::Four => 1,
    }
}

// The bytes of a unit with an empty inlet, one for each column.
fn columns_of(settings: Settings, outlet: Outlet, place: u32) -> [u8; 24]
    ensures { result ≡ columns_of settings outlet place }
{
    let link = settings.link;
    let limits = outlet.limits;
    let mode = limits.mode;
    let top = settings.top.to_be_bytes();
    let place = place.to_be_bytes();
    let [q0, q1, q2, q3] = outlet.queues;
    [
        settings.number,
        link_byte(link),
        top[0],
        top[1],
        settings.priority,
        mode_byte(mode),
        limits.cbrlength,
        limits.cbrlimit,
        limits.vbrlimit,
        u8::from(limits.mark),
        place[0],
        place[1],
        place[2],
        place[3],
        0,
        0,
        q0.head,
        q1.head,
        q2.head,
        q3.head,
        q0.count,
        q1.count,
        q2.count,
        q3.count,
    ]
}

// Bytes written at a place, into a column and those that follow.
fn put_columns(s: &mut [u8; 2048], i: usize, first: usize, values: &[u8])
    requires { (i < 32) × (first + length values.now ≤ 32) }
    ensures { s.new ≡ puts s.old i first values.now }
{
    for (k, value) in values.iter().enumerate() {
        s[(first + k) * 32 + i] = *value;
    }
}

// One unit more, at the next place.
pub fn declare(s: &mut [u8; 2048], settings: Settings, outlet: Outlet, place: u32)
    requires { get_or s.old 805 0 < 32 }
    ensures { s.new ≡ declared_by s.old settings outlet place }
{
    let count = s[805];
    let i = count as usize;
    put_columns(s, i, 0, &columns_of(settings, outlet, place));
    // the places beside its data queues: an empty inlet, control outlet and loopback outlet
    put_columns(s, i, 26, &[0, 0, 0, 0, 0]);
    octets::copy(&[0; 32], s, 1024 + 32 * i);
    s[805] = count + 1;
}

// The unit in a place hears a session more.
pub fn join(s: &mut [u8; 2048], i: usize, session: u8)
    requires { i < 32 }
    ensures { s.new ≡ joined s.old i session }
{
    let at = 1024 + 32 * i + (session / 8) as usize;
    let bit = session % 8;
    s[at] = s[at] | (1u8 << bit);
}
