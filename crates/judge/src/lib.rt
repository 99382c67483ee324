// A line of a table held against what came before it, as shelf and memory have it: first what it is judged by, then the lines.
#![tactic(auto)]

ghost use Rattle.std.specs.Prelude.{◌≡◌, ◌*◌, ◌+◌, ◌<◌, ◌≤◌, length, IfSome};
ghost use Rattle.lookup.specs.Record.{size, record_at};
ghost use Rattle.state.specs.Bytes.{shelf_in};
ghost use Rattle.shelf.specs.Sessions.{hears};
ghost use Rattle.judge.specs.Verdicts.{fine, asked, room_for, off_bus as off_bus_is, taken as taken_is, page_in, number_of, is_fine};
ghost use Rattle.judge.specs.Owners.{unit_of, owner_of, sessions_at, spot as spot_of};
ghost use Rattle.judge.specs.Judge.{judge_unit, judge_vp, judge_drop, judge_page, judge_mc};
ghost use Rattle.judge.specs.Standing.{judge_vc_at, judge_first, judge_by};

use arbiter::NOBODY;
use bus::Target;
use card::{Ask, Card};
use line::{Line, Wrong};
use lookup::Record;
use shelf::Settings;

// What is wrong with a line, in the order in which it is tried; Order and Twice carry the field, counted from the word as 1.
#[derive(Clone, Copy)]
pub enum Fault {
    Form(Wrong),
    Order(u8),
    Twice(u8),
    Wide,
    Room,
}

// What judging a line comes to.
pub type Verdict = Result<(), Fault>;

// What a line is judged by of the declared unit that it names: its top VPI, where its records start, and its place.
#[derive(Clone, Copy)]
pub struct Owner {
    pub top: u16,
    pub place: u32,
    pub at: usize,
}

// A page's top VCI and the place of its records.
#[derive(Clone, Copy)]
pub struct Paged {
    pub top: u16,
    pub place: u32,
}

// Wide, unless the card can hold what a line asks for.
pub fn asks(card: Card, ask: Ask) -> Verdict
    ensures { result ≡ asked card ask fine }
{
    if card::holds(card, ask) {
        Ok(())
    } else {
        Err(Fault::Wide)
    }
}

// Room, unless there is room for so many records more.
pub fn room_for(room: usize, used: u32, records: usize) -> Verdict
    requires { records ≤ 65536 }
    ensures { result ≡ room_for room used records }
{
    if (used as usize) + lookup::SIZE * records <= room {
        Ok(())
    } else {
        Err(Fault::Room)
    }
}

// Whether a target is a unit that the bus does not have.
pub fn off_bus(bus: u8, target: Target) -> bool
    ensures { result ≡ off_bus_is bus target }
{
    match target {
        Target::Unit(unit) => bus <= unit,
        _ => false,
    }
}

// Whether something stands at a place already.
pub fn taken(got: Option<Record>) -> bool
    ensures { result ≡ taken_is got }
{
    match got {
        Some(Record::Empty) => false,
        _ => true,
    }
}

// The declared unit with a number.
fn find_owner(s: &[u8; 2048], number: u8) -> Option<Owner>
    ensures { (result ≡ owner_of (shelf_in s.now) number) × IfSome result (λ o. o.at < 32) }
{
    let at = state::find(s, number)?;
    Some(Owner {
        top: state::settings_at(s, at).top,
        place: state::place_at(s, at),
        at,
    })
}

// The number of the unit that a line names; a `bus` line names nobody.
fn unit_of(line: Line) -> u8
    ensures { result ≡ unit_of line }
{
    match line {
        Line::Bus(_) => NOBODY,
        Line::Unit { settings, .. } => settings.number,
        Line::Vp { unit, .. } => unit,
        Line::Drop { unit, .. } => unit,
        Line::Page { unit, .. } => unit,
        Line::Vc { unit, .. } => unit,
        Line::Mc { unit, .. } => unit,
    }
}

// The declared unit that a line names.
pub fn owner_of(s: &[u8; 2048], line: Line) -> Option<Owner>
    ensures { (result ≡ owner_of (shelf_in s.now) (unit_of line)) × IfSome result (λ o. o.at < 32) }
{
    find_owner(s, unit_of(line))
}

// The place of a unit's record for a VPI.
pub fn spot(o: Owner, vpi: u16) -> usize
    ensures { result ≡ spot_of o vpi }
{
    (o.place as usize) + lookup::SIZE * (vpi as usize)
}

// The place of a page's record for a VCI.
pub fn vci_spot(page: Paged, vci: u16) -> usize
    ensures { result ≡ page.place + size * vci }
{
    (page.place as usize) + lookup::SIZE * (vci as usize)
}

// The page that a record is, where it is one.
pub fn page_in(got: Option<Record>) -> Option<Paged>
    ensures { result ≡ page_in got }
{
    match got {
        Some(Record::Page { top, place }) => Some(Paged { top, place }),
        _ => None,
    }
}

// Whether a line is fine.
pub fn is_fine(verdict: Verdict) -> bool
    ensures { result ≡ is_fine verdict }
{
    verdict.is_ok()
}

// Document 01's number of a verdict.
pub fn number(verdict: Verdict) -> u8
    ensures { result ≡ number_of verdict }
{
    match verdict {
        Ok(()) => 0,
        Err(Fault::Form(_)) => 2,
        Err(Fault::Order(_)) => 3,
        Err(Fault::Twice(_)) => 4,
        Err(Fault::Wide) => 5,
        Err(Fault::Room) => 6,
    }
}

// A `unit` line: below the bus number, declared once, on a link that the card has, with room for its records.
fn judge_unit(
    card: Card,
    bus: u8,
    declared: bool,
    room: usize,
    used: u32,
    settings: Settings,
) -> Verdict
    ensures { result ≡ judge_unit card bus declared room used settings.number settings.link settings.top }
{
    if bus <= settings.number {
        return Err(Fault::Order(2));
    }
    if declared {
        return Err(Fault::Twice(2));
    }
    asks(card, Ask::On(settings.link))?;
    room_for(room, used, (settings.top as usize) + 1)
}

// A `vp` line: at a VPI of a declared unit, to a unit of the bus, where nothing stands yet, to a VPI that the card can hold.
fn judge_vp(
    card: Card,
    memory: &[u8],
    bus: u8,
    o: Owner,
    vpi: u16,
    target: Target,
    outvpi: u16,
) -> Verdict
    ensures { result ≡ judge_vp card bus o.top vpi (record_at card memory.now (spot_of o vpi)) target outvpi }
{
    if o.top < vpi {
        return Err(Fault::Order(3));
    }
    if off_bus(bus, target) {
        return Err(Fault::Order(4));
    }
    if taken(lookup::get(card, memory, spot(o, vpi))) {
        return Err(Fault::Twice(3));
    }
    asks(card, Ask::Out(outvpi))
}

// A `drop` line: at a VPI of a declared unit where nothing stands yet.
fn judge_drop(card: Card, memory: &[u8], o: Owner, vpi: u16) -> Verdict
    ensures { result ≡ judge_drop o.top vpi (record_at card memory.now (spot_of o vpi)) }
{
    if o.top < vpi {
        return Err(Fault::Order(3));
    }
    if taken(lookup::get(card, memory, spot(o, vpi))) {
        return Err(Fault::Twice(3));
    }
    Ok(())
}

// A `page` line: as a `drop` line, with room for its records.
fn judge_page(
    card: Card,
    memory: &[u8],
    room: usize,
    used: u32,
    o: Owner,
    vpi: u16,
    top: u16,
) -> Verdict
    ensures { result ≡ judge_page room used o.top vpi (record_at card memory.now (spot_of o vpi)) top }
{
    judge_drop(card, memory, o, vpi)?;
    room_for(room, used, (top as usize) + 1)
}

// A `vc` line: at a VCI of a page, to a unit of the bus, where nothing stands yet, to a VPI that the card can hold.
fn judge_vc(
    card: Card,
    memory: &[u8],
    bus: u8,
    o: Owner,
    vpi: u16,
    vci: u16,
    target: Target,
    outvpi: u16,
) -> Verdict
    ensures { result ≡ judge_vc_at card bus (record_at card memory.now) o vpi vci target outvpi }
{
    if o.top < vpi {
        return Err(Fault::Order(3));
    }
    let Some(page) = page_in(lookup::get(card, memory, spot(o, vpi))) else {
        return Err(Fault::Order(3));
    };
    if page.top < vci {
        return Err(Fault::Order(4));
    }
    if off_bus(bus, target) {
        return Err(Fault::Order(5));
    }
    if taken(lookup::get(card, memory, vci_spot(page, vci))) {
        return Err(Fault::Twice(4));
    }
    asks(card, Ask::Out(outvpi))
}

// An `mc` line: of a declared unit that does not hear the session yet.
fn judge_mc(s: &[u8; 2048], o: Owner, session: u8) -> Verdict
    requires { o.at < 32 }
    ensures { result ≡ judge_mc (hears (sessions_at (shelf_in s.now) o) session) }
{
    if state::hears_at(s, o.at, session) {
        return Err(Fault::Twice(3));
    }
    Ok(())
}

// The first line is `bus`.
fn judge_first(card: Card, line: Line) -> Verdict
    ensures { result ≡ judge_first card line }
{
    match line {
        Line::Bus(bus) => asks(card, Ask::Bus(bus)),
        _ => Err(Fault::Order(1)),
    }
}

// Order, Twice, Wide or Room against what came before, where the line names this unit.
pub fn judge(
    card: Card,
    room: usize,
    first: bool,
    memory: &[u8],
    s: &[u8; 2048],
    used: u32,
    o: Option<Owner>,
    line: Line,
) -> Verdict
    requires { IfSome o (λ o. o.at < 32) }
    ensures { result ≡ judge_by card room first (record_at card memory.now) (shelf_in s.now) used o line }
{
    if first {
        return judge_first(card, line);
    }
    let bus = s[804];
    let named = o.ok_or(Fault::Order(2));
    match line {
        Line::Bus(_) => Err(Fault::Order(1)),
        Line::Unit { settings, .. } => judge_unit(card, bus, o.is_some(), room, used, settings),
        Line::Vp {
            vpi,
            target,
            outvpi,
            ..
        } => judge_vp(card, memory, bus, named?, vpi, target, outvpi),
        Line::Drop { vpi, .. } => judge_drop(card, memory, named?, vpi),
        Line::Page { vpi, top, .. } => judge_page(card, memory, room, used, named?, vpi, top),
        Line::Vc {
            vpi,
            vci,
            target,
            outvpi,
            ..
        } => judge_vc(card, memory, bus, named?, vpi, vci, target, outvpi),
        Line::Mc { session, .. } => judge_mc(s, named?, session),
    }
}
