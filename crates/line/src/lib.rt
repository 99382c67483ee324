// One line of a table read: its values, or what is wrong with it and in which field. First a number in its range or a target in a field, then
// what a `unit` line gives, then the lines.
#![tactic(auto)]

ghost use Rattle.std.specs.Prelude.{◌≡◌, length};
ghost use Rattle.text.specs.Text.{fields_of, at, from2, from4, from6, from7, from9};
ghost use Rattle.line.specs.Ranged.{ranged as ranged_of, aim_of};
ghost use Rattle.line.specs.Units.{settings_on, settings_of, least as least_of, most_length, most_limit, most_vbr, limits_after, limits_in, limits_of};
ghost use Rattle.line.specs.Lines.{bus_line, unit_line, key_of, way_said, vp_line, drop_line, page_line, vc_on, vc_line, mc_line, line_of, count_of, word_of, reading_of};

use bus::Target;
use header::Link;
use outlet::{Limits, Mode, Outlet};
use shelf::Settings;

// What is wrong with a line, and in which field, counted from the word as 1.
#[derive(Clone, Copy)]
pub enum Wrong {
    Newline,
    Word,
    Fields,
    Number(u8),
    Range(u8),
}

// The number that the text s of field f says. text::number guards a number up to 2^64 at each digit: by it a load took 3.4% more instructions.
#[tactic(auto, using(text::proofs::Numbers::has_digits, text::proofs::Numbers::digit_at, text::proofs::Numbers::at_least, text::proofs::Numbers::digits_on, text::proofs::Numbers::value_on, text::proofs::Numbers::value_end, text::proofs::Numbers::grows, crate::proofs::Numbers::no_number, crate::proofs::Numbers::too_big, crate::proofs::Numbers::too_small, crate::proofs::Numbers::in_range))]
pub fn number(s: &[u8], f: u8, lo: u16, hi: u16) -> Result<u16, Wrong>
    ensures { result ≡ ranged_of f lo hi s.now }
{
    if !text::decimal(s) {
        return Err(Wrong::Number(f));
    }
    let mut v: u32 = 0;
    for digit in s {
        v = v * 10 + (*digit - b'0') as u32;
        // more digits make no smaller number
        if (hi as u32) < v {
            return Err(Wrong::Range(f));
        }
    }
    if v < (lo as u32) {
        return Err(Wrong::Range(f));
    }
    Ok(v as u16)
}

// The number in the first field of s, which is field f of its line.
pub fn number_at(s: &[u8], f: u8, lo: u16, hi: u16) -> Result<u16, Wrong>
    ensures { result ≡ ranged_of f lo hi (at (fields_of s.now) 0) }
{
    number(text::field(s, 1), f, lo, hi)
}

// The target that the text s of field f says.
#[tactic(auto, unfolding(crate::specs::Ranged::aim_of), using(crate::proofs::Numbers::ranged_in, crate::proofs::Targets::all, crate::proofs::Targets::other, crate::proofs::Targets::longer))]
pub fn aimed(s: &[u8], f: u8) -> Result<Target, Wrong>
    ensures { result ≡ aim_of f s.now }
{
    match s {
        [b'u', unit @ ..] => Ok(Target::Unit(number(unit, f, 0, 31)? as u8)),
        [b'm', session @ ..] => Ok(Target::Session(number(session, f, 0, 255)? as u8)),
        b"b" => Ok(Target::All),
        _ => Err(Wrong::Range(f)),
    }
}

// The settings of a `unit` line whose number and link are read; s is the line from field 4 on.
#[tactic(auto, unfolding(crate::specs::Units::settings_on), using(text::proofs::Split::after_fields, crate::proofs::Numbers::ranged_in))]
fn settings_on(s: &[u8], number: u8, link: Link) -> Result<Settings, Wrong>
    ensures { result ≡ settings_on (from4 (fields_of s.now)) number link }
{
    let top = number_at(s, 4, 0, header::highest(link))?;
    let priority = number_at(text::after(s), 5, 1, 3)? as u8;
    Ok(Settings {
        number,
        link,
        top,
        priority,
    })
}

// The settings of a `unit` line; s is the line from field 2 on.
#[tactic(auto, unfolding(crate::specs::Units::settings_of), using(text::proofs::Split::after_fields, crate::proofs::Numbers::ranged_in, crate::proofs::UnitRests::settings_on_rest))]
pub fn settings_of(s: &[u8]) -> Result<Settings, Wrong>
    ensures { result ≡ settings_of (from2 (fields_of s.now)) }
{
    let number = number_at(s, 2, 0, 31)? as u8;
    let third = text::after(s);
    let fourth = text::after(third);
    let link = text::field(third, 1);
    if text::is(link, b"uni") {
        return settings_on(fourth, number, Link::Uni);
    }
    if text::is(link, b"nni") {
        return settings_on(fourth, number, Link::Nni);
    }
    Err(Wrong::Range(3))
}

// The least CBR length, and the least CBR limit.
fn least(mode: Mode) -> u16
    ensures { result ≡ least_of mode }
{
    match mode {
        Mode::One => 0,
        Mode::Four => 1,
    }
}

fn most_length(mode: Mode) -> u16
    ensures { result ≡ most_length mode }
{
    match mode {
        Mode::One => 0,
        Mode::Four => (Outlet::SHARED - 1) as u16,
    }
}

fn most_limit(mode: Mode, cbrlength: u16) -> u16
    ensures { result ≡ most_limit mode cbrlength }
{
    match mode {
        Mode::One => 0,
        Mode::Four => cbrlength,
    }
}

fn most_vbr(mode: Mode, cbrlength: u16) -> u16
    ensures { result ≡ most_vbr mode cbrlength }
{
    match mode {
        Mode::One => Outlet::ONE as u16,
        Mode::Four => (Outlet::SHARED as u16).saturating_sub(cbrlength),
    }
}

// The limits of a `unit` line whose mode and CBR limits are read; s is the line from field 9 on.
#[tactic(auto, using(text::proofs::Split::after_fields, crate::proofs::Numbers::ranged_in, crate::proofs::Modes::vbr_most))]
fn limits_after(s: &[u8], mode: Mode, cbrlength: u8, cbrlimit: u8) -> Result<Limits, Wrong>
    ensures { result ≡ limits_after (from9 (fields_of s.now)) mode cbrlength cbrlimit }
{
    let vbrlimit = number_at(s, 9, 1, most_vbr(mode, cbrlength as u16))? as u8;
    let mark = number_at(text::after(s), 10, 0, 1)?;
    Ok(Limits {
        mode,
        cbrlength,
        cbrlimit,
        vbrlimit,
        mark: mark == 1,
    })
}

// The limits of a `unit` line whose mode is read; s is the line from field 7 on.
#[tactic(auto, unfolding(crate::specs::Units::limits_in), using(text::proofs::Split::after_fields, crate::proofs::Numbers::ranged_in, crate::proofs::Modes::length_most, crate::proofs::Modes::limit_most, crate::proofs::UnitRests::second_fields))]
fn limits_in(s: &[u8], mode: Mode) -> Result<Limits, Wrong>
    ensures { result ≡ limits_in (from7 (fields_of s.now)) mode }
{
    let low = least(mode);
    let length = number_at(s, 7, low, most_length(mode))?;
    let eighth = text::after(s);
    let limit = number_at(eighth, 8, low, most_limit(mode, length))?;
    limits_after(text::after(eighth), mode, length as u8, limit as u8)
}

// The limits of a `unit` line; s is the line from field 6 on.
#[tactic(auto, unfolding(crate::specs::Units::limits_of), using(crate::proofs::UnitRests::limits_in_rest))]
pub fn limits_of(s: &[u8]) -> Result<Limits, Wrong>
    ensures { result ≡ limits_of (from6 (fields_of s.now)) }
{
    let seventh = text::after(s);
    let mode = text::field(s, 1);
    if text::is(mode, b"one") {
        return limits_in(seventh, Mode::One);
    }
    if text::is(mode, b"four") {
        return limits_in(seventh, Mode::Four);
    }
    Err(Wrong::Range(6))
}

#[derive(Clone, Copy)]
pub enum Line {
    Bus(u8),
    Unit {
        settings: Settings,
        limits: Limits,
    },
    Vp {
        unit: u8,
        vpi: u16,
        target: Target,
        class: u8,
        outvpi: u16,
    },
    Drop {
        unit: u8,
        vpi: u16,
    },
    Page {
        unit: u8,
        vpi: u16,
        top: u16,
    },
    Vc {
        unit: u8,
        vpi: u16,
        vci: u16,
        target: Target,
        class: u8,
        outvpi: u16,
        outvci: u16,
    },
    Mc {
        unit: u8,
        session: u8,
    },
}

// The unit and the VPI that four kinds of line begin with.
#[derive(Clone, Copy)]
pub struct Key {
    pub unit: u8,
    pub vpi: u16,
}

// The way out that `vp` and `vc` lines give.
#[derive(Clone, Copy)]
pub struct Way {
    pub target: Target,
    pub class: u8,
    pub outvpi: u16,
}

#[derive(Clone, Copy)]
pub enum Kind {
    Bus,
    Unit,
    Vp,
    Drop,
    Page,
    Vc,
    Mc,
}

// Each kind of line: its fields from the left, so that the first faulty one decides. Where nothing else is said, s is the line from
// field 2 on.
#[tactic(auto, unfolding(crate::specs::Lines::bus_line))]
fn bus_line(s: &[u8]) -> Result<Line, Wrong>
    ensures { result ≡ bus_line (from2 (fields_of s.now)) }
{
    match number_at(s, 2, 16, 32)? {
        16 => Ok(Line::Bus(16)),
        32 => Ok(Line::Bus(32)),
        _ => Err(Wrong::Range(2)),
    }
}

#[tactic(auto, unfolding(crate::specs::Lines::unit_line), using(crate::proofs::UnitRests::limits_rest))]
fn unit_line(s: &[u8]) -> Result<Line, Wrong>
    ensures { result ≡ unit_line (from2 (fields_of s.now)) }
{
    let settings = settings_of(s)?;
    let limits = limits_of(text::after(text::after(text::after(text::after(s)))))?;
    Ok(Line::Unit { settings, limits })
}

// The unit and the VPI.
#[tactic(auto, unfolding(crate::specs::Lines::key_of), using(text::proofs::Split::after_fields, crate::proofs::Numbers::ranged_in))]
fn key_of(s: &[u8]) -> Result<Key, Wrong>
    ensures { result ≡ key_of (from2 (fields_of s.now)) }
{
    let unit = number_at(s, 2, 0, 31)? as u8;
    let vpi = number_at(text::after(s), 3, 0, 4095)?;
    Ok(Key { unit, vpi })
}

// Target, class and outgoing VPI, which stand in the fields first, second and third; s is the line from the first of them on.
#[tactic(auto, using(text::proofs::Split::after_fields, crate::proofs::UnitRests::second_fields, crate::proofs::Numbers::ranged_in))]
fn way_of(s: &[u8], first: u8, second: u8, third: u8) -> Result<Way, Wrong>
    ensures { result ≡ way_said (at (fields_of s.now) 0) (at (fields_of s.now) 1) (at (fields_of s.now) 2) first second third }
{
    let target = aimed(text::field(s, 1), first)?;
    let rest = text::after(s);
    let class = number_at(rest, second, 0, 3)? as u8;
    let outvpi = number_at(text::after(rest), third, 0, 4095)?;
    Ok(Way {
        target,
        class,
        outvpi,
    })
}

#[tactic(auto, unfolding(crate::specs::Lines::vp_line, crate::specs::Lines::way_of), using(crate::proofs::UnitRests::second_fields))]
fn vp_line(s: &[u8]) -> Result<Line, Wrong>
    ensures { result ≡ vp_line (from2 (fields_of s.now)) }
{
    let key = key_of(s)?;
    let way = way_of(text::after(text::after(s)), 4, 5, 6)?;
    Ok(Line::Vp {
        unit: key.unit,
        vpi: key.vpi,
        target: way.target,
        class: way.class,
        outvpi: way.outvpi,
    })
}

#[tactic(auto, unfolding(crate::specs::Lines::drop_line))]
fn drop_line(s: &[u8]) -> Result<Line, Wrong>
    ensures { result ≡ drop_line (from2 (fields_of s.now)) }
{
    let Key { unit, vpi } = key_of(s)?;
    Ok(Line::Drop { unit, vpi })
}

#[tactic(auto, unfolding(crate::specs::Lines::page_line), using(crate::proofs::UnitRests::second_fields))]
fn page_line(s: &[u8]) -> Result<Line, Wrong>
    ensures { result ≡ page_line (from2 (fields_of s.now)) }
{
    let Key { unit, vpi } = key_of(s)?;
    let top = number_at(text::after(text::after(s)), 4, 0, 65535)?;
    Ok(Line::Page { unit, vpi, top })
}

// A `vc` line whose unit and VPI are read; s is the line from field 4 on.
#[tactic(auto, unfolding(crate::specs::Lines::vc_on, crate::specs::Lines::way_of), using(text::proofs::Split::after_fields))]
fn vc_on(s: &[u8], key: Key) -> Result<Line, Wrong>
    ensures { result ≡ vc_on (from4 (fields_of s.now)) key }
{
    let vci = number_at(s, 4, 0, 65535)?;
    let fifth = text::after(s);
    let way = way_of(fifth, 5, 6, 7)?;
    let outvci = number_at(text::after(text::after(text::after(fifth))), 8, 0, 65535)?;
    Ok(Line::Vc {
        unit: key.unit,
        vpi: key.vpi,
        vci,
        target: way.target,
        class: way.class,
        outvpi: way.outvpi,
        outvci,
    })
}

#[tactic(auto, unfolding(crate::specs::Lines::vc_line), using(crate::proofs::Rests::vc_on_rest))]
fn vc_line(s: &[u8]) -> Result<Line, Wrong>
    ensures { result ≡ vc_line (from2 (fields_of s.now)) }
{
    let key = key_of(s)?;
    vc_on(text::after(text::after(s)), key)
}

#[tactic(auto, unfolding(crate::specs::Lines::mc_line), using(text::proofs::Split::after_fields, crate::proofs::Numbers::ranged_in))]
fn mc_line(s: &[u8]) -> Result<Line, Wrong>
    ensures { result ≡ mc_line (from2 (fields_of s.now)) }
{
    let unit = number_at(s, 2, 0, 31)? as u8;
    let session = number_at(text::after(s), 3, 0, 255)? as u8;
    Ok(Line::Mc { unit, session })
}

// The kind of line that a word names. Tested in turn, as link and mode are: in a match on bytes each length and byte has an arm `_` of its own, 18
// here, and the check proves none of them.
#[tactic(auto, unfolding(crate::specs::Lines::word_of))]
fn word_of(word: &[u8]) -> Option<Kind>
    ensures { result ≡ word_of word.now }
{
    if text::is(word, b"bus") {
        return Some(Kind::Bus);
    }
    if text::is(word, b"unit") {
        return Some(Kind::Unit);
    }
    if text::is(word, b"vp") {
        return Some(Kind::Vp);
    }
    if text::is(word, b"drop") {
        return Some(Kind::Drop);
    }
    if text::is(word, b"page") {
        return Some(Kind::Page);
    }
    if text::is(word, b"vc") {
        return Some(Kind::Vc);
    }
    if text::is(word, b"mc") {
        return Some(Kind::Mc);
    }
    None
}

// How many fields a line of this kind has.
fn fields_in(kind: Kind) -> usize
    ensures { result ≡ count_of kind }
{
    match kind {
        Kind::Bus => 2,
        Kind::Unit => 10,
        Kind::Vp => 6,
        Kind::Drop => 3,
        Kind::Page => 4,
        Kind::Vc => 8,
        Kind::Mc => 3,
    }
}

// The line of this kind; s is what stands after its word.
#[tactic(auto, unfolding(crate::specs::Lines::line_of))]
fn line_of(kind: Kind, s: &[u8]) -> Result<Line, Wrong>
    ensures { result ≡ line_of kind (from2 (fields_of s.now)) }
{
    match kind {
        Kind::Bus => bus_line(s),
        Kind::Unit => unit_line(s),
        Kind::Vp => vp_line(s),
        Kind::Drop => drop_line(s),
        Kind::Page => page_line(s),
        Kind::Vc => vc_line(s),
        Kind::Mc => mc_line(s),
    }
}

// What a line says, or what is wrong with it. The text is the line without its newline; ended says whether it had one, fields how many it has.
#[tactic(auto, unfolding(crate::specs::Lines::reading_of, crate::specs::Lines::spoken), using(crate::proofs::Rests::line_rest))]
pub fn read(text: &[u8], ended: bool, fields: usize) -> Result<Line, Wrong>
    requires { fields ≡ length (fields_of text.now) }
    ensures { result ≡ reading_of text.now ended }
{
    if !ended {
        return Err(Wrong::Newline);
    }
    let Some(kind) = word_of(text::field(text, 1)) else {
        return Err(Wrong::Word);
    };
    if fields != fields_in(kind) {
        return Err(Wrong::Fields);
    }
    line_of(kind, text::after(text))
}
