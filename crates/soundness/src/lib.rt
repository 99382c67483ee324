// When lent bytes are a sound state; and what every event asks before anything else.
#![tactic(auto)]

ghost use Rattle.std.specs.Prelude.{◌≡◌, ℕ, ◌+◌, ◌-◌, ◌*◌, ◌/◌, ◌%◌, ◌^◌, ◌<◌, ◌≤◌, true, ◌&&◌, ◌⊎◌, length, if◌then◌else◌, ◌==◌, ◌≢◌, nat_eq, nat_le, slice_index};
ghost use Rattle.outlet.specs.Outlets.{between, ring_fits};
ghost use Rattle.state.specs.Bytes.{col, ring_by};
ghost use Rattle.soundness.specs.State.{roomy as roomy_in, nobody_or};
ghost use Rattle.soundness.specs.Lanes.{highest_link, lesser, settings_at, limits_at, rings_at, fixed_at, lane_at, lane_good, lanes};
ghost use Rattle.soundness.specs.Numbered.{standing as standing_of, note_at, Notes, place_in, marks, ask_in, asks_held, grant_in, cells_in, how_many, Word, noted_by, noted_in, none, held_in, numbers_good};
ghost use Rattle.soundness.specs.Soundings.{sound_in, looked};
ghost use Rattle.soundness.specs.Admission.{admitted_in, counted_in};

use arbiter::NOBODY;
use card::Card;
use outlet::Outlet;
use shelf::Unit;

// Whether the bus has a size, and there is room for its units.
fn roomy(bus: u8, count: u8, store: usize, rows: usize) -> bool
    ensures { result ≡ roomy_in bus count store rows }
{
    let units = count as usize;
    ((bus == 16) | (bus == 32)) & (count <= 32) & (store::PART * units <= store) & (units <= rows)
}

// The highest link byte of the card.
fn highest_link(card: Card) -> u8
    ensures { result ≡ highest_link card }
{
    match card {
        Card::Narrow => 0,
        Card::Wide => 1,
    }
}

// How much n is over the most that it may be: 0 where it is not. This and the next two are std's methods under names whose clauses say it in tests.
fn over(n: u8, most: u8) -> u8
    ensures { (result ≡ n - most) × ((result == 0) ≡ nat_le n most) }
{
    n.saturating_sub(most)
}

// The greater of two: 0 where both are.
fn worse(a: u8, b: u8) -> u8
    ensures { (result == 0) ≡ (a == 0 && b == 0) }
{
    a.max(b)
}

fn least(a: u8, b: u8) -> u8
    ensures { result ≡ lesser a b }
{
    a.min(b)
}

// What goes with a byte of 0, or with another.
fn by(byte: u8, zero: u8, other: u8) -> u8
    ensures { result ≡ (if nat_eq byte 0 then zero else other) }
{
    if byte == 0 { zero } else { other }
}

// How much n is outside of these two.
fn outside(low: u8, high: u8, n: u8) -> u8
    ensures { (result == 0) ≡ between low high n }
{
    worse(over(low, n), over(n, high))
}

// The ring in two columns, of this capacity; one of none has both at 0.
fn ring_over(s: &[u8; 2048], i: usize, h: usize, c: usize, capacity: u8) -> u8
    requires { (i < 32) × (h < 32) × (c < 32) }
    ensures { (result == 0) ≡ ring_fits (ring_by (col s.now i) h c) capacity }
{
    worse(
        over(state::at(s, h, i), over(capacity, 1)),
        over(state::at(s, c, i), capacity),
    )
}

// The settings of a unit. A top VPI to 255 has 0 in its high byte, one to 4,095 at most 15.
fn settings_over(s: &[u8; 2048], i: usize, links: u8, last: u8) -> u8
    requires { i < 32 }
    ensures { (result == 0) ≡ settings_at links last (col s.now i) }
{
    let link = state::at(s, 1, i);
    worse(
        worse(over(state::at(s, 0, i), last), over(link, links)),
        worse(
            over(state::at(s, 2, i), by(link, 0, 15)),
            outside(1, 3, state::at(s, 4, i)),
        ),
    )
}

// The limits but the mark: the mode is 1 exactly where there is a CBR length.
fn limits_over(s: &[u8; 2048], i: usize) -> u8
    requires { i < 32 }
    ensures { (result == 0) ≡ limits_at (col s.now i) }
{
    let mode = state::at(s, 5, i);
    let cbrlength = state::at(s, 6, i);
    let some = least(cbrlength, 1);
    let vbrmost = by(mode, Outlet::ONE, over(Outlet::SHARED, cbrlength));
    worse(
        outside(some, some, mode),
        worse(
            outside(mode, cbrlength, state::at(s, 7, i)),
            outside(1, vbrmost, state::at(s, 8, i)),
        ),
    )
}

// The four rings of the outlet, of which mode one has one.
fn rings_over(s: &[u8; 2048], i: usize) -> u8
    requires { i < 32 }
    ensures { (result == 0) ≡ rings_at (col s.now i) }
{
    let mode = state::at(s, 5, i);
    let cbrlength = state::at(s, 6, i);
    let vbrlength = by(mode, 0, over(Outlet::SHARED, cbrlength));
    worse(
        ring_over(s, i, 16, 20, by(mode, Outlet::ONE, Outlet::CONTROL)),
        worse(
            ring_over(s, i, 17, 21, cbrlength),
            worse(
                ring_over(s, i, 18, 22, vbrlength),
                ring_over(s, i, 19, 23, by(mode, 0, Outlet::ABR)),
            ),
        ),
    )
}

// The greater of two columns: at most a number where both are.
fn greater_at(s: &[u8; 2048], i: usize, a: usize, b: usize) -> u8
    requires { (i < 32) × (a < 32) × (b < 32) }
    ensures { (n : ℕ) → nat_le result n ≡ (nat_le (col s.now i a) n && nat_le (col s.now i b) n) }
{
    state::at(s, a, i).max(state::at(s, b, i))
}

// What has one bound in every unit: inlet and control outlet have four places each, the mark and the single places are 0 or 1. Bytes with the same bound
// share a test.
fn fixed_over(s: &[u8; 2048], i: usize) -> u8
    requires { i < 32 }
    ensures { (result == 0) ≡ fixed_at (col s.now i) }
{
    worse(
        worse(
            over(greater_at(s, i, 14, 28), Unit::INLET - 1),
            over(greater_at(s, i, 15, 29), Unit::INLET),
        ),
        over(greater_at(s, i, 9, 26).max(greater_at(s, i, 27, 30)), 1),
    )
}

// A place's worst: 0 where its bytes are those of a unit that fits. All tests are made, and of bytes: many places are judged at once.
fn lane(s: &[u8; 2048], i: usize, links: u8, last: u8) -> u8
    requires { i < 32 }
    ensures { (result == 0) ≡ lane_at links last (col s.now i) }
{
    worse(
        settings_over(s, i, links, last),
        worse(limits_over(s, i), worse(rings_over(s, i), fixed_over(s, i))),
    )
}

// Up to where places are judged, 16 of them at a time: no unit is declared behind.
fn reach(count: u8) -> usize
    ensures upper_bound { (result ≤ 32) × ((count ≤ result) ⊎ (result ≡ 32)) }
    ensures even { (result ≡ 16) ⊎ (result ≡ 32) }
{
    if count <= 16 { 16 } else { 32 }
}

// Whether each declared unit fits by itself. Of the places that are judged those past the count are not asked.
fn units_good(s: &[u8; 2048], card: Card, bus: u8, count: u8) -> bool
    requires { 0 < bus }
    ensures { result ≡ lanes (lane_good card bus s.now) count 0 32 }
{
    let links = highest_link(card);
    let last = over(bus, 1);
    let end = reach(count);
    let mut worst: u8 = 0;
    for i in 0..end {
        worst = worse(worst, least(over(count, i as u8), lane(s, i, links, last)));
    }
    worst == 0
}

// The cells of a unit that are granted.
fn taken(number: u8, granted: u8) -> u8
    ensures { result ≡ (if nat_eq number granted then 1 else 0) }
{
    u8::from(number == granted)
}

// How a unit stands: its priority, or 0 without a cell besides a granted one. By 4, as any byte may stand there until the places are judged.
fn standing(priority: u8, cells: u8, number: u8, granted: u8) -> u8
    ensures { result ≡ standing_of priority cells number granted }
{
    if taken(number, granted) < cells {
        priority % 4
    } else {
        0
    }
}

// How many cells wait in the inlet of the unit in a place. By 256, as any byte may stand there until the places are judged.
fn cells(s: &[u8; 2048], i: usize) -> u8
    requires { i < 32 }
    ensures { result ≡ cells_in s.now i }
{
    let control = state::at(s, 26, i);
    let loopback = state::at(s, 27, i);
    state::at(s, 15, i)
        .wrapping_add(control)
        .wrapping_add(loopback)
}

// What is noted of the unit in a place: 128, 4 times the place, and how it stands; 0 past the declared units. Bytes and no Option: 16 places are noted
// in one go.
fn note(s: &[u8; 2048], i: usize, granted: u8, count: u8) -> u8
    requires { i < 32 }
    ensures { result ≡ note_at granted count s.now i }
{
    let place = i as u8;
    let stands = standing(state::at(s, 4, i), cells(s, i), state::at(s, 0, i), granted);
    by(over(count, place), 0, 128 + 4 * place + stands)
}

// The same of each place.
fn notes(s: &[u8; 2048], granted: u8, count: u8) -> [u8; 32]
    ensures { Notes granted count s.now result }
{
    let mut each = [0; 32];
    for (i, noted) in each.iter_mut().enumerate() {
        *noted = note(s, i, granted, count);
    }
    each
}

// The place that was noted.
fn place_of(note: u8) -> usize
    ensures { (result ≡ place_in note) × (result < 32) }
{
    (note / 4 % 32) as usize
}

// Whether it is nobody or one that is declared.
fn nobody_or(held: &[u8; 32], number: u8) -> bool
    ensures { result ≡ nobody_or (marks held.now) number }
{
    if number < 32 {
        128 <= held[number as usize]
    } else {
        number == NOBODY
    }
}

// Whether nobody is granted, or one with a cell.
fn grant_held(s: &[u8; 2048], held: &[u8; 32], granted: u8) -> bool
    ensures { result ≡ grant_in (cells_in s.now) held.now granted }
{
    if granted < 32 {
        let note = held[granted as usize];
        (128 <= note) & (1 <= cells(s, place_of(note)))
    } else {
        granted == NOBODY
    }
}

// 0 where the two are the same.
fn unlike(a: u8, b: u8) -> u8
    ensures { (result == 0) ≡ (a == b) }
{
    u8::from(a != b)
}

// 0 where a number asks for nothing, or at its priority and with a cell besides a granted one: a standing of 0 is no request.
fn unheld(ask: u8, note: u8) -> u8
    ensures { (result == 0) ≡ ask_in ask note }
{
    by(ask, 0, unlike(ask, note % 4))
}

// Whether each request is held by a unit.
fn asks_held(held: &[u8; 32], asks: [u8; 32]) -> bool
    ensures { result ≡ asks_held held.now 0 asks }
{
    let mut worst: u8 = 0;
    for (i, ask) in asks.iter().enumerate() {
        worst = worse(worst, unheld(*ask, held[i]));
    }
    worst == 0
}

// How many numbers have a note.
fn how_many(held: &[u8; 32]) -> u8
    ensures { result ≡ how_many held.now }
{
    let mut n: u8 = 0;
    for note in held {
        n += *note / 128;
    }
    n
}

// Four notes as one number, the first lowest; and so eight. What was written in words is best read in words: byte by byte each waits for the whole.
fn four_of(each: &[u8; 32], at: usize) -> u32
    requires { at ≤ 28 }
    ensures { Word 4 each.now at result }
{
    u32::from_le_bytes(std::array::from_fn(|k| each[at + k]))
}

fn eight_of(each: &[u8; 32], at: usize) -> u64
    requires { at ≤ 24 }
    ensures { Word 8 each.now at result }
{
    u64::from(four_of(each, at)) | (u64::from(four_of(each, at + 4)) * 4294967296)
}

// Notes eight places, each in its number's place, the last of them first. By 32, as the numbers are judged after it: until then the notes have reached
// memory, and can be read in words.
fn note_8(s: &[u8; 2048], word: u64, from: usize, held: &mut [u8; 32])
    requires { from ≤ 24 }
    ensures { (notes : ℕ → ℕ) → ((k : ℕ) → k < 8 → word / 2 ^ (8 * k) % 256 ≡ notes (from + k)) → held.new ≡ noted_by notes s.now held.old from 8 }
{
    for k in (0..8).rev() {
        held[(state::at(s, 0, from + k) % 32) as usize] = ((word >> (8 * k)) % 256) as u8;
    }
}

// Notes each declared unit in its number's place. Places past them are noted too, with nothing and before all others, so that no loop ends by the count.
fn note_all(s: &[u8; 2048], held: &mut [u8; 32])
    requires { (slice_index s.now 805 ≤ 32) × (held.old ≡ none) }
    ensures { held.new ≡ noted_in s.now }
{
    let each = notes(s, s[803], s[805]);
    // a `for` over the blocks backwards takes an instruction more for each block, 3 of 335 where 16 units are judged and 5 of 506 where 32 are
    let mut from = reach(s[805]);
    while 0 < from {
        from -= 8;
        note_8(s, eight_of(&each, from), from, held);
    }
}

// Whether as many numbers have a note as there are units, so none twice; and the open grant, the last grants and the requests are such as the units
// could have.
fn numbers_good(s: &[u8; 2048], held: &[u8; 32]) -> bool
    ensures { result ≡ numbers_good s.now held.now }
{
    (how_many(held) == s[805])
        & (grant_held(s, held, s[803])
            & (nobody_or(held, s[800]) & nobody_or(held, s[801]) & nobody_or(held, s[802]))
            & asks_held(held, state::asks_at(s)))
}

// What is noted of the unit with this number, 0 where none has it; 1 of a state that is not sound. The notes of all numbers stand where the caller
// lends room for them, which holds zeros. Each unit by itself, all places at once; then by number.
fn look(card: Card, s: &[u8; 2048], store: usize, rows: usize, unit: u8, held: &mut [u8; 32]) -> u8
    requires { held.old ≡ none }
    ensures value { result ≡ looked card s.now store rows unit }
    ensures noted { (result ≢ 1) → held.new ≡ held_in s.now }
{
    let bus = s[804];
    let count = s[805];
    if !roomy(bus, count, store, rows) {
        return 1;
    }
    note_all(s, held);
    if !units_good(s, card, bus, count) {
        return 1;
    }
    if !numbers_good(s, held) {
        return 1;
    }
    if unit < 32 { held[unit as usize] } else { 0 }
}

// Whether a state is sound; and then what is noted of each number, so that a frame need not walk the units again to see who asks.
pub fn sound(card: Card, s: &[u8; 2048], store: usize, rows: usize, held: &mut [u8; 32]) -> bool
    requires { held.old ≡ none }
    ensures value { result ≡ sound_in card s.now store rows }
    ensures noted { result ≡ true → held.new ≡ held_in s.now }
{
    look(card, s, store, rows, 0, held) != 1
}

// The place of the unit with this number where an event is let in there, or the number of the refusal; whether its slice has the right length.
pub fn admit(
    card: Card,
    s: &[u8; 2048],
    store: usize,
    rows: usize,
    unit: u8,
    right: bool,
) -> Result<usize, u8>
    ensures { result ≡ admitted_in card s.now store rows unit right }
{
    let mut held = [0; 32];
    let note = look(card, s, store, rows, unit, &mut held);
    if note == 1 {
        return Err(8);
    }
    if note == 0 {
        return Err(9);
    }
    if !right {
        return Err(10);
    }
    Ok(place_of(note))
}

// Which row is read for the unit with this number, or the number of the refusal.
pub fn counted(card: Card, s: &[u8; 2048], store: &[u8], rows: usize, unit: u8) -> Result<usize, u8>
    ensures { result ≡ counted_in card s.now (length store.now) rows unit }
{
    admit(card, s, store.len(), rows, unit, true)
}
