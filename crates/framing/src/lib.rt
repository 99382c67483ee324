// Frame: first the loopback cells move, then requests, then the unit granted in the frame before sends and every declared unit hears it, then the
// grant.
#![tactic(auto)]

ghost use Rattle.std.specs.Prelude.{◌≡◌, ℕ, ◌<◌, ◌≤◌, min, List, length, replicate, slice_index};
ghost use Rattle.bus.specs.Frame.{heard_as};
ghost use Rattle.store.specs.Places.{slot_at, Inside};
ghost use Rattle.state.specs.Bytes.{unit_in, shelf_in};
ghost use Rattle.answer.specs.Done.{outcome_of};
ghost use Rattle.answer.specs.Answers.{queued_one, is_addressed, refused_with};
ghost use Rattle.soundness.specs.Admission.{Housed};
ghost use Rattle.hearing.specs.Hearings.{plan_of, fate_by, store_of};
ghost use Rattle.hearing.specs.InPlace.{state_by as heard_state};
ghost use Rattle.framing.specs.Moves.{moved_rises, moved_state, moved_store, moved_in, some_looped};
ghost use Rattle.framing.specs.Requests.{asking_now, asked_by, requests};
ghost use Rattle.framing.specs.Sending.{sent_rises, send_slot, sent_by, sent_store, sent_frame};
ghost use Rattle.framing.specs.Frames.{sender, listened_of, turn_store, turn_buffer, turn_done, done_at, store_at, buffer_at};
ghost use Rattle.framing.specs.Scenes.{tallied_by, unheeded, heeded_of, heeded_by, AllHousedIn};
ghost use Rattle.framing.specs.InPlace.{out_state, sent_state, state_by, turn_state, state_at, framed_by, frame_out, frame_state, frame_store_in, frame_buffer_in};

use answer::{Answer, Hearing};
use arbiter::Arbiter;
use bus::Address;
use card::Card;
use shelf::Unit;

// What the declared units make of a frame besides the counters that rise at each: how many copies were queued, whether some unit was addressed.
#[derive(Clone, Copy)]
pub struct Heeded {
    pub copies: u8,
    pub addressed: bool,
}

// What a frame comes to besides the counters that rise at each unit: the answer, and up to which row they rise.
#[derive(Clone, Copy)]
pub struct Framed {
    pub answer: Answer,
    pub to: usize,
}

// Whether a loopback cell stands in some outlet: mostly none does, and then nothing moves.
fn some_looped(s: &[u8; 2048]) -> bool
    ensures { result ≡ some_looped s.now 0 32 }
{
    let mut some = false;
    for i in 0..32 {
        some = some | (state::at(s, 30, i) != 0);
    }
    some
}

// The loopback cell of the unit in a place moves to the inlet, as a control cell, if one waits and the inlet's place is free. The counters that rise.
fn move_one(s: &mut [u8; 2048], i: usize, store: &mut [u8]) -> u16
    requires { (i < 32) × Inside i (length store.old) }
    ensures value { result ≡ moved_rises (unit_in s.old i) }
    ensures kept { (s.new ≡ moved_state s.old i) × (store.new ≡ moved_store (unit_in s.old i) i store.old) }
{
    if (state::at(s, 30, i) == 0) | (state::at(s, 27, i) != 0) {
        return 0;
    }
    let mut cell = [0; 56];
    octets::copy(
        store::get_cell(store, store::slot_at(i, store::LOOPBACK_OUT)),
        &mut cell,
        0,
    );
    bus::turn_back(&mut cell);
    store::put_cell(store, store::slot_at(i, store::LOOPBACK_IN), &cell);
    state::put_byte(s, 27, i, 1);
    state::put_byte(s, 30, i, 0);
    answer::TAKEN
}

// All loopback cells that can move do.
fn move_all(s: &mut [u8; 2048], store: &mut [u8], each: &mut [u16; 32])
    requires { AllHousedIn s.old (length store.old) × (each.old ≡ replicate 32 0) }
    ensures { (s.new ≡ (moved_in s.old store.old).bytes)
        × ((store.new ≡ (moved_in s.old store.old).store)
        × (each.new ≡ (moved_in s.old store.old).each)) }
{
    let end = shelf::declared_count(s[805]);
    for i in 0..end {
        each[i] = move_one(s, i, store);
    }
}

// What each declared unit asks now, by its number.
fn asking_now(s: &[u8; 2048]) -> [u8; 32]
    ensures { result ≡ asking_now (shelf_in s.now) }
{
    let end = shelf::declared_count(s[805]);
    let granted = s[803];
    let mut now = [0; 32];
    for i in 0..end {
        let number = state::at(s, 0, i);
        if number < 32 {
            now[number as usize] = arbiter::asking(
                state::at(s, 4, i),
                state::waiting_at(s, i),
                number == granted,
            );
        }
    }
    now
}

// The same by what is noted of each number in a sound state: a note by 4. By a `for` many go side by side; by `map` one at a time, a third more for a frame.
fn asks_noted(held: [u8; 32]) -> [u8; 32]
    ensures { result ≡ asked_by held }
{
    let mut asks = [0; 32];
    for i in 0..32 {
        asks[i] = held[i] % 4;
    }
    asks
}

// The loopback cells move. What each declared unit asks then: where none moves, as it was noted before.
fn settle(s: &mut [u8; 2048], store: &mut [u8], each: &mut [u16; 32], held: &[u8; 32]) -> [u8; 32]
    requires { AllHousedIn s.old (length store.old) × (each.old ≡ replicate 32 0) × (asked_by held.now ≡ asking_now (shelf_in s.old)) }
    ensures value { result ≡ asking_now (shelf_in (moved_in s.old store.old).bytes) }
    ensures kept { (s.new ≡ (moved_in s.old store.old).bytes)
        × ((store.new ≡ (moved_in s.old store.old).store)
        × (each.new ≡ (moved_in s.old store.old).each)) }
{
    if some_looped(s) {
        move_all(s, store, each);
        return asking_now(s);
    }
    asks_noted(*held)
}

// The requests of all declared units, of what they ask now.
fn renew_all(s: &[u8; 2048], asks: [u8; 32]) -> Arbiter
    requires { asks ≡ asking_now (shelf_in s.now) }
    ensures { result ≡ requests (shelf_in s.now) }
{
    let arbiter = state::arbiter_at(s);
    arbiter.renew(s[804], state::frame_at(s), asks)
}

// One for a copy that is queued.
#[tactic(auto, unfolding(answer::specs::Answers::queued_one))]
fn queued_one(fate: Hearing) -> u8
    ensures value { result ≡ queued_one fate }
    ensures small { result ≤ 1 }
{
    match fate {
        Hearing::Queued => 1,
        _ => 0,
    }
}

// Whether a frame with this fate at a unit is addressed to it.
#[tactic(auto, unfolding(answer::specs::Answers::is_addressed))]
fn is_addressed(fate: Hearing) -> bool
    ensures { result ≡ is_addressed fate }
{
    match fate {
        Hearing::Damaged | Hearing::Other => false,
        _ => true,
    }
}

// Every declared unit hears a frame of this cell, with this address. The counters that rise at each are written where the caller lends room for them, here and below.
fn hear_all(
    s: &mut [u8; 2048],
    address: Option<Address>,
    cell: &[u8],
    store: &mut [u8],
    each: &mut [u16; 32],
) -> Heeded
    requires { (length cell.now ≡ 56) × AllHousedIn s.old (length store.old) }
    ensures each_after { tallied_by result each.new ≡ (heeded_by (heard_as address cell.now) cell.now s.old store.old each.old).tally }
    ensures kept { (s.new ≡ (heeded_by (heard_as address cell.now) cell.now s.old store.old each.old).bytes)
        × (store.new ≡ (heeded_by (heard_as address cell.now) cell.now s.old store.old each.old).store) }
{
    let end = shelf::declared_count(s[805]);
    let mut copies: u8 = 0;
    let mut addressed = false;
    for i in 0..end {
        let fate = hearing::heed(s, i, address, cell, store);
        each[i] = each[i] | answer::hearing_rises(fate);
        copies = copies + queued_one(fate);
        addressed = addressed | is_addressed(fate);
    }
    Heeded { copies, addressed }
}

// The counters that rise at the sender besides those of its own copy.
fn sent_rises(addressed: bool) -> u16
    ensures { result ≡ sent_rises addressed }
{
    if addressed {
        answer::SENT
    } else {
        answer::SENT + answer::UNHEARD
    }
}

// The unit in a place is without the cell that it sends: the oldest data cell, else the control cell, else the loopback cell. Where that stands in the store.
fn let_out(s: &mut [u8; 2048], place: usize) -> usize
    requires { place < 32 }
    ensures value { result ≡ slot_at place (send_slot (unit_in s.old place)) }
    ensures kept { s.new ≡ out_state s.old place }
{
    let inlet = state::ring_at(s, 14, 15, place);
    if 1 <= inlet.count {
        state::put_ring(s, 14, 15, place, store::popped(inlet, Unit::INLET));
        return store::inlet_at(place, inlet.head);
    }
    if 1 <= state::at(s, 26, place) {
        state::put_byte(s, 26, place, 0);
        return store::slot_at(place, store::CONTROL_IN);
    }
    state::put_byte(s, 27, place, 0);
    store::slot_at(place, store::LOOPBACK_IN)
}

// The unit in a place sends a cell, and all hear it. The buffer that is lent has any length, and its test is the event's own: so it stays a slice with
// its length in the clause, here and below.
fn send(
    s: &mut [u8; 2048],
    place: usize,
    store: &mut [u8],
    buffer: &mut [u8],
    each: &mut [u16; 32],
) -> Heeded
    requires { (length buffer.old ≡ 57) × (place < min (slice_index s.old 805) 32) × AllHousedIn s.old (length store.old) }
    ensures each_after { tallied_by result each.new ≡ heeded_of (sent_by (shelf_in s.old) place store.old each.old) }
    ensures kept { (s.new ≡ sent_state s.old place store.old)
        × ((store.new ≡ sent_store (shelf_in s.old) place store.old)
        × (buffer.new ≡ sent_frame (shelf_in s.old) place store.old)) }
{
    let at = let_out(s, place);
    bus::seal(store::get_cell(store, at), buffer);
    let heeded = hear_all(
        s,
        hearing::address_of(&buffer[..56]),
        &buffer[..56],
        store,
        each,
    );
    each[place] = each[place] | sent_rises(heeded.addressed);
    heeded
}

// Nothing is heard.
fn silence() -> Heeded
    ensures { (each : List ℕ) → tallied_by result each ≡ unheeded each }
{
    Heeded {
        copies: 0,
        addressed: false,
    }
}

// The unit granted in the frame before sends, if there is one.
fn send_granted(
    s: &mut [u8; 2048],
    store: &mut [u8],
    buffer: &mut [u8],
    each: &mut [u16; 32],
) -> Heeded
    requires { (length buffer.old ≡ 57) × AllHousedIn s.old (length store.old) }
    ensures each_after { tallied_by result each.new ≡ heeded_of (listened_of (shelf_in s.old) store.old each.old) }
    ensures kept { (s.new ≡ state_by (sender (shelf_in s.old)) s.old store.old)
        × ((store.new ≡ turn_store (shelf_in s.old) store.old)
        × (buffer.new ≡ turn_buffer (shelf_in s.old) store.old buffer.old)) }
{
    match state::find(s, s[803]) {
        Some(place) => send(s, place, store, buffer, each),
        None => silence(),
    }
}

// Requests, sending and grant on a sound state, where this is asked and the moves counted what stands at each unit.
fn turn_on(
    s: &mut [u8; 2048],
    store: &mut [u8],
    buffer: &mut [u8],
    each: &mut [u16; 32],
    asks: [u8; 32],
) -> Framed
    requires { (length buffer.old ≡ 57) × AllHousedIn s.old (length store.old) × (asks ≡ asking_now (shelf_in s.old)) }
    ensures each_after { framed_by result each.new ≡ outcome_of (turn_done (shelf_in s.old) store.old each.old) }
    ensures kept { (s.new ≡ turn_state s.old store.old)
        × ((store.new ≡ turn_store (shelf_in s.old) store.old)
        × (buffer.new ≡ turn_buffer (shelf_in s.old) store.old buffer.old)) }
{
    let number = state::frame_at(s);
    let sender = s[803];
    let count = s[805];
    let requests = renew_all(s, asks);
    let heeded = send_granted(s, store, buffer, each);
    let grant = requests.grant();
    let arbiter = grant.arbiter;
    state::put_turn(s, arbiter, grant.unit, number.wrapping_add(1));
    let answer = Answer::Framed {
        number,
        sender,
        granted: grant.unit,
        copies: heeded.copies,
    };
    Framed {
        answer,
        to: count as usize,
    }
}

// A frame on a sound state, of which this is noted.
fn frame_on(
    s: &mut [u8; 2048],
    store: &mut [u8],
    buffer: &mut [u8],
    each: &mut [u16; 32],
    held: &[u8; 32],
) -> Framed
    requires { (length buffer.old ≡ 57) × AllHousedIn s.old (length store.old) × (each.old ≡ replicate 32 0) × (asked_by held.now ≡ asking_now (shelf_in s.old)) }
    ensures each_after { framed_by result each.new ≡ outcome_of (done_at (shelf_in s.old) store.old) }
    ensures kept { (s.new ≡ state_at s.old store.old)
        × ((store.new ≡ store_at (shelf_in s.old) store.old)
        × (buffer.new ≡ buffer_at (shelf_in s.old) store.old buffer.old)) }
{
    let asks = settle(s, store, each, held);
    turn_on(s, store, buffer, each, asks)
}

// A frame is refused with this number.
fn refused(number: u8) -> Framed
    ensures { framed_by result (replicate 32 0) ≡ refused_with number }
{
    Framed {
        answer: Answer::Refused(number),
        to: 0,
    }
}

// A frame; everything but the counter rows, of which there are so many. The room lent for the counters that rise at each unit holds zeros.
pub fn frame(
    card: Card,
    s: &mut [u8; 2048],
    store: &mut [u8],
    rows: usize,
    buffer: &mut [u8],
    each: &mut [u16; 32],
) -> Framed
    requires { each.old ≡ replicate 32 0 }
    ensures each_after { (framed_by result each.new ≡ frame_out card s.old store.old rows (length buffer.old))
        × ((s.new ≡ frame_state card s.old store.old rows (length buffer.old))
        × ((store.new ≡ frame_store_in card s.old store.old rows (length buffer.old))
        × (buffer.new ≡ frame_buffer_in card s.old store.old rows buffer.old))) }
    ensures fits { (result.to ≤ 32) × (result.to ≤ rows) }
{
    let mut held = [0; 32];
    if !soundness::sound(card, s, store.len(), rows, &mut held) {
        return refused(8);
    }
    if buffer.len() != 57 {
        return refused(10);
    }
    frame_on(s, store, buffer, each, &held)
}
