// One unit for a person, its fields by name: `show unit` (docs/CONSOLE.md). Each function writes from a place on and says where it ends.
#![tactic(auto)]

ghost use Rattle.std.specs.Prelude.{◌≡◌, ◌+◌, ◌*◌, ◌≤◌, ◌<◌, ◌++◌, length};
ghost use Rattle.text.specs.Writing.{Wrote};
ghost use Rattle.text.specs.Decimals.{number_field};
ghost use Rattle.state.specs.Bytes.{col, place_by};
ghost use Rattle.named.specs.Named.{link_text, mode_text, settings_text, cbr_text, limits_text, inlet_text, four_text, ins_text, outs_text, session_text, sessions_text, front_text, rings_text, cells_text, place_text, unit_text};

// A name and the byte of a column.
fn put_column(
    out: &mut [u8],
    at: usize,
    name: &[u8],
    s: &[u8; 2048],
    column: usize,
    i: usize,
) -> usize
    requires { (column < 32) × (i < 32) × (at + length name.now + 21 ≤ length out.old) }
    ensures { Wrote out.old at (name.now ++ number_field (col s.now i column)) result out.new × (result ≤ at + length name.now + 21) }
{
    replies::say(out, at, name, state::at(s, column, i) as u64)
}

// The byte of a column alone.
fn put_more(out: &mut [u8], at: usize, s: &[u8; 2048], column: usize, i: usize) -> usize
    requires { (column < 32) × (i < 32) × (at + 21 ≤ length out.old) }
    ensures { Wrote out.old at (number_field (col s.now i column)) result out.new × (result ≤ at + 21) }
{
    text::put_number(out, at, state::at(s, column, i) as u64)
}

#[tactic(auto, unfolding(crate::specs::Named::link_text))]
fn put_link(out: &mut [u8], at: usize, byte: u8) -> usize
    requires { at + 30 ≤ length out.old }
    ensures { Wrote out.old at (link_text byte) result out.new × (result ≤ at + 30) }
{
    match byte {
        0 => text::put(out, at, b"\tlink\tuni"),
        1 => text::put(out, at, b"\tlink\tnni"),
        _ => replies::say(out, at, b"\tlink", byte as u64),
    }
}

#[tactic(auto, unfolding(crate::specs::Named::mode_text))]
fn put_mode(out: &mut [u8], at: usize, byte: u8) -> usize
    requires { at + 30 ≤ length out.old }
    ensures { Wrote out.old at (mode_text byte) result out.new × (result ≤ at + 30) }
{
    match byte {
        0 => text::put(out, at, b"\tmode\tone"),
        1 => text::put(out, at, b"\tmode\tfour"),
        _ => replies::say(out, at, b"\tmode", byte as u64),
    }
}

fn top_at(s: &[u8; 2048], i: usize) -> u16
    requires { i < 32 }
    ensures { result ≡ col s.now i 2 * 256 + col s.now i 3 }
{
    state::two_of(state::at(s, 2, i), state::at(s, 3, i))
}

fn put_settings(out: &mut [u8], at: usize, s: &[u8; 2048], i: usize) -> usize
    requires { (i < 32) × (at + 120 ≤ length out.old) }
    ensures { Wrote out.old at (settings_text (col s.now i)) result out.new × (result ≤ at + 120) }
{
    let numbered = put_column(out, at, b"show\tunit", s, 0, i);
    let linked = put_link(out, numbered, state::at(s, 1, i));
    let topped = replies::say(out, linked, b"\ttop", top_at(s, i) as u64);
    put_column(out, topped, b"\tpriority", s, 4, i)
}

fn put_cbr(out: &mut [u8], at: usize, s: &[u8; 2048], i: usize) -> usize
    requires { (i < 32) × (at + 70 ≤ length out.old) }
    ensures { Wrote out.old at (cbr_text (col s.now i)) result out.new × (result ≤ at + 70) }
{
    let long = put_column(out, at, b"\tcbrlength", s, 6, i);
    put_column(out, long, b"\tcbrlimit", s, 7, i)
}

fn put_limits(out: &mut [u8], at: usize, s: &[u8; 2048], i: usize) -> usize
    requires { (i < 32) × (at + 160 ≤ length out.old) }
    ensures { Wrote out.old at (limits_text (col s.now i)) result out.new × (result ≤ at + 160) }
{
    let moded = put_mode(out, at, state::at(s, 5, i));
    let limited = put_cbr(out, moded, s, i);
    let full = put_column(out, limited, b"\tvbrlimit", s, 8, i);
    put_column(out, full, b"\tmark", s, 9, i)
}

fn put_inlet(out: &mut [u8], at: usize, s: &[u8; 2048], i: usize) -> usize
    requires { (i < 32) × (at + 100 ≤ length out.old) }
    ensures { Wrote out.old at (inlet_text (col s.now i)) result out.new × (result ≤ at + 100) }
{
    let placed = replies::say(out, at, b"\tplace", state::place_at(s, i) as u64);
    let headed = put_column(out, placed, b"\tinlethead", s, 14, i);
    put_column(out, headed, b"\tinletcount", s, 15, i)
}

// Four columns under one name.
fn put_four(
    out: &mut [u8],
    at: usize,
    name: &[u8],
    s: &[u8; 2048],
    column: usize,
    i: usize,
) -> usize
    requires { (column < 29) × (i < 32) × (at + length name.now + 84 ≤ length out.old) }
    ensures { Wrote out.old at (four_text name.now (col s.now i) column) result out.new × (result ≤ at + length name.now + 84) }
{
    let first = put_column(out, at, name, s, column, i);
    let second = put_more(out, first, s, column + 1, i);
    let third = put_more(out, second, s, column + 2, i);
    put_more(out, third, s, column + 3, i)
}

// The processor's cell in the inlet, and the one that came back to it.
fn put_ins(out: &mut [u8], at: usize, s: &[u8; 2048], i: usize) -> usize
    requires { (i < 32) × (at + 70 ≤ length out.old) }
    ensures { Wrote out.old at (ins_text (col s.now i)) result out.new × (result ≤ at + 70) }
{
    let control = put_column(out, at, b"\tcontrolin", s, 26, i);
    put_column(out, control, b"\tloopbackin", s, 27, i)
}

// The control outlet, and the cell in the loopback outlet.
fn put_outs(out: &mut [u8], at: usize, s: &[u8; 2048], i: usize) -> usize
    requires { (i < 32) × (at + 110 ≤ length out.old) }
    ensures { Wrote out.old at (outs_text (col s.now i)) result out.new × (result ≤ at + 110) }
{
    let headed = put_column(out, at, b"\tcontrolhead", s, 28, i);
    let counted = put_column(out, headed, b"\tcontrolcount", s, 29, i);
    put_column(out, counted, b"\tloopbackout", s, 30, i)
}

// A session that is heard.
#[tactic(auto, unfolding(crate::specs::Named::session_text))]
fn put_session(out: &mut [u8], at: usize, sessions: [u8; 32], session: u8) -> usize
    requires { at + 21 ≤ length out.old }
    ensures { Wrote out.old at (session_text sessions session) result out.new × (result ≤ at + 21) }
{
    if shelf::hears(sessions, session) {
        return text::put_number(out, at, session as u64);
    }
    at
}

fn put_sessions(out: &mut [u8], at: usize, sessions: [u8; 32]) -> usize
    requires { at + 5400 ≤ length out.old }
    ensures { Wrote out.old at (sessions_text sessions) result out.new × (result ≤ at + 5400) }
{
    let mut next = text::put(out, at, b"\tsessions");
    for session in 0..256usize {
        next = put_session(out, next, sessions, session as u8);
    }
    next
}

// The settings and the limits.
fn put_front(out: &mut [u8], at: usize, s: &[u8; 2048], i: usize) -> usize
    requires { (i < 32) × (at + 280 ≤ length out.old) }
    ensures { Wrote out.old at (front_text (col s.now i)) result out.new × (result ≤ at + 280) }
{
    let set = put_settings(out, at, s, i);
    put_limits(out, set, s, i)
}

// The place of the records, the inlet and the queues.
fn put_rings(out: &mut [u8], at: usize, s: &[u8; 2048], i: usize) -> usize
    requires { (i < 32) × (at + 300 ≤ length out.old) }
    ensures { Wrote out.old at (rings_text (col s.now i)) result out.new × (result ≤ at + 300) }
{
    let inlet = put_inlet(out, at, s, i);
    let heads = put_four(out, inlet, b"\tqueueheads", s, 16, i);
    put_four(out, heads, b"\tqueuecounts", s, 20, i)
}

// All places of a unit that hold cells.
fn put_cells(out: &mut [u8], at: usize, s: &[u8; 2048], i: usize) -> usize
    requires { (i < 32) × (at + 480 ≤ length out.old) }
    ensures { Wrote out.old at (cells_text (col s.now i)) result out.new × (result ≤ at + 480) }
{
    let rings = put_rings(out, at, s, i);
    let ins = put_ins(out, rings, s, i);
    put_outs(out, ins, s, i)
}

// The unit in a place.
fn put_unit(out: &mut [u8], at: usize, s: &[u8; 2048], i: usize) -> usize
    requires { (i < 32) × (at + 6200 ≤ length out.old) }
    ensures { Wrote out.old at (place_text s.now i) result out.new × (result ≤ at + 6200) }
{
    let front = put_front(out, at, s, i);
    let cells = put_cells(out, front, s, i);
    put_sessions(out, cells, state::sessions_at(s, i))
}

// The unit with a number, or that none has it.
pub fn unit(out: &mut [u8], at: usize, s: &[u8; 2048], number: u8) -> usize
    requires { at + 6200 ≤ length out.old }
    ensures { Wrote out.old at (unit_text s.now number) result out.new }
{
    match state::find(s, number) {
        Some(i) => put_unit(out, at, s, i),
        None => text::put(out, at, b"show\tunit\trefused\t9"),
    }
}
