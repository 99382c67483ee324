// Bytes as text: the fields of a text, parted by one byte; decimal numbers and hex digits, read from a slice and written into one; the FNV-1a sum;
// what a person may have got wrong in a line.
#![tactic(auto)]

ghost use Rattle.std.specs.Prelude.{◌≡◌, ◌+◌, ◌<◌, ◌≤◌, ◌*◌, ◌/◌, length, drop, true, IfOk};
ghost use Rattle.octets.specs.Octets.{splice};
ghost use Rattle.text.specs.Text.{line_from, at, split, fields_of, field_of, after_of, same};
ghost use Rattle.text.specs.Digits.{digits as digits_of, decimal_of};
ghost use Rattle.text.specs.Hex.{hex_digit, is_hex, unhex as unhexed, capital as capital_of, hex_of};
ghost use Rattle.text.specs.Writing.{Wrote};
ghost use Rattle.text.specs.Decimals.{decimal as in_decimal, number_field, number_fields, number_of};
ghost use Rattle.text.specs.Fnv.{step as stepped, sum as sum_of};
ghost use Rattle.text.specs.Slips.{has as has_byte, ends_in, slip_of};

const TAB: u8 = b'\t';

const NEWLINE: u8 = b'\n';

// Where the field that starts at from ends: at the next byte that parts fields, or at the end.
pub fn field_end(s: &[u8], from: usize, parting: u8) -> usize
    requires { from ≤ length s.now }
    ensures { (result ≡ from + length (at (split parting (drop from s.now)) 0)) × (result ≤ length s.now) }
{
    match s[from..].iter().position(move |b| *b == parting) {
        Some(n) => from + n,
        None => s.len(),
    }
}

// Part f of a text, counted as 1 from the first, and an empty one where there is none.
pub fn part(s: &[u8], f: u64, parting: u8) -> &[u8]
    ensures { result.now ≡ field_of f (split parting s.now) }
{
    let before = f.saturating_sub(1) as usize;
    s.split(move |b| *b == parting).nth(before).unwrap_or(&[])
}

// Field f, counted from the word as 1, and an empty one where there is none.
pub fn field(s: &[u8], f: u8) -> &[u8]
    ensures { result.now ≡ field_of f (fields_of s.now) }
{
    part(s, u64::from(f), TAB)
}

// What stands after the first field, and the empty text where nothing does.
pub fn after(s: &[u8]) -> &[u8]
    ensures { result.now ≡ after_of s.now }
{
    let e = field_end(s, 0, TAB);
    if e < s.len() {
        return &s[e + 1..];
    }
    &s[e..e]
}

// How many fields s has.
pub fn count(s: &[u8]) -> usize
    ensures { result ≡ length (fields_of s.now) }
{
    // by `split` a long line takes 1.4 times the time
    let mut n: usize = 1;
    for b in s {
        if *b == TAB {
            n += 1;
        }
    }
    n
}

// Where a line ends, and how many fields it has.
#[derive(Clone, Copy)]
pub struct Stretch {
    pub end: usize,
    pub fields: usize,
}

// The line that starts at from: both in one pass.
pub fn line_at(s: &[u8], from: usize) -> Stretch
    requires { from ≤ length s.now }
    ensures { (result.end ≡ from + length (line_from s.now from)) × (result.end ≤ length s.now) × (result.fields ≡ length (fields_of (line_from s.now from))) }
{
    let mut fields: usize = 1;
    for (n, b) in s[from..].iter().enumerate() {
        match *b {
            NEWLINE => {
                return Stretch {
                    end: from + n,
                    fields,
                };
            }
            TAB => fields += 1,
            _ => {}
        }
    }
    Stretch {
        end: s.len(),
        fields,
    }
}

// Whether two texts are the same.
pub fn is(s: &[u8], w: &[u8]) -> bool
    ensures { result ≡ same s.now w.now }
{
    s == w
}

// Whether all bytes are digits.
fn digits(s: &[u8]) -> bool
    ensures { result ≡ digits_of s.now }
{
    s.iter().all(|b| b.is_ascii_digit())
}

// Whether s is a decimal number without needless zeros.
pub fn decimal(s: &[u8]) -> bool
    ensures { result ≡ decimal_of s.now }
{
    match s.first() {
        None => false,
        Some(b'0') => s.len() == 1,
        Some(_) => digits(s),
    }
}

// The value of a hex digit.
#[tactic(auto, using(std::proofs::lemmas::Bool::Decides::nat_tests), unfolding(crate::specs::Hex::hex_digit))]
fn hex_digit(b: u8) -> u8
    requires { hex_digit b < 16 }
    ensures { result ≡ hex_digit b }
{
    match b {
        b'0'..=b'9' => b - b'0',
        b'A'..=b'F' => b - b'A' + 10,
        _ => b - b'a' + 10,
    }
}

// Whether s is pairs of hex digits.
pub fn is_hex(s: &[u8]) -> bool
    ensures { result ≡ is_hex s.now }
{
    let even = s.len() % 2 == 0;
    even && s.iter().all(|b| b.is_ascii_hexdigit())
}

// Writes the bytes that the pairs of s say, from place at on.
pub fn unhex(s: &[u8], out: &mut [u8], at: usize)
    requires { (is_hex s.now ≡ true) × (at + length s.now / 2 ≤ length out.old) }
    ensures { out.new ≡ splice out.old at (unhexed s.now) }
{
    for i in 0..s.len() / 2 {
        out[at + i] = hex_digit(s[2 * i]) * 16 + hex_digit(s[2 * i + 1]);
    }
}

// A capital hex digit.
#[tactic(auto, using(std::proofs::lemmas::Bool::Decides::nat_tests), unfolding(crate::specs::Hex::capital))]
fn capital(d: u8) -> u8
    requires { d ≤ 15 }
    ensures { result ≡ capital_of d }
{
    if d < 10 { 48 + d } else { 55 + d }
}

// Writes bytes as pairs of capital hex digits, and says where they end.
pub fn put_hex(out: &mut [u8], at: usize, bytes: &[u8]) -> usize
    requires { at + 2 * length bytes.now ≤ length out.old }
    ensures { Wrote out.old at (hex_of bytes.now) result out.new × (result ≡ at + 2 * length bytes.now) }
{
    for (i, b) in bytes.iter().enumerate() {
        out[at + 2 * i] = capital(*b / 16);
        out[at + 2 * i + 1] = capital(*b % 16);
    }
    at + 2 * bytes.len()
}

// Why a text is no number that was asked for.
#[derive(Clone, Copy, Debug, PartialEq, Eq)]
pub enum NotNumber {
    // a number above the most that is asked for
    Above,
    Malformed,
}

// Writes a text, and says where it ends.
pub fn put(out: &mut [u8], at: usize, text: &[u8]) -> usize
    requires { at + length text.now ≤ length out.old }
    ensures { Wrote out.old at text.now result out.new }
{
    octets::copy(text, out, at);
    at + text.len()
}

// Writes n in decimal, and says where it ends.
pub fn put_decimal(out: &mut [u8], at: usize, n: u64) -> usize
    requires { at + 20 ≤ length out.old }
    ensures { Wrote out.old at (in_decimal n) result out.new × (result ≤ at + 20) }
{
    let mut digits = [0u8; 20];
    let mut left = n;
    let mut k: usize = 20;
    // No count: it ends where no digits are left.
    while 9 < left {
        k -= 1;
        digits[k] = 48 + (left % 10) as u8;
        left = left / 10;
    }
    k -= 1;
    digits[k] = 48 + left as u8;
    put(out, at, &digits[k..])
}

// Writes a tab and n in decimal, and says where they end.
pub fn put_number(out: &mut [u8], at: usize, n: u64) -> usize
    requires { at + 21 ≤ length out.old }
    ensures { Wrote out.old at (number_field n) result out.new × (result ≤ at + 21) }
{
    let next = put(out, at, b"\t");
    put_decimal(out, next, n)
}

// Writes numbers, each behind a tab, and says where they end.
pub fn put_numbers(out: &mut [u8], at: usize, numbers: &[u64]) -> usize
    requires { at + 21 * length numbers.now ≤ length out.old }
    ensures { Wrote out.old at (number_fields numbers.now) result out.new × (result ≤ at + 21 * length numbers.now) }
{
    let mut next = at;
    for n in numbers {
        next = put_number(out, next, *n);
    }
    next
}

// The number that s says, if it is at most most.
pub fn number(s: &[u8], most: u64) -> Result<u64, NotNumber>
    ensures says { result ≡ number_of most s.now }
    ensures within { IfOk result (λ n. n ≤ most) }
{
    if !decimal(s) {
        return Err(NotNumber::Malformed);
    }
    let mut v: u64 = 0;
    for byte in s {
        let digit = (*byte - b'0') as u64;
        // that v * 10 + digit is above most, said without a sum that wraps
        if most < digit || (most - digit) / 10 < v {
            return Err(NotNumber::Above);
        }
        v = v * 10 + digit;
    }
    Ok(v)
}

// The sum after one byte more.
fn step(sum: u32, byte: u8) -> u32
    ensures { result ≡ stepped sum byte }
{
    (sum ^ u32::from(byte)).wrapping_mul(16777619)
}

// The sum of all bytes.
pub fn fnv(bytes: &[u8]) -> u32
    ensures { result ≡ sum_of bytes.now }
{
    let mut sum: u32 = 2166136261;
    for byte in bytes {
        sum = step(sum, *byte);
    }
    sum
}

// What a person may have got wrong in a line of fields.
#[derive(Clone, Copy, Debug, PartialEq, Eq)]
pub enum Slip {
    Blanks,
    Return,
    Both,
}

const BLANK: u8 = b' ';

const RETURN: u8 = b'\r';

// Whether a byte stands in s.
fn has(s: &[u8], byte: u8) -> bool
    ensures { result ≡ has_byte byte s.now }
{
    s.contains(&byte)
}

// Whether a byte stands at the end of s.
fn ends_in(s: &[u8], byte: u8) -> bool
    ensures { result ≡ ends_in byte s.now }
{
    s.last() == Some(&byte)
}

// Blanks where tabs should be, or a line end of two bytes.
#[tactic(auto, unfolding(crate::specs::Slips::slip_of))]
pub fn slip_in(s: &[u8]) -> Option<Slip>
    ensures { result ≡ slip_of s.now }
{
    match (ends_in(s, RETURN), has(s, BLANK)) {
        (true, true) => Some(Slip::Both),
        (true, false) => Some(Slip::Return),
        (false, true) => Some(Slip::Blanks),
        (false, false) => None,
    }
}
