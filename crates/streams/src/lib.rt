// What the programs read and write: bytes in and out, and what failed, said on standard error as C says it.
#![tactic(auto)]

ghost use Rattle.std.specs.Prelude.{◌≡◌, ◌<◌, ◌≤◌, length, take, IfSome, MatchOption};
ghost use Rattle.std.specs.Io.KnownBytes.{Keeps, Consumes, IsAtEnd};

use std::env::Env;
use std::io;
use std::io::Read;

// Says on standard error what failed, a colon and why. An error of the system has its number behind it in brackets, which is left out.
pub fn fail(rt: &(impl Eprint + Alloc), what: &str, why: io::Error) {
    let Ok(text) = format!(in rt.alloc(); "{why}") else {
        let _ = eprintln!(rt; "{what}: {why}");
        return;
    };
    match text.split_once(" (os error ") {
        Some((reason, _)) => {
            let _ = eprintln!(rt; "{what}: {reason}");
        }
        None => {
            let _ = eprintln!(rt; "{what}: {text}");
        }
    }
}

// Writes all of the bytes to standard output, or says that they are lost.
pub fn put(rt: &(impl Print + Eprint + Alloc), bytes: &[u8]) -> bool {
    match rt.write_all(bytes) {
        Ok(()) => true,
        Err(why) => {
            fail(rt, "standard output", why);
            false
        }
    }
}

// One read: how many bytes came to the front of the buffer, none at the end of the input. Where it fails that is said, and there is no number.
pub fn get<R: Read>(
    rt: &(impl Eprint + Alloc),
    from: &mut R,
    what: &str,
    buffer: &mut [u8],
) -> Option<usize>
    ensures in_bounds { IfSome result (λ n. n ≤ length buffer.new) }
    ensures bytes { MatchOption result (Keeps (R.remaining from.old) (R.remaining from.new)) (λ n. Consumes (R.remaining from.old) (R.remaining from.new) (take n buffer.new)) }
    ensures end { IfSome result (λ n. n ≡ 0 → 0 < length buffer.new → IsAtEnd (R.remaining from.new)) }
{
    match from.read(buffer) {
        Ok(n) => Some(n),
        Err(why) => {
            fail(rt, what, why);
            None
        }
    }
}

// Reads until the input ends or the buffer is full: how many bytes came to its front. Where a read fails that is said, and there is no number.
pub fn get_all<R: Read>(
    rt: &(impl Eprint + Alloc),
    from: &mut R,
    what: &str,
    buffer: &mut [u8],
) -> Option<usize>
    ensures in_bounds { IfSome result (λ n. n ≤ length buffer.new) }
    ensures bytes { IfSome result (λ n. Consumes (R.remaining from.old) (R.remaining from.new) (take n buffer.new)) }
    ensures end { IfSome result (λ n. n < length buffer.new → IsAtEnd (R.remaining from.new)) }
{
    let mut n: usize = 0;
    while n < buffer.len() {
        let more = get(rt, from, what, &mut buffer[n..])?;
        if more == 0 {
            return Some(n);
        }
        n += more;
    }
    Some(n)
}

// The program's first argument, to the front of the word; how long it is, 0 where there is none or it is longer.
pub fn argument(rt: &impl Env, word: &mut [u8]) -> usize
    ensures { result ≤ length word.new }
{
    rt.arg(1, word).unwrap_or(0)
}
