// Loads at the edges of what a table, a memory, a store and a count of rows can be, and prints what came of each.
#![tactic(auto)]

use card::Card;
use std::io;
use table::Refusal;

fn show(rt: &impl Print, outcome: Result<u32, Refusal>) -> io::Result<()> {
    match outcome {
        Ok(used) => println!(rt; "ok {used}"),
        Err(Refusal { number, line }) => println!(rt; "refused {number} {line}"),
    }
}

fn tried(
    rt: &impl Print,
    name: &str,
    card: Card,
    text: &[u8],
    memory: &mut [u8],
    store: usize,
    rows: usize,
) -> io::Result<()> {
    print!(rt; "{name}: ")?;
    let mut state = [7u8; 2048];
    show(
        rt,
        table::load_text(card, text, memory, &mut state, store, rows),
    )
}

fn texts(rt: &impl Print) -> io::Result<()> {
    let mut m = [7u8; 16];
    tried(rt, "no byte", Card::Wide, b"", &mut m, 0, 0)?;
    tried(rt, "one byte", Card::Wide, b"b", &mut m, 0, 0)?;
    tried(rt, "65,536 bytes", Card::Wide, &[10u8; 65536], &mut m, 0, 0)?;
    tried(rt, "65,537 bytes", Card::Wide, &[10u8; 65537], &mut m, 0, 0)?;
    tried(rt, "bus alone", Card::Narrow, b"bus\t16\n", &mut m, 0, 0)?;
    tried(
        rt,
        "bus alone, not ended",
        Card::Narrow,
        b"bus\t16",
        &mut m,
        0,
        0,
    )?;
    tried(
        rt,
        "bus 32, narrow",
        Card::Narrow,
        b"bus\t32\n",
        &mut m,
        0,
        0,
    )?;
    tried(rt, "bus 32, wide", Card::Wide, b"bus\t32\n", &mut m, 0, 0)
}

// Prints the byte at a place, where there is one.
fn byte(rt: &impl Print, memory: &[u8], at: usize) -> io::Result<()> {
    match memory.get(at) {
        Some(byte) => println!(rt; "{byte}"),
        None => Ok(()),
    }
}

fn memories(rt: &impl Print) -> io::Result<()> {
    let text = b"bus\t16\nunit\t9\tuni\t0\t1\tone\t0\t0\t123\t0\ndrop\t9\t0\n";
    let mut none = [7u8; 0];
    let mut short = [7u8; 7];
    let mut exact = [7u8; 8];
    let mut more = [7u8; 262146];
    tried(
        rt,
        "memory of 0 bytes",
        Card::Wide,
        text,
        &mut none,
        8192,
        1,
    )?;
    tried(
        rt,
        "memory of 7 bytes",
        Card::Wide,
        text,
        &mut short,
        8192,
        1,
    )?;
    byte(rt, &short, 6)?;
    tried(
        rt,
        "memory of 8 bytes",
        Card::Wide,
        text,
        &mut exact,
        8192,
        1,
    )?;
    byte(rt, &exact, 0)?;
    tried(
        rt,
        "store of 8,191 bytes",
        Card::Wide,
        text,
        &mut exact,
        8191,
        1,
    )?;
    byte(rt, &exact, 0)?;
    tried(rt, "no row", Card::Wide, text, &mut exact, 8192, 0)?;
    tried(
        rt,
        "memory of 262,146 bytes",
        Card::Wide,
        text,
        &mut more,
        8192,
        1,
    )?;
    byte(rt, &more, 262143)?;
    byte(rt, &more, 262144)
}

fn units(rt: &impl Print) -> io::Result<()> {
    let mut m = [7u8; 256];
    tried(
        rt,
        "32 units",
        Card::Wide,
        b"bus\t32\nunit\t0\tnni\t0\t1\tone\t0\t0\t1\t0\nunit\t1\tnni\t0\t1\tone\t0\t0\t1\t0\nunit\t2\tnni\t0\t1\tone\t0\t0\t1\t0\nunit\t3\tnni\t0\t1\tone\t0\t0\t1\t0\nunit\t4\tnni\t0\t1\tone\t0\t0\t1\t0\nunit\t5\tnni\t0\t1\tone\t0\t0\t1\t0\nunit\t6\tnni\t0\t1\tone\t0\t0\t1\t0\nunit\t7\tnni\t0\t1\tone\t0\t0\t1\t0\nunit\t8\tnni\t0\t1\tone\t0\t0\t1\t0\nunit\t9\tnni\t0\t1\tone\t0\t0\t1\t0\nunit\t10\tnni\t0\t1\tone\t0\t0\t1\t0\nunit\t11\tnni\t0\t1\tone\t0\t0\t1\t0\nunit\t12\tnni\t0\t1\tone\t0\t0\t1\t0\nunit\t13\tnni\t0\t1\tone\t0\t0\t1\t0\nunit\t14\tnni\t0\t1\tone\t0\t0\t1\t0\nunit\t15\tnni\t0\t1\tone\t0\t0\t1\t0\nunit\t16\tnni\t0\t1\tone\t0\t0\t1\t0\nunit\t17\tnni\t0\t1\tone\t0\t0\t1\t0\nunit\t18\tnni\t0\t1\tone\t0\t0\t1\t0\nunit\t19\tnni\t0\t1\tone\t0\t0\t1\t0\nunit\t20\tnni\t0\t1\tone\t0\t0\t1\t0\nunit\t21\tnni\t0\t1\tone\t0\t0\t1\t0\nunit\t22\tnni\t0\t1\tone\t0\t0\t1\t0\nunit\t23\tnni\t0\t1\tone\t0\t0\t1\t0\nunit\t24\tnni\t0\t1\tone\t0\t0\t1\t0\nunit\t25\tnni\t0\t1\tone\t0\t0\t1\t0\nunit\t26\tnni\t0\t1\tone\t0\t0\t1\t0\nunit\t27\tnni\t0\t1\tone\t0\t0\t1\t0\nunit\t28\tnni\t0\t1\tone\t0\t0\t1\t0\nunit\t29\tnni\t0\t1\tone\t0\t0\t1\t0\nunit\t30\tnni\t0\t1\tone\t0\t0\t1\t0\nunit\t31\tnni\t0\t1\tone\t0\t0\t1\t0\n",
        &mut m,
        262144,
        32,
    )?;
    tried(
        rt,
        "33 unit lines",
        Card::Wide,
        b"bus\t32\nunit\t0\tnni\t0\t1\tone\t0\t0\t1\t0\nunit\t1\tnni\t0\t1\tone\t0\t0\t1\t0\nunit\t2\tnni\t0\t1\tone\t0\t0\t1\t0\nunit\t3\tnni\t0\t1\tone\t0\t0\t1\t0\nunit\t4\tnni\t0\t1\tone\t0\t0\t1\t0\nunit\t5\tnni\t0\t1\tone\t0\t0\t1\t0\nunit\t6\tnni\t0\t1\tone\t0\t0\t1\t0\nunit\t7\tnni\t0\t1\tone\t0\t0\t1\t0\nunit\t8\tnni\t0\t1\tone\t0\t0\t1\t0\nunit\t9\tnni\t0\t1\tone\t0\t0\t1\t0\nunit\t10\tnni\t0\t1\tone\t0\t0\t1\t0\nunit\t11\tnni\t0\t1\tone\t0\t0\t1\t0\nunit\t12\tnni\t0\t1\tone\t0\t0\t1\t0\nunit\t13\tnni\t0\t1\tone\t0\t0\t1\t0\nunit\t14\tnni\t0\t1\tone\t0\t0\t1\t0\nunit\t15\tnni\t0\t1\tone\t0\t0\t1\t0\nunit\t16\tnni\t0\t1\tone\t0\t0\t1\t0\nunit\t17\tnni\t0\t1\tone\t0\t0\t1\t0\nunit\t18\tnni\t0\t1\tone\t0\t0\t1\t0\nunit\t19\tnni\t0\t1\tone\t0\t0\t1\t0\nunit\t20\tnni\t0\t1\tone\t0\t0\t1\t0\nunit\t21\tnni\t0\t1\tone\t0\t0\t1\t0\nunit\t22\tnni\t0\t1\tone\t0\t0\t1\t0\nunit\t23\tnni\t0\t1\tone\t0\t0\t1\t0\nunit\t24\tnni\t0\t1\tone\t0\t0\t1\t0\nunit\t25\tnni\t0\t1\tone\t0\t0\t1\t0\nunit\t26\tnni\t0\t1\tone\t0\t0\t1\t0\nunit\t27\tnni\t0\t1\tone\t0\t0\t1\t0\nunit\t28\tnni\t0\t1\tone\t0\t0\t1\t0\nunit\t29\tnni\t0\t1\tone\t0\t0\t1\t0\nunit\t30\tnni\t0\t1\tone\t0\t0\t1\t0\nunit\t31\tnni\t0\t1\tone\t0\t0\t1\t0\nunit\t31\tnni\t0\t1\tone\t0\t0\t1\t0\n",
        &mut m,
        262144,
        32,
    )
}

fn main(rt: HostRuntime) -> io::Result<()> {
    texts(&rt)?;
    memories(&rt)?;
    units(&rt)
}
