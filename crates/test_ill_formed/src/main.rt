// Tries a step on systems that are not well formed, each in one way, and writes the answer and whether the same system came back.
// Among them stand well-formed systems, a change away, on which the step is done: the answer is not always 9. Each line of
// the file `stdin` is a system: what it is called, and the way in which it is made (test_ill_formed_ways).
#![tactic(auto)]

ghost use Rattle.std.specs.Prelude.{◌≤◌, length};

use answers::number_of;
use replay_input::read_all;
use std::io;
use sys_step::step;
use sys_system::System;
use test_dump::{SIZE, dump};
use test_ill_formed_ways::made;
use types::{Action, Id};

// Whether both have the same bytes, and so are the same system but for its tables.
fn same_bytes(a: System, b: System) -> bool {
    let mut x = [0u8; SIZE];
    let mut y = [0u8; SIZE];
    dump(&mut x, 0, a);
    dump(&mut y, 0, b);
    x == y
}

// What came of a trial.
#[derive(Clone, Copy)]
struct Trial {
    answer: u64,
    same: bool,
}

// A crash of actor 0 is done in every well-formed system.
fn tried(s: System) -> Trial {
    let t = step(s, Action::Crash(Id(0)));
    let answer = t.answer;
    let back = t.system;
    Trial {
        answer: number_of(answer),
        same: same_bytes(s, back),
    }
}

fn tell(rt: &impl Print, name: &[u8], t: Trial) -> io::Result<()> {
    rt.write_all(name)?;
    let answer = t.answer;
    let system = if t.same { "same" } else { "changed" };
    println!(rt; ": {answer} {system}")
}

// The first place of a byte, or the end.
fn find(text: &[u8], byte: u8) -> usize
    ensures { result ≤ length text.now }
{
    text.iter().position(|&b| b == byte).unwrap_or(text.len())
}

// A line's colon is looked for first, and its end behind that. A loop: each line says where the next one begins.
fn run(rt: &impl Print, text: &[u8]) -> io::Result<()> {
    let mut rest = text;
    while !rest.is_empty() {
        let (name, behind) = rest.split_at(find(rest, b':'));
        let (way, end) = behind.split_at(find(behind, b'\n'));
        tell(rt, name, tried(made(way)))?;
        rest = end.get(1..).unwrap_or(&[]);
    }
    Ok(())
}

fn main(rt: HostRuntime) -> io::Result<()> {
    let mut text = [0u8; 8192];
    let size = read_all(&mut rt.stdin(), &mut text)?;
    run(&rt, &text[..size])
}
