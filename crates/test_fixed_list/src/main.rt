// Replays the list of scripts that its argument names, and writes how many there are, for how many of them the port's output is not
// the stored one, and which is the first of these.
#![tactic(auto)]

ghost use Rattle.std.specs.Prelude.{◌≡◌, length};

use replay_input::read_all;
use std::fs::OpenOptions;
use std::io::Read;
use std::rt::Files;
use std::{env, io};
use test_list_check::{Tally, check_list};

// A list that is longer is cut, and so differs.
fn room() -> [u8; 327680]
    ensures { 327680 ≡ length result }
{
    [0; 327680]
}

fn tell(rt: &impl Print, t: Tally) -> io::Result<()> {
    let scripts = t.scripts;
    let differ = t.differ;
    print!(rt; "{scripts} scripts, {differ} differ")?;
    if let Some(first) = t.first {
        print!(rt; ", first number {first}")?;
    }
    println!(rt)
}

fn replay_file<R: Read>(rt: &impl Print, reader: &mut R) -> io::Result<()> {
    let mut list = room();
    let size = read_all(reader, &mut list)?;
    tell(rt, check_list(&list[..size]))
}

fn main(rt: HostRuntime) -> io::Result<()> {
    let name = env::args(&rt)?
        .nth(1)
        .ok_or(io::Error::from(io::ErrorKind::NotFound))?;
    let mut list = rt.open_file(OpenOptions::new().read(true), name.as_str())?;
    replay_file(&rt, &mut list)
}
