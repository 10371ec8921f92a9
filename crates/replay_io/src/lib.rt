// Reads a script, has it replayed, and writes what comes out: all that the program does.
#![tactic(auto)]

ghost use Rattle.std.specs.Prelude.{◌≡◌, length, take};
ghost use Rattle.std.specs.Counts.{IsPrefixLen};
ghost use Rattle.rules.specs.Outcome.{base};
ghost use Rattle.rules.specs.Script.{versions};
ghost use Rattle.rules.specs.Program.{replay};
ghost use Rattle.replay_io.specs.Views.{Sized};

use replay_input::{Source, read_all, source_of};
use replay_script::{MOST_FRAME, MOST_LINE, replay};
use std::env::{Env, FillError};
use std::fs::OpenOptions;
use std::io;
use std::io::{ErrorKind, Read, Write};
use std::rt::Files;
use types::MOST_BYTES;

// One byte more is read than a script may have, since a longer script is refused by its length alone.
const SCRIPT: usize = MOST_BYTES + 1;

// As much as `replay_script::room_for` has for the longest script, so that every output fits and nothing is measured first.
const OUTPUT: usize = MOST_FRAME + MOST_LINE * MOST_BYTES;

// A longer name is none of a file.
const PATH: usize = 4096;

// The system's number for a name that is too long, ENAMETOOLONG.
const NAME_TOO_LONG: i32 = 36;

fn script_room() -> [u8; SCRIPT]
    ensures { 65537 ≡ length result }
{
    [0; SCRIPT]
}

fn output_room() -> [u8; OUTPUT]
    ensures { Sized 1507488 result }
{
    [0; OUTPUT]
}

// Has the script replayed: the output stands at the start of the buffer, and always fits.
fn put_output(script: &[u8], room: &mut [u8]) -> usize
    requires { Sized 1507488 room.old }
    ensures counts { IsPrefixLen result room.new }
    ensures bytes { take result room.new ≡ replay base versions script.now }
{
    replay(script, room)
}

// The system's words for an error, in what std writes for it: they stand before its number, and else before the first 0.
fn words_of(text: &str) -> &str {
    let cut = text.split_once(" (os error ").or(text.split_once('\0'));
    cut.map_or(text, |(words, _)| words)
}

// Says on standard error what failed, as the caller names it, and why.
fn fail(rt: &HostRuntime, what: &str, error: io::Error) {
    let mut text = [0; 256];
    let _ = write!(&mut text[..], "{error}");
    let words = words_of(str::from_utf8(&text).unwrap_or(""));
    let _ = eprintln!(rt; "{what}: {words}");
}

// Writes the output of the script. It asks for the script so that nothing else can be handed to it.
fn write_output(rt: &HostRuntime, script: &[u8], out: &[u8])
    requires { out.now ≡ replay base versions script.now }
{
    if let Err(e) = rt.write_all(out) {
        fail(rt, "standard output", e);
    }
}

fn write_replay(rt: &HostRuntime, script: &[u8]) {
    let mut room = output_room();
    let size = put_output(script, &mut room);
    write_output(rt, script, &room[..size]);
}

// What cannot be read is said on standard error under its name, and nothing is written to standard output.
fn replay_from<F: Read>(rt: &HostRuntime, reader: &mut F, name: &str) {
    let mut room = script_room();
    match read_all(reader, &mut room) {
        Ok(size) => write_replay(rt, &room[..size]),
        Err(e) => fail(rt, name, e),
    }
}

// How many arguments there are. That there is one is seen without room for it.
fn arg_count(rt: &HostRuntime) -> usize {
    (0..usize::MAX)
        .find(|&i| matches!(rt.arg(i, &mut []), Err(FillError::NotPresent)))
        .unwrap_or(usize::MAX)
}

// Replays the script that the program's arguments ask for.
pub fn replay_asked(rt: &HostRuntime) {
    match source_of(arg_count(rt)) {
        Source::Input => replay_from(rt, &mut rt.stdin(), "standard input"),
        Source::Argument => replay_argument(rt),
        Source::Wrong => {
            let _ = eprintln!(rt; "usage: replay [FILE]");
        }
    }
}

// The name that the first argument is, in the buffer that is lent for it.
fn script_name<'a>(rt: &HostRuntime, path: &'a mut [u8]) -> io::Result<&'a str> {
    let size = rt
        .arg(1, path)
        .map_err(|_| io::Error::from_raw_os_error(NAME_TOO_LONG))?;
    str::from_utf8(&path[..size]).map_err(|_| io::Error::new(ErrorKind::InvalidData, "not UTF-8"))
}

// Replays the script in the file that the first argument names. The file is opened by the handle's own method, and not by
// std's `File::open`, since that stands on the C functions under all that can be done with files.
fn replay_argument(rt: &HostRuntime) {
    let mut path = [0; PATH];
    match script_name(rt, &mut path) {
        Ok(name) => match rt.open_file(OpenOptions::new().read(true), name) {
            Ok(mut file) => replay_from(rt, &mut file, name),
            Err(e) => fail(rt, name, e),
        },
        Err(e) => fail(rt, "the script's name", e),
    }
}
