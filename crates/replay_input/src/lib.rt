// Reading a script from a reader, and where the program is to read it from. No contract can say of every reader what a read gave. What
// follows from it is decided by a function of its own, with an equation.
#![tactic(auto)]

ghost use Rattle.std.specs.Prelude.{◌≡◌, ◌+◌, ◌<◌, ◌≤◌, IfOk, OnErr, length, take, drop};
ghost use Rattle.std.specs.Io.{ReadsAtMost};
ghost use Rattle.std.specs.Io.KnownBytes.{Consumes, IsAtEnd, ReadConsumes};
ghost use Rattle.replay_input.specs.Views.{next_of, ConsumesPart, source_of};

use std::io;
use std::io::Read;
use std::ops::ControlFlow;

// One read, from the place `at` on. What stands before that place stays, and what was read stands behind it.
fn read_on<R: Read>(reader: &mut R, script: &mut [u8], at: usize) -> io::Result<usize>
    requires { at ≤ length script.old }
    ensures kept { take at script.new ≡ take at script.old }
    ensures within { IfOk result (λ n. at + n ≤ length script.new) }
    ensures bytes { ReadConsumes (R.remaining reader.old) (R.remaining reader.new) result (drop at script.new) }
{
    reader.read(&mut script[at..])
}

// What follows a read at the place `at`, in a buffer of `room` bytes. Where it failed, its error and nothing more. Where the input ends
// or the buffer is full, a `Break` with how many bytes were read in all; else a `Continue` with the place of the next read.
#[tactic(auto, unfolding(crate::specs::Views::next_of))]
fn next_after(
    got: io::Result<usize>,
    at: usize,
    room: usize,
) -> io::Result<ControlFlow<usize, usize>>
    requires { IfOk got (λ n. at + n ≤ room) }
    ensures { result ≡ next_of got at room }
{
    match got? {
        0 => Ok(ControlFlow::Break(at)),
        n if at + n < room => Ok(ControlFlow::Continue(at + n)),
        n => Ok(ControlFlow::Break(at + n)),
    }
}

// Reads until nothing follows, and answers how many bytes stand at the buffer's start. The first read that fails is the last one: its
// error is the answer. A loop: what a read gives decides whether there is another.
#[tactic(auto, using(crate::proofs::Laws::fails))]
pub fn read_all<R: Read>(reader: &mut R, script: &mut [u8]) -> io::Result<usize>
    ensures within { ReadsAtMost result script.new }
    ensures bytes { IfOk result (λ n. Consumes (R.remaining reader.old) (R.remaining reader.new) (take n script.new)) }
    ensures end { IfOk result (λ n. n < length script.new → IsAtEnd (R.remaining reader.new)) }
    ensures err { OnErr result (ConsumesPart (R.remaining reader.old) (R.remaining reader.new) script.new) }
{
    let mut at = 0;
    loop {
        let got = read_on(reader, script, at);
        match next_after(got, at, script.len())? {
            ControlFlow::Continue(place) => at = place,
            ControlFlow::Break(size) => return Ok(size),
        }
    }
}

// Where the script is: on standard input, in the file that the one argument names, or nowhere, since there are more arguments.
#[derive(Clone, Copy, Debug, PartialEq, Eq)]
pub enum Source {
    Input,
    Argument,
    Wrong,
}

// The program's own name is counted too.
#[tactic(auto, using(crate::proofs::Laws::is_input, crate::proofs::Laws::is_wrong), unfolding(crate::specs::Views::source_of))]
pub fn source_of(count: usize) -> Source
    ensures { result ≡ source_of count }
{
    match count {
        0..=1 => Source::Input,
        2 => Source::Argument,
        _ => Source::Wrong,
    }
}
