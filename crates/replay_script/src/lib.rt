// The replay of a script: the exact bytes of the program, put into a lent buffer.
#![tactic(auto)]

ghost use Rattle.std.specs.Prelude.{◌≡◌, [], ◌∷◌, ◌++◌, ◌≤◌, length, drop, leb};
ghost use Rattle.lists.specs.Lists.{choose};
ghost use Rattle.types.specs.Capacities.{most_bytes};
ghost use Rattle.rules.specs.Outcome.{base};
ghost use Rattle.rules.specs.Script.{versions, read_script};
ghost use Rattle.rules.specs.Program.{line, bad_word, replay};
ghost use Rattle.script_check.specs.Views.{layout_of};
ghost use Rattle.replay_lines.specs.Pieces.{Fits, Piece};
ghost use Rattle.replay_script.specs.Views.{longest, Told};

use answers::{is_done, number_of};
use replay_lines::{bad_line, done_line, start_line};
use replay_run::run;
use replay_start::open;
use script_check::check_script;
use script_places::BadAt;
use script_records::format_of;

// The most bytes that the first line and the last have together, of 80 each. They frame the lines of the actions.
pub const MOST_FRAME: usize = 160;

// The most bytes that the line of an action has: a digit, a blank, the 20 digits of a length, and the end of the line.
pub const MOST_LINE: usize = 23;

// A script whose layout is good: the start, and if it is done the run. With `write` false it is only measured, as its lines are.
fn tell_run(script: &[u8], out: &mut [u8], write: bool) -> usize
    requires { (layout_of (read_script versions script.now) ≡ Ok tt) × Fits write 0 (replay base versions script.now) out.old }
    ensures { Piece write 0 (replay base versions script.now) out.old result out.new }
{
    let o = open(script);
    let from = o.next;
    let version = o.version;
    let answer = o.answered.answer;
    let s = o.answered.system;
    let network = s.network;
    let number = number_of(answer);
    let len = net_network::len(network);
    let at = start_line(out, 0, write, number, len);
    if !is_done(answer) {
        return done_line(out, at, write, 0, 0, 0);
    }
    let f = format_of(version);
    run(script, from, f, s, out, at, write)
}

// How long the output of a script of so many bytes can be at most, if its layout is good.
fn room_for(bytes: usize) -> usize
    requires { bytes ≤ most_bytes }
    ensures { result ≡ longest bytes }
{
    MOST_FRAME + MOST_LINE * bytes
}

// Where the buffer is long enough for any script of this length, the output is not measured first. Measuring before writing stands
// here and in `put_bad`: in one function that takes it as a closure, the clauses would have to name the text, which is no parameter.
fn put_run(script: &[u8], out: &mut [u8]) -> usize
    requires { layout_of (read_script versions script.now) ≡ Ok tt }
    ensures { Told (replay base versions script.now) out.old result out.new }
{
    if room_for(script.len()) <= out.len() {
        return tell_run(script, out, true);
    }
    let size = tell_run(script, out, false);
    if size <= out.len() {
        return tell_run(script, out, true);
    }
    size
}

fn put_bad(out: &mut [u8], place: usize) -> usize
    ensures { Told (line bad_word (place ∷ [])) out.old result out.new }
{
    let number = place as u64;
    let size = bad_line(out, 0, false, number);
    if size <= out.len() {
        return bad_line(out, 0, true, number);
    }
    size
}

// Answers how long the output is. It stands at the start of the buffer if it fits there; else nothing was written.
pub fn replay(script: &[u8], out: &mut [u8]) -> usize
    ensures size { result ≡ length (replay base versions script.now) }
    ensures bytes { out.new ≡ choose (leb result (length out.old)) (replay base versions script.now ++ drop result out.old)
        out.old }
{
    match check_script(script) {
        Ok(()) => put_run(script, out),
        Err(BadAt(place)) => put_bad(out, place),
    }
}
