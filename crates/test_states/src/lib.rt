// For tests only: the output of a script, and the whole system after its start and after each of its actions, as a driver
// in another language can call them. The driver compares them with the Rust; what they promise here is only to be safe.
#![tactic(auto)]

ghost use Rattle.std.specs.Prelude.{◌≡◌, ◌++◌, ◌≤◌, length, drop, leb};
ghost use Rattle.lists.specs.Lists.{choose};
ghost use Rattle.rules.specs.Outcome.{base};
ghost use Rattle.rules.specs.Script.{versions, Fine, read_script};
ghost use Rattle.rules.specs.Program.{replay};
ghost use Rattle.script_check.specs.Views.{layout_of};
ghost use Rattle.test_states.specs.Views.{is_good};

use answers::is_done;
use replay_start::open;
use script_check::check_script;
use script_records::{format_of, read_action};
use sys_step::step;
use sys_system::System;
use test_dump::{SIZE, dump};
use types::Format;

#[unsafe(no_mangle)]
pub extern "C" fn states_replay(script: &[u8], out: &mut [u8]) -> usize
    ensures size { result ≡ length (replay base versions script.now) }
    ensures bytes { out.new ≡ choose (leb result (length out.old)) (replay base versions script.now ++ drop result out.old)
        out.old }
{
    replay_script::replay(script, out)
}

// The reading alone, for the benchmark: whether the layout is good.
#[unsafe(no_mangle)]
pub extern "C" fn states_reads(script: &[u8]) -> bool
    ensures { result ≡ is_good (layout_of (read_script versions script.now)) }
{
    check_script(script).is_ok()
}

// A system, if there is room for it.
fn put(out: &mut [u8], at: usize, s: System) -> usize
    requires { at ≤ length out.old }
    ensures { result ≤ length out.new }
{
    if out.len() - at < SIZE {
        return at;
    }
    dump(out, at, s)
}

// The actions from a place on, each by the step of a whole system. A loop: each record says where the next one begins.
fn states_from(
    script: &[u8],
    from: usize,
    f: Format,
    first: System,
    out: &mut [u8],
    place: usize,
) -> usize
    requires { Fine f × (place ≤ length out.old) }
    ensures { result ≤ length out.new }
{
    let mut s = first;
    let mut at = from;
    let mut end = place;
    loop {
        let Ok((action, after)) = read_action(script, at, f) else {
            return end;
        };
        let Some(a) = action else {
            return end;
        };
        let t = step(s, a);
        s = t.system;
        end = put(out, end, s);
        at = after;
    }
}

// For each answer, the start's first, the 10,409 bytes of the system after it, as long as there is room. Nothing for
// a script that cannot be read.
#[unsafe(no_mangle)]
pub extern "C" fn states_all(script: &[u8], out: &mut [u8]) -> usize
    ensures { result ≤ length out.new }
{
    if !states_reads(script) {
        return 0;
    }
    let o = open(script);
    let from = o.next;
    let version = o.version;
    let started = o.answered;
    let answer = started.answer;
    let s = started.system;
    let at = put(out, 0, s);
    if !is_done(answer) {
        return at;
    }
    let f = format_of(version);
    states_from(script, from, f, s, out, at)
}
