// A step of a whole system: 9 first, then the network and the one actor that the action touches are laid out as rows, the action is
// made on them, and they are laid back.
#![tactic(auto)]

ghost use Rattle.std.specs.Prelude.{◌≡◌, ◌<◌};
ghost use Rattle.types.specs.Capacities.{most_actors};
ghost use Rattle.rules.specs.Outcome.{base};
ghost use Rattle.rules.specs.System.{systems, act};
ghost use Rattle.sys_moves.specs.Views.{last_then};
ghost use Rattle.sys_system.specs.Views.{sys_view};
ghost use Rattle.sys_answered.specs.Views.{Ready, answered_of};
ghost use Rattle.sys_step.specs.Views.{Touchable, Touches, put_touched, step_of};

use answers::{Answer, Refusal, is_done};
use link_inner::Table;
use link_table_rows::rows_of;
use net_layout::cells_of;
use net_network::{Network, last_after, read_back};
use sys_act::{act, seat};
use sys_actor::Actor;
use sys_answered::Answered;
use sys_formed::well_formed;
use sys_layout::{actor_of, lay_out};
use sys_rows::{ActorRows, NetRows, TableRows};
use sys_system::System;
use types::{Action, Envelope, Kind};

// What an action leaves of network and actor. Where the answer is not Done, they are not to be used.
#[derive(Clone, Copy)]
struct Touched {
    answer: Answer,
    network: Network,
    actor: Actor,
}

// The last message after an action that is done: on the duplicating kind a Deliver sets it.
fn last_then(kind: Kind, a: Action, last: Option<Envelope>) -> Option<Envelope>
    ensures { result ≡ last_then kind a last }
{
    match a {
        Action::Deliver(e) => last_after(kind, e, last),
        Action::Drop(_) | Action::Timeout(_, _) | Action::Crash(_) | Action::Recover(_) => last,
    }
}

// Laid out, the action made in place, laid back.
fn touch(count: usize, n: Network, b: Actor, t: Table, a: Action) -> Touched
    requires { Touchable count n b t }
    ensures { Touches count a n b t result }
{
    let mut own = ActorRows::fresh();
    lay_out(b, &mut own);
    let table = TableRows {
        rows: rows_of(t),
        used: t.used,
    };
    let kind = n.kind;
    let mut net = NetRows {
        cells: cells_of(n.entries, n.used),
        kind,
        used: n.used,
        len: net_network::len(n),
    };
    let answer = act(&mut net, &mut own, &table, count, a);
    let before = n.last;
    let last = last_then(kind, a, before);
    Touched {
        answer,
        network: read_back(kind, &net.cells, net.used, last),
        actor: actor_of(&own),
    }
}

// Network and actor are put back in their places; a refusal hands back the system that came.
fn put_back(s: System, i: usize, t: Touched) -> Answered
    requires { i < most_actors }
    ensures { result ≡ put_touched s i t }
{
    let answer = t.answer;
    if !is_done(answer) {
        return Answered { answer, system: s };
    }
    let mut system = s;
    system.network = t.network;
    system.actors[i] = t.actor;
    Answered {
        answer: Ok(()),
        system,
    }
}

// The step of a system that is known to be well formed.
fn act_on(s: System, a: Action) -> Answered
    requires { Ready s }
    ensures { result ≡ answered_of s (systems (act base (sys_view s) a)) }
{
    let i = seat(s.count, a);
    let t = touch(s.count, s.network, s.actors[i], s.tables[i], a);
    put_back(s, i, t)
}

// Whatever the system holds.
pub fn step(s: System, a: Action) -> Answered
    ensures { result ≡ answered_of s (step_of s a) }
{
    if !well_formed(s) {
        return Answered {
            answer: Err(Refusal::NotWellFormed),
            system: s,
        };
    }
    act_on(s, a)
}
