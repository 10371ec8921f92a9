// Any action on lent rows: those of the network, and of the actor that it touches. A step and a run are made of this.
#![tactic(auto)]

ghost use Rattle.std.specs.Prelude.{◌≡◌, ◌≤◌, length, ltb};
ghost use Rattle.types.specs.Capacities.{most_actors};
ghost use Rattle.net_rows.specs.Views.{NetReady};
ghost use Rattle.link_rows.specs.Rows.{row_size};
ghost use Rattle.sys_rows.specs.Rows.{listed_rules, RulesLaid};
ghost use Rattle.sys_moves.specs.Views.{sent_in, FineIn, SteppedIn};
ghost use Rattle.sys_act.specs.Seats.{target, seat, seat_of, Dropped, unheard_of, crashed_row};

use answers::{Answer, Refusal};
use link_rows::ROW;
use sys_rows::{ActorRows, NetRows, TableRows};
use types::{Action, Envelope, Id};

// ---- which actor an action touches
fn actor_of(a: Action) -> Id
    ensures { result ≡ target a }
{
    match a {
        Action::Deliver(e) | Action::Drop(e) => e.dst,
        Action::Timeout(i, _) | Action::Crash(i) | Action::Recover(i) => i,
    }
}

fn known(count: usize, i: Id) -> bool
    ensures { result ≡ ltb i.0 count }
{
    (i.0 as usize) < count
}

// Its place among `count` actors. Where there is none, the first actor's place: its rows are not looked at then.
pub fn seat(count: usize, a: Action) -> usize
    ensures { result ≡ seat count a }
{
    let i = actor_of(a);
    if known(count, i) { i.0 as usize } else { 0 }
}

// ---- the actions that need no rule
fn drop(net: &mut NetRows, count: usize, e: Envelope) -> Answer
    requires { NetReady net.old.kind net.old.cells net.old.used net.old.len }
    ensures { Dropped net.old.kind e count net.old.used net.old.len net.old.cells (sent_in result net.new) net.new.cells
        × (net.new.kind ≡ net.old.kind) }
{
    if !known(count, e.src) {
        return Err(Refusal::OutOfRange);
    }
    let s = net_rows::on_drop(&mut net.cells, net.kind, net.used, net.len, e);
    net.used = s.used;
    net.len = s.len;
    s.answer
}

// Timers are cleared and the actor is marked.
fn crash(live: &mut [u64; ROW])
    requires { length live.old ≡ row_size }
    ensures { live.new ≡ crashed_row live.old }
{
    live[5] = 1;
    live[6] = 0;
}

// Nobody there: 2 for the source of a message, and else Ignored; 2 for the others.
fn unheard(count: usize, e: Envelope) -> Answer
    ensures { result ≡ unheard_of count e }
{
    if known(count, e.src) {
        Err(Refusal::Ignored)
    } else {
        Err(Refusal::OutOfRange)
    }
}

// ---- any action, among `count` actors, on the rows of the one at its seat
// A Drop goes on where its destination is nobody, and a Deliver asks its source first, so each arm has its own test.
pub fn act(
    net: &mut NetRows,
    actor: &mut ActorRows,
    table: &TableRows,
    count: usize,
    a: Action,
) -> Answer
    requires { FineIn net.old actor.old × RulesLaid table.now × (count ≤ most_actors) }
    ensures { SteppedIn count a (seat_of count a) (listed_rules table.now) net.old actor.old result net.new actor.new }
{
    let i = actor_of(a);
    let here = known(count, i);
    match a {
        Action::Deliver(e) => {
            if !here {
                return unheard(count, e);
            }
            sys_deliver::deliver(net, actor, table, count, e)
        }
        Action::Drop(e) => drop(net, count, e),
        Action::Timeout(j, timer) => {
            if !here {
                return Err(Refusal::OutOfRange);
            }
            sys_timeout::timeout(net, actor, table, j, timer)
        }
        Action::Crash(_) => {
            if !here {
                return Err(Refusal::OutOfRange);
            }
            crash(&mut actor.live);
            Ok(())
        }
        Action::Recover(j) => {
            if !here {
                return Err(Refusal::OutOfRange);
            }
            sys_wake::recover(net, actor, table, j)
        }
    }
}
