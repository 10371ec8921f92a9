// A Deliver on lent rows: 2, Ignored for the destination, then the message to the link: an Ack, one that is only acked, or one that is taken.
#![tactic(auto)]

ghost use Rattle.std.specs.Prelude.{◌≡◌, ℕ, ◌≤◌, ◌<◌};
ghost use Rattle.types.specs.Capacities.{most_actors, last_state};
ghost use Rattle.types.specs.declared.Action.TheVariants as action;
ghost use Rattle.types.specs.declared.Message.TheVariants as message;
ghost use Rattle.net_rows.specs.Views.{last_after};
ghost use Rattle.sys_rows.specs.Rows.{listed_rules, RulesLaid};
ghost use Rattle.sys_moves.specs.Views.{rows_in, passed_by, FineIn, ActedIn, EndedIn, SteppedIn};
ghost use Rattle.sys_deliver.specs.Views.{handed_to, taker_of};

use answers::{Answer, Refusal};
use link_tables::{deciding, state_after};
use sys_moves::{ack_only, on_ack, on_message};
use sys_rows::{ActorRows, NetRows, TableRows};
use types::{Envelope, Id, Message, Number, Payload};

// The rule that takes a message: a newer number than the last one, and a rule that does not ignore it. Else the count of rules,
// as `deciding` answers, and the definition of the taker is made so.
fn rule_for(table: &TableRows, number: u64, last: u64, state: u64, payload: u64) -> usize
    requires { RulesLaid table.now × (state ≤ last_state) }
    ensures { (source : Id) → result ≡ taker_of number last state source payload table.now.rows table.now.used }
{
    if number <= last {
        table.used
    } else {
        // Event 2: a message.
        deciding(&table.rows, table.used, 2, state, payload)
    }
}

// Acked, and nothing more.
fn pass_by(net: &mut NetRows, actor: &ActorRows, e: Envelope, number: Number) -> Answer
    requires { FineIn net.old actor.now }
    ensures { ActedIn e.dst (passed_by net.old.kind e number net.old.used
        (rows_in net.old.cells actor.now)) (last_after net.old.kind e) net.old actor.now result net.new actor.now }
{
    let timers = actor.live[6] as u32;
    let s = ack_only(
        &mut net.cells,
        net.kind,
        net.used,
        net.len,
        timers,
        e,
        number,
    );
    net.used = s.used;
    net.len = s.len;
    s.answer
}

// A message with a number and a payload.
fn hear(
    net: &mut NetRows,
    actor: &mut ActorRows,
    table: &TableRows,
    e: Envelope,
    number: Number,
    payload: Payload,
) -> Answer
    requires { FineIn net.old actor.old × RulesLaid table.now
        × (e.src.0 < most_actors) }
    ensures { (count : ℕ) → EndedIn e.dst count (listed_rules table.now)
        (handed_to net.old.kind e (message.Deliver number payload) net.old.used
        (rows_in net.old.cells actor.old) (listed_rules table.now))
        (last_after net.old.kind e) net.old actor.old result net.new actor.new }
{
    let state = actor.live[7];
    let source = e.src;
    let last = actor.live[8 + source.0 as usize];
    let at = rule_for(table, number.0, last, state, payload.0 as u64);
    if table.used <= at {
        return pass_by(net, actor, e, number);
    }
    let next = state_after(&table.rows[at], state);
    on_message(net, actor, &table.rows[at], e, number, payload.0, next)
}

// To an actor that is there: 2 for the source, Ignored where it is crashed.
pub fn deliver(
    net: &mut NetRows,
    actor: &mut ActorRows,
    table: &TableRows,
    count: usize,
    e: Envelope,
) -> Answer
    requires { FineIn net.old actor.old × RulesLaid table.now
        × (count ≤ most_actors) }
    ensures { SteppedIn count (action.Deliver e) e.dst (listed_rules table.now) net.old actor.old result net.new actor.new }
{
    let source = e.src;
    if count <= (source.0 as usize) {
        return Err(Refusal::OutOfRange);
    }
    if actor.live[5] % 2 == 1 {
        return Err(Refusal::Ignored);
    }
    match e.msg {
        Message::Ack(n) => on_ack(net, actor, e, n),
        Message::Deliver(n, p) => hear(net, actor, table, e, n, p),
    }
}
