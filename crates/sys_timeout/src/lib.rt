// A Timeout on lent rows. The Network timer sends again what is pending; a user's timer goes, and its rule's commands are run.
#![tactic(auto)]

ghost use Rattle.std.specs.Prelude.{◌≡◌, true, List, ℕ, ◌<◌, get_or};
ghost use Rattle.types.specs.Capacities.{network};
ghost use Rattle.types.specs.declared.Rule.{Rule};
ghost use Rattle.types.specs.declared.Action.TheVariants.{Timeout};
ghost use Rattle.rules.specs.Timers.{is_set};
ghost use Rattle.link_timers.specs.Views.{listed};
ghost use Rattle.sys_rows.specs.Rows.{listed_rules, RulesLaid};
ghost use Rattle.sys_moves.specs.Views.{FineIn, SteppedIn};

use answers::{Answer, Refusal};
use link_tables::deciding;
use link_timers::Timers;
use sys_moves::by_rule;
use sys_resends::resend_all;
use sys_rows::{ActorRows, NetRows, TableRows};
use types::{Id, MOST_PENDING, NETWORK};

// The Network timer, which is set: ignored with nothing pending, else every pending message is sent again. It is set afterwards as before.
fn on_network(net: &mut NetRows, actor: &ActorRows, me: Id) -> Answer
    requires { FineIn net.old actor.now × (is_set network (listed (get_or actor.now.live 6 0)) ≡ true) }
    ensures { (count : ℕ) (rs : List Rule) → SteppedIn count (Timeout me network) me rs net.old actor.now result net.new actor.now }
{
    let n = actor.live[1] as usize;
    if n == 0 {
        return Err(Refusal::Ignored);
    }
    let s = resend_all(
        &mut net.cells,
        net.kind,
        net.used,
        net.len,
        actor.live[6] as u32,
        me,
        &actor.pend,
        n,
        MOST_PENDING,
    );
    net.used = s.used;
    net.len = s.len;
    s.answer
}

// A user's timer, which is set: it goes, and its rule's commands are run. The state stays as it was.
fn on_user(net: &mut NetRows, actor: &mut ActorRows, table: &TableRows, me: Id, timer: u8) -> Answer
    requires { FineIn net.old actor.old × RulesLaid table.now
        × (timer < network) × (is_set timer (listed (get_or actor.old.live 6 0)) ≡ true) }
    ensures { (count : ℕ) → SteppedIn count (Timeout me timer) me (listed_rules table.now) net.old actor.old result net.new actor.new }
{
    let set = actor.live[6] as u32;
    let state = actor.live[7];
    let cut = Timers(set).cancel(timer);
    let timers = cut.timers;
    let rest = timers.0;
    // Event 3: a timeout.
    let at = deciding(&table.rows, table.used, 3, state, timer as u64);
    if table.used <= at {
        actor.live[6] = rest as u64;
        return Ok(());
    }
    by_rule(
        net,
        actor,
        &table.rows[at],
        rest,
        me,
        Id(0),
        timer as u32,
        state,
    )
}

// A Timeout of an actor that is there, among whatever number of them.
pub fn timeout(
    net: &mut NetRows,
    actor: &mut ActorRows,
    table: &TableRows,
    i: Id,
    timer: u8,
) -> Answer
    requires { FineIn net.old actor.old × RulesLaid table.now }
    ensures { (count : ℕ) → SteppedIn count (Timeout i timer) i (listed_rules table.now) net.old actor.old result net.new actor.new }
{
    if NETWORK < timer {
        return Err(Refusal::OutOfRange);
    }
    if !Timers(actor.live[6] as u32).is_set(timer) {
        return Err(Refusal::NotSet);
    }
    if timer == NETWORK {
        return on_network(net, actor, i);
    }
    on_user(net, actor, table, i, timer)
}
