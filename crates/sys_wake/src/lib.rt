// A start and a recovery on lent rows: the live rows are loaded from what is stored, and the rule of a start runs on them.
#![tactic(auto)]

ghost use Rattle.std.specs.Prelude.{◌≡◌, ℕ, ◌<◌, length, get_or};
ghost use Rattle.types.specs.Capacities.{network};
ghost use Rattle.types.specs.declared.Action.TheVariants.{Recover};
ghost use Rattle.rules.specs.Timers.{set_timer};
ghost use Rattle.link_timers.specs.Views.{listed};
ghost use Rattle.link_tables.specs.Rows.{start_event, start_value};
ghost use Rattle.link_rows.specs.Rows.{row_size, durable_in};
ghost use Rattle.sys_rows.specs.Rows.{RowsLaid, listed_rules, RulesLaid};
ghost use Rattle.sys_moves.specs.Views.{FineIn, SteppedIn, WokenIn};
ghost use Rattle.sys_wake.specs.Starts.{begun, Loaded, saved_in, start_row};

use answers::{Answer, Refusal, is_done};
use link_tables::first_match;
use link_timers::Timers;
use rows::copy_rows;
use sys_moves::by_rule;
use sys_rows::{ActorRows, NetRows, TableRows, fresh_row, put_marks};
use types::{Id, NETWORK};

// ---- what is stored becomes live
// The live rows become what is stored, or the fresh durable part where nothing is. Mark and timers stay.
fn load(actor: &mut ActorRows)
    requires { RowsLaid actor.old.live actor.old.pend × RowsLaid actor.old.kept actor.old.stored }
    ensures { Loaded actor.old.live actor.old.kept actor.old.stored actor.new.live actor.new.pend
        × (actor.new.kept ≡ actor.old.kept) × (actor.new.stored ≡ actor.old.stored) }
{
    let crashed = actor.live[5];
    let timers = actor.live[6];
    if actor.kept[5] == 0 {
        actor.live = fresh_row();
        actor.live[5] = crashed;
        put_marks(&mut actor.live, timers, 0);
        return;
    }
    actor.live = actor.kept;
    actor.live[5] = crashed;
    put_marks(&mut actor.live, timers, 0);
    copy_rows(&actor.stored, &mut actor.pend, actor.kept[1] as usize);
}

// ---- the rule of a start
// The timers with Network set.
fn with_network(timers: u32) -> u32
    ensures { listed result ≡ set_timer network (listed timers) }
{
    Timers(timers).set(NETWORK).timers.0
}

// The event of a start: 0 where the inner actor has saved nothing, else 1.
fn start_event(live: &[u64]) -> u64
    requires { length live.now ≡ row_size }
    ensures { result ≡ start_event (saved_in live.now) }
{
    if live[2] == 0 { 0 } else { 1 }
}

// Its value: what the inner actor has saved, or 0.
fn start_value(live: &[u64]) -> u32
    requires { (length live.now ≡ row_size) × (get_or live.now 3 0 < 4294967296) }
    ensures { result ≡ start_value (saved_in live.now) }
{
    if live[2] == 0 { 0 } else { live[3] as u32 }
}

// The row that decides it: every start begins in state 0. Where no rule matches, a row of zeros.
fn start_row(table: &TableRows, event: u64, value: u32) -> [u64; 16]
    requires { RulesLaid table.now × (event < 4) }
    ensures { result ≡ start_row table.now.rows table.now.used event value }
{
    let at = first_match(&table.rows, table.used, event, 0, value as u64);
    if at < table.used {
        table.rows[at]
    } else {
        [0; 16]
    }
}

// A start on live rows that are loaded: 6, 7 or 8 and nothing changed, or all of it done.
fn start(net: &mut NetRows, actor: &mut ActorRows, table: &TableRows, me: Id) -> Answer
    requires { FineIn net.old actor.old × RulesLaid table.now
        × (durable_in actor.old.live actor.old.pend ≡ begun actor.old.kept actor.old.stored) }
    ensures { (count : ℕ) → WokenIn count me (listed_rules table.now) net.old actor.old result net.new actor.new }
{
    let timers = with_network(actor.live[6] as u32);
    let event = start_event(&actor.live);
    let value = start_value(&actor.live);
    let row = start_row(table, event, value);
    let state = row[4];
    by_rule(net, actor, &row, timers, me, Id(0), value, state)
}

// ---- a start, and a recovery
// A start on what is stored: 6, 7 or 8 and nothing changed, or all of it done. The two rows that are loaded over are kept, to be put back.
pub fn wake(net: &mut NetRows, actor: &mut ActorRows, table: &TableRows, me: Id) -> Answer
    requires { FineIn net.old actor.old × RulesLaid table.now }
    ensures { (count : ℕ) → WokenIn count me (listed_rules table.now) net.old actor.old result net.new actor.new }
{
    let old = actor.live;
    let olds = actor.pend;
    load(actor);
    let answer = start(net, actor, table, me);
    if !is_done(answer) {
        actor.live = old;
        actor.pend = olds;
    }
    answer
}

// A recovery: 4 where the actor is not crashed; else the mark goes, and it is a start. The mark is there again after a refusal.
pub fn recover(net: &mut NetRows, actor: &mut ActorRows, table: &TableRows, i: Id) -> Answer
    requires { FineIn net.old actor.old × RulesLaid table.now }
    ensures { (count : ℕ) → SteppedIn count (Recover i) i (listed_rules table.now) net.old actor.old result net.new actor.new }
{
    let mark = actor.live[5];
    if mark % 2 == 0 {
        return Err(Refusal::Live);
    }
    actor.live[5] = 0;
    let answer = wake(net, actor, table, i);
    if !is_done(answer) {
        actor.live[5] = mark;
    }
    answer
}
