// Steps on lent rows: a rule's commands whole, an Ack, a message that is acked or taken; with refusals, and what is stored.
#![tactic(auto)]

ghost use Rattle.std.specs.Prelude.{◌≡◌, [], ◌∷◌, ℕ, ◌+◌, ◌≤◌, ◌<◌, length, get_or};
ghost use Rattle.lists.specs.Lists.{choose};
ghost use Rattle.types.specs.Capacities.{most_entries, most_pending, most_actors, last_state};
ghost use Rattle.types.specs.declared.Message.TheVariants.{Ack};
ghost use Rattle.answers.specs.Answers.{Absent};
ghost use Rattle.rules.specs.Link.{Send, with_taken};
ghost use Rattle.net_rows.specs.Views.{last_after, NetReady};
ghost use Rattle.link_direct.specs.Direct.{noted, sends};
ghost use Rattle.link_tables.specs.Rows.{RowLaid, orders};
ghost use Rattle.link_rows.specs.Rows.{row_size, durable_in};
ghost use Rattle.sys_reacts.specs.declared.First.TheVariants as first;
ghost use Rattle.sys_reacts.specs.Views.{there, Safe};
ghost use Rattle.sys_rows.specs.Rows.{RowsLaid, Settled, Kept};
ghost use Rattle.sys_moves.specs.Views.{rows_in, reacting, acked_in, taken_in, Decided, FineIn, ActedIn};

use answers::{Answer, Refusal, is_done};
use link_rows::ROW;
use sys_emits::Emitted;
use sys_reacts::{First, react_row, refusal};
use sys_rows::{ActorRows, NetRows, take_number};
use types::{Envelope, Id, Kind, MOST_ENTRIES, MOST_PENDING, MOST_TOLD, Number};

// 6 and 7 of a rule's row: decided by what the live row has left.
fn refusal_of(live: &[u64; ROW], row: &[u64]) -> Answer
    requires { RowLaid row.now × (length live.now ≡ row_size) × (get_or live.now 1 0 ≤ most_pending) }
    ensures { (source : Id) (value : ℕ) → Decided live.now (orders row.now source value) result }
{
    refusal(live[0], live[1], MOST_PENDING as u64, row[14])
}

// The commands of a rule's row, with these timers and this state: 6, 7 or 8 and nothing changed, or all of it done.
pub fn by_rule(
    net: &mut NetRows,
    actor: &mut ActorRows,
    row: &[u64],
    timers: u32,
    me: Id,
    source: Id,
    value: u32,
    state: u64,
) -> Answer
    requires { FineIn net.old actor.old × RowLaid row.now × (state ≤ last_state) }
    ensures { ActedIn me (reacting me net.old.kind (orders row.now source value) timers state net.old.used
        (rows_in net.old.cells actor.old)) (λ last. last) net.old actor.old result net.new actor.new }
{
    let next = actor.live[0];
    let why = refusal_of(&actor.live, row);
    if !is_done(why) {
        return why;
    }
    let s = react_row(
        &mut net.cells,
        net.kind,
        net.used,
        net.len,
        timers,
        row,
        me,
        source,
        value,
        next,
        MOST_TOLD,
        First::Nothing,
    );
    net.used = s.used;
    net.len = s.len;
    let answer = s.answer;
    if !is_done(answer) {
        return answer;
    }
    actor.settle(row, source, value, s.timers, state);
    if row[15] == 1 {
        actor.store();
    }
    answer
}

// An Ack: its record goes, whoever sent it, and all of it is stored.
pub fn on_ack(net: &mut NetRows, actor: &mut ActorRows, e: Envelope, number: Number) -> Answer
    requires { FineIn net.old actor.old }
    ensures { ActedIn e.dst (acked_in net.old.kind e number net.old.used (rows_in net.old.cells actor.old))
        (last_after net.old.kind e) net.old actor.old result net.new actor.new }
{
    let s = net_rows::on_deliver(&mut net.cells, net.kind, net.used, net.len, e);
    net.used = s.used;
    net.len = s.len;
    let answer = s.answer;
    if !is_done(answer) {
        return answer;
    }
    actor.settle_ack(number.0);
    actor.store();
    answer
}

// A Deliver that is not newer, or that the inner actor ignores: acked, and nothing more.
// The network comes in its parts: what is promised is said of all that `react_row` answers, the timers too.
pub fn ack_only(
    c: &mut [[u64; 4]; MOST_ENTRIES],
    kind: Kind,
    used: usize,
    len: u64,
    timers: u32,
    e: Envelope,
    number: Number,
) -> Emitted
    requires { NetReady kind c.old used len × (length c.old ≡ most_entries) }
    ensures { Safe kind e.dst (first.Message e number) (Send e.src (Ack number) ∷ []) c.old used len timers result c.new }
{
    let none = [0u64; 16];
    react_row(
        c,
        kind,
        used,
        len,
        timers,
        &none,
        e.dst,
        e.src,
        0,
        0,
        MOST_TOLD,
        First::Message(e, number),
    )
}

// What a Deliver that is taken leaves of the actor: its number is noted, the rule's commands too, and all of it is stored.
fn take_in(
    actor: &mut ActorRows,
    row: &[u64],
    source: Id,
    number: Number,
    value: u32,
    timers: u32,
    state: u64,
)
    requires { RowLaid row.now × RowsLaid actor.old.live actor.old.pend × (state ≤ last_state) × (source.0 < most_actors)
        × (get_or actor.old.live 1 0 + sends (orders row.now source value) ≤ most_pending)
        × (get_or actor.old.live 0 0 + sends (orders row.now source value) ≤ 18446744073709551615)
        × (length actor.old.stored ≡ most_pending) }
    ensures { Settled (noted (orders row.now source value) (with_taken source number (durable_in actor.old.live actor.old.pend)))
        timers state actor.old.live actor.new.live actor.new.pend
        × Kept actor.new.live actor.new.pend actor.new.kept actor.new.stored }
{
    take_number(&mut actor.live, source.0 as u64, number.0);
    actor.settle(row, source, value, timers, state);
    actor.store();
}

// 6 or 7, unless the message is not there: then 3.
fn when_refused(net: &NetRows, e: Envelope, why: Answer) -> Answer
    requires { NetReady net.now.kind net.now.cells net.now.used net.now.len }
    ensures { result ≡ choose (there net.now.kind e net.now.cells net.now.used) why Absent }
{
    let at = net_rows::equal_place(&net.cells, net.kind, net.used, net.len, e);
    if at < net.used {
        return why;
    }
    match net.kind {
        Kind::Ordered => Err(Refusal::Absent),
        Kind::UnorderedDuplicating => why,
        Kind::UnorderedNonDuplicating => Err(Refusal::Absent),
    }
}

// A Deliver that is taken, by a rule's row: 3, 6, 7 or 8 and nothing changed, or all of it done.
pub fn on_message(
    net: &mut NetRows,
    actor: &mut ActorRows,
    row: &[u64],
    e: Envelope,
    number: Number,
    value: u32,
    state: u64,
) -> Answer
    requires { FineIn net.old actor.old × RowLaid row.now × (state ≤ last_state) × (e.src.0 < most_actors) }
    ensures { ActedIn e.dst (taken_in net.old.kind e number (orders row.now e.src value) state net.old.used
        (rows_in net.old.cells actor.old)) (last_after net.old.kind e) net.old actor.old result net.new actor.new }
{
    let next = actor.live[0];
    let timers = actor.live[6] as u32;
    let why = refusal_of(&actor.live, row);
    if !is_done(why) {
        return when_refused(net, e, why);
    }
    let source = e.src;
    let s = react_row(
        &mut net.cells,
        net.kind,
        net.used,
        net.len,
        timers,
        row,
        e.dst,
        source,
        value,
        next,
        MOST_TOLD,
        First::Message(e, number),
    );
    net.used = s.used;
    net.len = s.len;
    let answer = s.answer;
    if !is_done(answer) {
        return answer;
    }
    take_in(actor, row, source, number, value, s.timers, state);
    answer
}
