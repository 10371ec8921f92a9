// The start of a system: the tests before it, the given envelopes sent into cells, and the actors woken in turn on rows.
#![tactic(auto)]

ghost use Rattle.std.specs.Prelude.{◌≡◌, true, ◌≤◌, length, take, None};
ghost use Rattle.types.specs.Capacities.{most_actors, most_entries};
ghost use Rattle.lists.specs.Lists.{all, pad};
ghost use Rattle.rules.specs.Network.{kind_of};
ghost use Rattle.rules.specs.WellFormed.{source_known};
ghost use Rattle.rules.specs.Start as rules;
ghost use Rattle.net_layout.specs.Layout.{Readable};
ghost use Rattle.net_rows.specs.Views.{NetReady};
ghost use Rattle.net_network.specs.Parts.{read_back};
ghost use Rattle.link_inner.specs.Views.{zero_table, table_ok};
ghost use Rattle.sys_moves.specs.Views.{sent_in};
ghost use Rattle.sys_system.specs.Views.{system_of};
ghost use Rattle.sys_answered.specs.Views.{answered_of};
ghost use Rattle.sys_start.specs.Views.{counts_fit, start_fine, Filled, Wakes, Awaiting, waking_all, started};

use answers::{Answer, Refusal, is_done};
use link_inner::{Table, zero_table};
use link_table_rows::rows_of;
use net_network::read_back;
use sys_actor::{Actor, zero_actor};
use sys_answered::Answered;
use sys_formed::tables_sound;
use sys_layout::actor_of;
use sys_rows::{ActorRows, NetRows, TableRows};
use sys_system::{System, blank};
use sys_wake::wake;
use types::{Envelope, Id, Kind, MOST_ACTORS, MOST_ENTRIES};

// The given envelopes. A count beyond their places is refused as 10.
#[derive(Clone, Copy)]
pub struct Given {
    pub list: [Envelope; MOST_ENTRIES],
    pub used: usize,
}

// ---- 10, over the whole of it
fn source_known(e: Envelope, count: usize) -> bool
    ensures { result ≡ source_known count e }
{
    (e.src.0 as usize) < count
}

fn sources_known(list: &[Envelope], count: usize) -> bool
    ensures { result ≡ all (source_known count) list.now }
{
    list.iter().all(|e| source_known(*e, count))
}

// The kind is one, and the counts are within their places.
fn counts_fit(kind: u8, count: usize, used: usize) -> bool
    ensures { result ≡ counts_fit kind count used }
{
    1 <= count && count <= MOST_ACTORS && kind <= 2 && used <= MOST_ENTRIES
}

// The counts before the walks that they bound.
fn startable(kind: u8, count: usize, tables: [Table; MOST_ACTORS], given: Given) -> bool
    ensures { result ≡ start_fine kind count tables given }
{
    if !counts_fit(kind, count, given.used) {
        return false;
    }
    tables_sound(&tables[..count]) && sources_known(&given.list[..given.used], count)
}

// ---- the first system
// A function and no TryFrom: a number above 2 was refused before, and the rules' `kind_of` has no error.
fn kind_of(kind: u8) -> Kind
    ensures { result ≡ kind_of kind }
{
    match kind {
        0 => Kind::Ordered,
        1 => Kind::UnorderedDuplicating,
        _ => Kind::UnorderedNonDuplicating,
    }
}

// The first ones, then zero ones: a table at or above the count is not looked at.
fn first_tables(tables: [Table; MOST_ACTORS], count: usize) -> [Table; MOST_ACTORS]
    requires { count ≤ most_actors }
    ensures { result ≡ pad most_actors zero_table (take count tables) }
{
    let mut own = [zero_table(); MOST_ACTORS];
    own[..count].copy_from_slice(&tables[..count]);
    own
}

// ---- the given envelopes: 8
// All of them sent, or the first refusal: the cells hold those before it then.
fn fill(net: &mut NetRows, list: [Envelope; MOST_ENTRIES], count: usize) -> Answer
    requires { (length net.old.cells ≡ most_entries) × (net.old.used ≡ 0) × (net.old.len ≡ 0) × (count ≤ most_entries) }
    ensures { Filled net.old.kind (take count list) (sent_in result net.new) net.new.cells × (net.new.kind ≡ net.old.kind) }
{
    for i in 0..count {
        let s = net_rows::send(&mut net.cells, net.kind, net.used, net.len, list[i]);
        net.used = s.used;
        net.len = s.len;
        let answer = s.answer;
        if !is_done(answer) {
            return answer;
        }
    }
    Ok(())
}

// ---- actors 0, 1, ... each with its commands run before the next
// The answer of a wake, and the woken actor.
#[derive(Clone, Copy)]
struct Woken {
    answer: Answer,
    actor: Actor,
}

// One actor on fresh rows: nothing is stored.
fn wake_one(net: &mut NetRows, t: Table, me: Id) -> Woken
    requires { NetReady net.old.kind net.old.cells net.old.used net.old.len × (length net.old.cells ≡ most_entries) × (table_ok t ≡ true) }
    ensures { Wakes net.old.kind net.old.used t me net.old.cells (sent_in result.answer net.new) result.actor net.new.cells
        × (net.new.kind ≡ net.old.kind) }
{
    let mut own = ActorRows::fresh();
    let table = TableRows {
        rows: rows_of(t),
        used: t.used,
    };
    let answer = wake(net, &mut own, &table, me);
    Woken {
        answer,
        actor: actor_of(&own),
    }
}

// A refused start gives the blank system.
fn refused(answer: Answer) -> Answered
    ensures { result ≡ record { answer = answer; system = system_of rules.blank } }
{
    let s = blank();
    Answered { answer, system: s }
}

// The system of these actors, with the network that the used cells are.
fn system_of(
    net: &NetRows,
    count: usize,
    actors: [Actor; MOST_ACTORS],
    tables: [Table; MOST_ACTORS],
) -> System
    requires { Readable net.now.cells net.now.used × (count ≤ most_actors) }
    ensures { result ≡ record {
      count = count;
      network = read_back net.now.kind net.now.cells net.now.used None;
      actors = actors;
      tables = pad most_actors zero_table (take count tables);
    } }
{
    System {
        count,
        network: read_back(net.kind, &net.cells, net.used, None),
        actors,
        tables: first_tables(tables, count),
    }
}

// All of them, or the first refusal with the blank system.
fn wake_all(net: &mut NetRows, count: usize, tables: [Table; MOST_ACTORS]) -> Answered
    requires { Awaiting net.old.kind net.old.cells net.old.used net.old.len count tables }
    ensures { result ≡ answered_of (system_of rules.blank) (waking_all net.old.kind net.old.cells net.old.used count tables) }
{
    let mut actors = [zero_actor(); MOST_ACTORS];
    for at in 0..count {
        let woken = wake_one(net, tables[at], Id(at as u8));
        let answer = woken.answer;
        if !is_done(answer) {
            return refused(answer);
        }
        actors[at] = woken.actor;
    }
    Answered {
        answer: Ok(()),
        system: system_of(net, count, actors, tables),
    }
}

// ---- the start
// The kind is a number as it was given, since one above 2 has an answer: 10.
pub fn start(kind: u8, count: usize, tables: [Table; MOST_ACTORS], given: Given) -> Answered
    ensures { result ≡ answered_of (system_of rules.blank) (started kind count tables given) }
{
    if !startable(kind, count, tables, given) {
        return refused(Err(Refusal::StartRefused));
    }
    let mut net = NetRows {
        cells: [[0; 4]; MOST_ENTRIES],
        kind: kind_of(kind),
        used: 0,
        len: 0,
    };
    let answer = fill(&mut net, given.list, given.used);
    if !is_done(answer) {
        return refused(answer);
    }
    wake_all(&mut net, count, tables)
}
