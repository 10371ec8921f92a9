// An actor between its struct and its rows: laid out, and back.
#![tactic(auto)]

ghost use Rattle.std.specs.Prelude.{◌≡◌, true, [], ◌≤◌, ◌<◌, get_or};
ghost use Rattle.types.specs.Capacities.{last_state};
ghost use Rattle.link_durable.specs.Views.{durable_view, stored_as, durable_laid, stored_laid};
ghost use Rattle.link_layout.specs.Rows.{value_of, row_with};
ghost use Rattle.link_rows.specs.Rows.{durable_in};
ghost use Rattle.sys_actor.specs.Views.{actor_as};
ghost use Rattle.sys_rows.specs.Rows.{stored_in, actor_in, RowsLaid};
ghost use Rattle.sys_layout.specs.Views.{bit, LaidOut};

use link_durable::{Link, Stored};
use link_layout::{durable_of, durable_row, pending_rows};
use link_rows::{RECORD, ROW};
use link_timers::Timers;
use sys_actor::{Actor, zero_actor};
use sys_rows::ActorRows;

// ---- laid out
// The live row: the durable part, whether the actor is crashed, its timers and its state.
fn live_row(a: Actor) -> [u64; ROW]
    requires { durable_laid a.link.durable ≡ true }
    ensures { (result ≡ row_with (durable_view a.link.durable) (bit a.crashed) a.timers.0 a.link.state)
        × (value_of a.link.durable.inner < 4294967296) × (a.timers.0 < 4294967296) }
{
    let mut row = durable_row(a.link.durable);
    row[6] = a.timers.0 as u64;
    row[7] = a.link.state as u64;
    if a.crashed {
        row[5] = 1;
    }
    row
}

// The stored row: the durable part, and whether there is one. It is all zero where nothing is stored.
fn stored_row(s: Stored) -> [u64; ROW]
    requires { durable_laid s.durable ≡ true }
    ensures { (result ≡ row_with (durable_view s.durable) (bit s.some) 0 0) × (value_of s.durable.inner < 4294967296) }
{
    let mut row = durable_row(s.durable);
    if s.some {
        row[5] = 1;
    }
    row
}

// The rows of an actor.
pub fn lay_out(a: Actor, rows: &mut ActorRows)
    requires { (durable_laid a.link.durable ≡ true) × (stored_laid a.stored ≡ true) × (a.link.state ≤ last_state) }
    ensures { LaidOut a rows.new }
{
    rows.live = live_row(a);
    rows.pend = pending_rows(a.link.durable);
    rows.kept = stored_row(a.stored);
    rows.stored = pending_rows(a.stored.durable);
}

// ---- and back
// What is stored. Where nothing is, it is all zero, whatever stands in the rows.
fn stored_of(kept: &[u64], stored: &[[u64; RECORD]]) -> Stored
    requires { RowsLaid kept.now stored.now }
    ensures { result ≡ stored_as (stored_in (get_or kept.now 5 0) (durable_in kept.now stored.now)) }
{
    if kept[5] == 0 {
        return zero_actor().stored;
    }
    Stored {
        some: true,
        durable: durable_of(kept, stored),
    }
}

// The actor that rows hold.
pub fn actor_of(rows: &ActorRows) -> Actor
    requires { RowsLaid rows.now.live rows.now.pend × RowsLaid rows.now.kept rows.now.stored }
    ensures { result ≡ actor_as (actor_in [] rows.now) }
{
    Actor {
        crashed: rows.live[5] % 2 == 1,
        timers: Timers(rows.live[6] as u32),
        link: Link {
            durable: durable_of(&rows.live, &rows.pend),
            state: rows.live[7] as u8,
        },
        stored: stored_of(&rows.kept, &rows.stored),
    }
}
