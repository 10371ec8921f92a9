// A whole system as rows: those of every actor and of every table are laid out once, and an action is then lent those of the
// actor that it touches. What a run lends from one action to the next.
#![tactic(auto)]

ghost use Rattle.std.specs.Prelude.{◌≡◌, true, ℕ, ◌≤◌, ◌<◌, length, get_or};
ghost use Rattle.types.specs.Capacities.{most_actors};
ghost use Rattle.link_inner.specs.Views.{table_ok};
ghost use Rattle.sys_moves.specs.Views.{sent_in};
ghost use Rattle.sys_all_rows.specs.Views.{Layable, ActorsLaid, TablesLaid, Stands, Moved};

use answers::Answer;
use link_inner::Table;
use link_table_rows::rows_of;
use sys_act::{act, seat};
use sys_actor::Actor;
use sys_layout::lay_out;
use sys_rows::{ActorRows, NetRows, TableRows};
use types::{Action, MOST_ACTORS};

// ---- laid out
// The first `count` actors. The rows of the others are not looked at.
pub fn lay_out_actors(
    actors: [Actor; MOST_ACTORS],
    count: usize,
    rows: &mut [ActorRows; MOST_ACTORS],
)
    requires { (count ≤ most_actors) × (length rows.old ≡ most_actors)
        × ((i : ℕ) → i < count → (d : Actor) → Layable (get_or actors i d)) }
    ensures { ActorsLaid actors count rows.new }
{
    for i in 0..count {
        lay_out(actors[i], &mut rows[i]);
    }
}

// The first `count` tables, and how many rules each has.
pub fn lay_out_tables(
    tables: [Table; MOST_ACTORS],
    count: usize,
    rows: &mut [TableRows; MOST_ACTORS],
)
    requires { (count ≤ most_actors) × (length rows.old ≡ most_actors)
        × ((i : ℕ) → i < count → (d : Table) → table_ok (get_or tables i d) ≡ true) }
    ensures { TablesLaid tables count rows.new }
{
    for i in 0..count {
        let table = tables[i];
        rows[i] = TableRows {
            rows: rows_of(table),
            used: table.used,
        };
    }
}

// ---- an action
pub fn act_in(
    net: &mut NetRows,
    actors: &mut [ActorRows; MOST_ACTORS],
    tables: &[TableRows; MOST_ACTORS],
    count: usize,
    a: Action,
) -> Answer
    requires { Stands count net.old.kind net.old.used net.old.len tables.now net.old.cells actors.old }
    ensures { Moved count a net.old.kind net.old.used net.old.len tables.now net.old.cells actors.old
        (sent_in result net.new) net.new.cells actors.new
        × (net.new.kind ≡ net.old.kind) }
{
    let k = seat(count, a);
    act(net, &mut actors[k], &tables[k], count, a)
}
