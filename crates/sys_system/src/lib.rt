// A system of actors: its network, its actors, and their tables.
#![tactic(auto)]

ghost use Rattle.std.specs.Prelude.{◌≡◌};
ghost use Rattle.rules.specs.Start as start;
ghost use Rattle.sys_system.specs.Views.{system_of};

use link_inner::{Table, zero_table};
use net_network::Network;
use sys_actor::{Actor, zero_actor};
use types::{Kind, MOST_ACTORS};

// The first `count` actors are in use, each with the table at its place. Actors and tables from the count on are zero.
// Two arrays and not one of pairs: a step changes actors alone, and a start is lent an array of tables.
#[derive(Clone, Copy)]
pub struct System {
    pub count: usize,
    pub network: Network,
    pub actors: [Actor; MOST_ACTORS],
    pub tables: [Table; MOST_ACTORS],
}

// The blank system has no actors.
pub fn blank() -> System
    ensures { result ≡ system_of start.blank }
{
    let n = net_network::blank(Kind::Ordered);
    let a = zero_actor();
    let t = zero_table();
    System {
        count: 0,
        network: n,
        actors: [a; MOST_ACTORS],
        tables: [t; MOST_ACTORS],
    }
}
