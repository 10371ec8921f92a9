// Whether a system is laid out and well formed, asked of any content that the struct can hold.
#![tactic(auto)]

ghost use Rattle.std.specs.Prelude.{◌≡◌, true, ◌&&◌};
ghost use Rattle.lists.specs.Lists.{all};
ghost use Rattle.link_inner.specs.Views.{table_ok};
ghost use Rattle.sys_actor.specs.Views.{actor_fine, blank_actor};
ghost use Rattle.sys_system.specs.Views.{SystemLaid, blank_table, system_fine};

use link_inner::{Table, sound_table};
use net_formed::net_ok;
use sys_actor::{Actor, actor_ok, blank_actor};
use sys_system::System;
use types::MOST_ACTORS;

// A table with no rules is sound where it is laid out.
fn blank_table(t: Table) -> bool
    ensures { result ≡ blank_table t }
{
    t.used == 0 && sound_table(t)
}

// Tables in use. A start asks it too.
pub fn tables_sound(tables: &[Table]) -> bool
    ensures { result ≡ all table_ok tables.now }
{
    tables.iter().all(|t| sound_table(*t))
}

// Tables that are not used.
pub fn tables_blank(tables: &[Table]) -> bool
    ensures { result ≡ all blank_table tables.now }
{
    tables.iter().all(|t| blank_table(*t))
}

// Actors in use, of so many.
fn actors_ok(actors: &[Actor], count: usize) -> bool
    ensures { result ≡ all (actor_fine count) actors.now }
{
    actors.iter().all(|a| actor_ok(*a, count))
}

// Actors that are not used.
fn actors_blank(actors: &[Actor]) -> bool
    ensures { result ≡ all blank_actor actors.now }
{
    actors.iter().all(|a| blank_actor(*a))
}

// The places in use.
fn used_ok(actors: &[Actor], tables: &[Table], count: usize) -> bool
    ensures { result ≡ (all (actor_fine count) actors.now && all table_ok tables.now) }
{
    actors_ok(actors, count) && tables_sound(tables)
}

// The places that are free.
fn free_ok(actors: &[Actor], tables: &[Table]) -> bool
    ensures { result ≡ (all blank_actor actors.now && all blank_table tables.now) }
{
    actors_blank(actors) && tables_blank(tables)
}

// A system that passes is laid out.
pub fn well_formed(s: System) -> bool
    ensures value { result ≡ system_fine s }
    ensures laid { result ≡ true → SystemLaid s }
{
    let count = s.count;
    if count < 1 || MOST_ACTORS < count || !net_ok(s.network, count) {
        return false;
    }
    let (actors, free_actors) = s.actors.split_at(count);
    let (tables, free_tables) = s.tables.split_at(count);
    used_ok(actors, tables, count) && free_ok(free_actors, free_tables)
}
