// One actor: its crashed mark, its timers, its link, and what it has stored. Its table stands apart, since no step changes it.
#![tactic(auto)]

ghost use Rattle.std.specs.Prelude.{◌≡◌, true};
ghost use Rattle.link_durable.specs.Views.{zero_durable, durable_as};
ghost use Rattle.sys_actor.specs.Views.{ActorLaid, quiet, link_fine, rest_fine, actor_fine, zero_actor, zeroed, marks_zero, parts_zero, blank_actor};

use link_durable::{Durable, Link, Pendings, Stored, Taken, durable_ok, stored_ok};
use link_timers::Timers;
use types::{Id, LAST_STATE, MOST_ACTORS, MOST_PENDING, Number, Payload, Pending};

#[derive(Clone, Copy)]
pub struct Actor {
    pub crashed: bool,
    pub timers: Timers,
    pub link: Link,
    pub stored: Stored,
}

// ---- all zero
fn no_durable() -> Durable
    ensures { result ≡ durable_as zero_durable }
{
    let q = Pending {
        number: Number(0),
        dst: Id(0),
        payload: Payload(0),
    };
    Durable {
        next: Number(0),
        pending: Pendings {
            places: [q; MOST_PENDING],
            used: 0,
        },
        taken: Taken {
            places: [Number(0); MOST_ACTORS],
            used: 0,
        },
        inner: None,
    }
}

// The actor at a place that is not used.
pub fn zero_actor() -> Actor
    ensures { result ≡ zero_actor }
{
    let d = no_durable();
    Actor {
        crashed: false,
        timers: Timers(0),
        link: Link {
            durable: d,
            state: 0,
        },
        stored: Stored {
            some: false,
            durable: d,
        },
    }
}

// ---- tests of any content
// No timer on a crashed actor.
fn is_quiet(a: Actor) -> bool
    ensures { result ≡ quiet a }
{
    !a.crashed || Timers::count(a.timers) == 0
}

// The link of an actor of so many.
fn link_ok(l: Link, actors: usize) -> bool
    ensures { result ≡ link_fine actors l }
{
    durable_ok(l.durable, actors) && l.state <= LAST_STATE
}

// What it has stored, and its timers.
fn rest_ok(a: Actor, actors: usize) -> bool
    ensures { result ≡ rest_fine actors a }
{
    stored_ok(a.stored, actors) && is_quiet(a)
}

// An actor of so many. One that passes is laid out.
pub fn actor_ok(a: Actor, actors: usize) -> bool
    ensures value { result ≡ actor_fine actors a }
    ensures laid { result ≡ true → ActorLaid a }
{
    link_ok(a.link, actors) && rest_ok(a, actors)
}

// All zero, as where nothing is stored.
fn zero_durable(d: Durable) -> bool
    ensures { result ≡ zeroed d }
{
    let s = Stored {
        some: false,
        durable: d,
    };
    stored_ok(s, 0)
}

// By parts, and not by == with the zero actor: of a derived == the check leaves open that it decides equality, arrays and all.
fn marks_zero(a: Actor) -> bool
    ensures { result ≡ marks_zero a }
{
    !a.crashed && a.timers.0 == 0 && a.link.state == 0 && !a.stored.some
}

fn parts_zero(a: Actor) -> bool
    ensures { result ≡ parts_zero a }
{
    zero_durable(a.link.durable) && zero_durable(a.stored.durable)
}

// An actor that is not used. One that passes is the zero actor.
pub fn blank_actor(a: Actor) -> bool
    ensures value { result ≡ blank_actor a }
    ensures zero { result ≡ true → a ≡ zero_actor }
{
    marks_zero(a) && parts_zero(a)
}
