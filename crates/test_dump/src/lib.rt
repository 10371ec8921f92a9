// For tests only: every field of a whole system as bytes, used places or not, but for its tables. The widths are fixed, so
// that systems which differ have different bytes. Of a number the high byte comes first.
#![tactic(auto)]

ghost use Rattle.std.specs.Prelude.{◌≡◌, ◌+◌, ◌≤◌, length};

use link_durable::Durable;
use net_network::Network;
use std::io;
use std::io::Write;
use sys_actor::Actor;
use sys_system::System;
use types::{Envelope, Kind, Message, Payload};

// The bytes of a system.
pub const SIZE: usize = 10409;

// ---- the network
fn write_envelope<W: Write>(out: &mut W, e: Envelope) -> io::Result<()> {
    let m = e.msg;
    let (tag, number, payload) = match m {
        Message::Deliver(n, p) => (0, n, p),
        Message::Ack(n) => (1, n, Payload(0)),
    };
    out.write_all(&[e.src.0, e.dst.0, tag])?;
    out.write_all(&number.0.to_be_bytes())?;
    out.write_all(&payload.0.to_be_bytes())
}

// A mark, and the envelope or as many zeros.
fn write_last<W: Write>(out: &mut W, last: Option<Envelope>) -> io::Result<()> {
    match last {
        None => out.write_all(&[0; 16]),
        Some(e) => {
            out.write_all(&[1])?;
            write_envelope(out, e)
        }
    }
}

fn kind_number(kind: Kind) -> u8 {
    match kind {
        Kind::Ordered => 0,
        Kind::UnorderedDuplicating => 1,
        Kind::UnorderedNonDuplicating => 2,
    }
}

fn write_network<W: Write>(out: &mut W, n: &Network) -> io::Result<()> {
    out.write_all(&[kind_number(n.kind)])?;
    out.write_all(&n.used.to_be_bytes())?;
    for x in &n.entries {
        write_envelope(out, x.envelope)?;
        out.write_all(&x.count.to_be_bytes())?;
    }
    write_last(out, n.last)
}

// ---- the actors
// A mark, and the value or a zero.
fn write_storage<W: Write>(out: &mut W, x: Option<u32>) -> io::Result<()> {
    let (mark, value) = match x {
        None => (0, 0),
        Some(v) => (1, v),
    };
    out.write_all(&[mark])?;
    out.write_all(&value.to_be_bytes())
}

fn write_durable<W: Write>(out: &mut W, d: &Durable) -> io::Result<()> {
    out.write_all(&d.next.0.to_be_bytes())?;
    out.write_all(&d.pending.used.to_be_bytes())?;
    for q in &d.pending.places {
        out.write_all(&q.number.0.to_be_bytes())?;
        out.write_all(&[q.dst.0])?;
        out.write_all(&q.payload.0.to_be_bytes())?;
    }
    out.write_all(&d.taken.used.to_be_bytes())?;
    for t in &d.taken.places {
        out.write_all(&t.0.to_be_bytes())?;
    }
    write_storage(out, d.inner)
}

// The live part stands before the stored one.
fn write_actor<W: Write>(out: &mut W, x: &Actor) -> io::Result<()> {
    out.write_all(&[u8::from(x.crashed)])?;
    out.write_all(&x.timers.0.to_be_bytes())?;
    write_durable(out, &x.link.durable)?;
    out.write_all(&[x.link.state, u8::from(x.stored.some)])?;
    write_durable(out, &x.stored.durable)
}

// ---- the system
fn write_system<W: Write>(out: &mut W, s: &System) -> io::Result<()> {
    out.write_all(&s.count.to_be_bytes())?;
    write_network(out, &s.network)?;
    for x in &s.actors {
        write_actor(out, x)?;
    }
    Ok(())
}

// From a place on, and the place after it. No write fails, since there is room for all of it.
pub fn dump(out: &mut [u8], at: usize, s: System) -> usize
    requires { at + 10409 ≤ length out.old }
    ensures { result ≡ at + 10409 }
{
    let mut rest = &mut out[at..];
    let _ = write_system(&mut rest, &s);
    at + SIZE
}
