// The end of sheet row 11, which no script reaches: number 2^64 - 2 is sent, and the next send is refused with 6. The
// system is made by hand: actor 0 has its last number left, sends 9 to actor 1 at every message, and has two on the way.
#![tactic(auto)]

use answers::number_of;
use std::io;
use sys_answered::Answered;
use sys_step::step;
use sys_system::System;
use test_ill_formed_ways::made;
use types::{Action, Envelope, Id, Message, Number, Payload};

// The message with this number, from actor 1 to actor 0.
fn delivered(s: System, number: u64) -> Answered {
    step(
        s,
        Action::Deliver(Envelope {
            src: Id(1),
            dst: Id(0),
            msg: Message::Deliver(Number(number), Payload(0)),
        }),
    )
}

fn next_of(s: System) -> u64 {
    let a = s.actors[0];
    a.link.durable.next.0
}

fn tell(rt: &impl Print, what: &str, n: u64) -> io::Result<()> {
    println!(rt; "{what}{n}")
}

fn main(rt: HostRuntime) -> io::Result<()> {
    let first = delivered(
        made(b"c1 d1 e1 f1 g2 h1 i2 l1 m2 p9 q1 s1 t2 v1 x9 I202"),
        1,
    );
    let done = first.answer;
    let after = first.system;
    let second = delivered(after, 2);
    let refused = second.answer;
    tell(&rt, "number 2^64 - 2: ", number_of(done))?;
    tell(&rt, "next number: ", next_of(after))?;
    tell(&rt, "the next: ", number_of(refused))
}
