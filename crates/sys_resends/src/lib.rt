// Every pending message is sent again, in place, at most so many of them; and the same with the cells put back after an 8.
#![tactic(auto)]

ghost use Rattle.std.specs.Prelude.{◌≡◌, map, ◌≤◌, ◌<◌, length, take, Option};
ghost use Rattle.types.specs.Capacities.{most_entries};
ghost use Rattle.types.specs.declared.Envelope.{Envelope};
ghost use Rattle.types.specs.declared.Message.TheVariants.{Deliver};
ghost use Rattle.rules.specs.Network.{send};
ghost use Rattle.rules.specs.Link.{resent};
ghost use Rattle.net_rows.specs.Views.{net_of, room_of, NetReady, Changed};
ghost use Rattle.link_rows.specs.Rows.{pending_in, Sendable};
ghost use Rattle.sys_emits.specs.Views.{Ran};
ghost use Rattle.sys_reacts.specs.declared.First.TheVariants.{Nothing};
ghost use Rattle.sys_reacts.specs.Views.{Safe};

use answers::is_done;
use link_rows::RECORD;
use net_rows::Sent;
use sys_emits::Emitted;
use sys_reacts::roomy;
use types::{Envelope, Id, Kind, MOST_ENTRIES, Message, Number, Payload};

fn resend_one(
    c: &mut [[u64; 4]],
    kind: Kind,
    used: usize,
    len: u64,
    me: Id,
    number: u64,
    dst: u64,
    payload: u64,
) -> Sent
    requires { NetReady kind c.old used len × (dst < 256) × (payload < 4294967296) }
    ensures { (last : Option Envelope) → Changed c.old used len (send (room_of c.old)
        (record { src = me; dst = record { 0 = dst }; msg = Deliver (record { 0 = number }) (record { 0 = payload }) }) (net_of kind last c.old used))
        result c.new }
{
    let e = Envelope {
        src: me,
        dst: Id(dst as u8),
        msg: Message::Deliver(Number(number), Payload(payload as u32)),
    };
    net_rows::send(c, kind, used, len, e)
}

// After an 8 the cells are the caller's to put back.
fn resend(
    c: &mut [[u64; 4]],
    kind: Kind,
    used: usize,
    len: u64,
    timers: u32,
    me: Id,
    pend: &[[u64; RECORD]],
    n: usize,
    limit: usize,
) -> Emitted
    requires { NetReady kind c.old used len × (n ≤ length pend.now) × Sendable pend.now n }
    ensures { Ran kind me (take limit (resent (map pending_in (take n pend.now)))) c.old used timers result c.new }
{
    let mut u = used;
    let mut l = len;
    let mut k = limit;
    let mut i = 0;
    while i < n {
        if k == 0 {
            return Emitted {
                answer: Ok(()),
                used: u,
                len: l,
                timers,
                next: 0,
                left: k,
            };
        }
        let s = resend_one(c, kind, u, l, me, pend[i][0], pend[i][1], pend[i][2]);
        let a = s.answer;
        if !is_done(a) {
            return Emitted {
                answer: a,
                used: u,
                len: l,
                timers,
                next: 0,
                left: k,
            };
        }
        u = s.used;
        l = s.len;
        k -= 1;
        i += 1;
    }
    Emitted {
        answer: Ok(()),
        used: u,
        len: l,
        timers,
        next: 0,
        left: k,
    }
}

// The same, put back after an 8. Where there is room for all of them no copy is made.
pub fn resend_all(
    c: &mut [[u64; 4]; MOST_ENTRIES],
    kind: Kind,
    used: usize,
    len: u64,
    timers: u32,
    me: Id,
    pend: &[[u64; RECORD]],
    n: usize,
    limit: usize,
) -> Emitted
    requires { NetReady kind c.old used len × (n ≤ length pend.now) × Sendable pend.now n × (length c.old ≡ most_entries) }
    ensures { Safe kind me Nothing (take limit (resent (map pending_in (take n pend.now)))) c.old used len timers result
        c.new }
{
    if roomy(MOST_ENTRIES, used, len, n as u64) {
        return resend(c, kind, used, len, timers, me, pend, n, limit);
    }
    let old = *c;
    let s = resend(c, kind, used, len, timers, me, pend, n, limit);
    let a = s.answer;
    if is_done(a) {
        return s;
    }
    *c = old;
    Emitted {
        answer: a,
        used,
        len,
        timers,
        next: 0,
        left: limit,
    }
}
