// What a rule's commands ask of the network and the timers, run in place, at most so many of them. The durable part is not
// touched: its changes come afterwards (or before, where it is stored first). After an 8 the cells are the caller's to put back.
#![tactic(auto)]

ghost use Rattle.std.specs.Prelude.{[], ◌∷◌, ◌+◌, ◌≤◌, ◌<◌, take};
ghost use Rattle.net_rows.specs.Views.{NetReady};
ghost use Rattle.link_direct.specs.Direct.{asked, sends};
ghost use Rattle.link_tables.specs.Rows.{RowLaid, orders};
ghost use Rattle.sys_emits.specs.Views.{Ran, Went};

use answers::{Answer, is_done};
use link_tables::command_at;
use link_timers::Timers;
use types::{Envelope, Id, InnerCommand, Kind, Message, Number};

// The next number, and how many commands may still run.
#[derive(Clone, Copy)]
pub struct Emitted {
    pub answer: Answer,
    pub used: usize,
    pub len: u64,
    pub timers: u32,
    pub next: u64,
    pub left: usize,
}

// One inner command.
fn emit_one(
    c: &mut [[u64; 4]],
    kind: Kind,
    used: usize,
    len: u64,
    timers: u32,
    me: Id,
    x: InnerCommand,
    next: u64,
    left: usize,
) -> Emitted
    requires { NetReady kind c.old used len × (0 < left) × (next + sends (x ∷ []) ≤ 18446744073709551615) }
    ensures { Went kind me x c.old used timers next left result c.new }
{
    match x {
        InnerCommand::SetTimer(t) => {
            let h = Timers(timers).set(t);
            let w = h.timers;
            Emitted {
                answer: Ok(()),
                used,
                len,
                timers: w.0,
                next,
                left: left - 1,
            }
        }
        InnerCommand::CancelTimer(t) => {
            let h = Timers(timers).cancel(t);
            let w = h.timers;
            Emitted {
                answer: Ok(()),
                used,
                len,
                timers: w.0,
                next,
                left: left - 1,
            }
        }
        InnerCommand::Save(_) => Emitted {
            answer: Ok(()),
            used,
            len,
            timers,
            next,
            left,
        },
        InnerCommand::Send(d, p) => {
            let e = Envelope {
                src: me,
                dst: d,
                msg: Message::Deliver(Number(next), p),
            };
            let s = net_rows::send(c, kind, used, len, e);
            let a = s.answer;
            Emitted {
                answer: a,
                used: s.used,
                len: s.len,
                timers,
                next: next + 1,
                left: left - 1,
            }
        }
    }
}

// The commands of a rule's row, in order, the first `limit` of them.
pub fn emit(
    c: &mut [[u64; 4]],
    kind: Kind,
    used: usize,
    len: u64,
    timers: u32,
    row: &[u64],
    me: Id,
    source: Id,
    value: u32,
    next: u64,
    limit: usize,
) -> Emitted
    requires { NetReady kind c.old used len × RowLaid row.now × (next + sends (orders row.now source value) ≤ 18446744073709551615) }
    ensures { Ran kind me (take limit (asked next (orders row.now source value))) c.old used timers result c.new }
{
    let n = row[5] as usize;
    let mut u = used;
    let mut l = len;
    let mut w = timers;
    let mut m = next;
    let mut k = limit;
    let mut i = 0;
    while i < n {
        if k == 0 {
            return Emitted {
                answer: Ok(()),
                used: u,
                len: l,
                timers: w,
                next: m,
                left: k,
            };
        }
        let x = command_at(row, i, source, value);
        let s = emit_one(c, kind, u, l, w, me, x, m, k);
        let a = s.answer;
        if !is_done(a) {
            return s;
        }
        u = s.used;
        l = s.len;
        w = s.timers;
        m = s.next;
        k = s.left;
        i += 1;
    }
    Emitted {
        answer: Ok(()),
        used: u,
        len: l,
        timers: w,
        next: m,
        left: k,
    }
}
