// The commands of a rule, after a message and its Ack where there is one: 6 and 7 beforehand, and after an 8 the cells are put back.
// Where there is room for all sends no copy is made.
#![tactic(auto)]

ghost use Rattle.std.specs.Prelude.{◌≡◌, true, ◌∷◌, ◌++◌, ◌+◌, ◌≤◌, length, take};
ghost use Rattle.types.specs.Capacities.{most_entries, most_copies};
ghost use Rattle.types.specs.declared.Message.TheVariants.{Ack};
ghost use Rattle.answers.specs.Answers.{answer_of};
ghost use Rattle.rules.specs.Link.{Send};
ghost use Rattle.net_rows.specs.Views.{NetReady};
ghost use Rattle.link_direct.specs.Direct.{asked, sends};
ghost use Rattle.link_tables.specs.Rows.{RowLaid, orders};
ghost use Rattle.sys_emits.specs.Views.{Ran};
ghost use Rattle.sys_reacts.specs.Views.{refusal_of, front_of, Tried, Safe};

use answers::{Answer, Refusal, is_done};
use sys_emits::{Emitted, emit};
use types::{Envelope, Id, Kind, MOST_COPIES, MOST_ENTRIES, Message, Number};

// What goes before a row's commands: nothing, or a message that is delivered, and the Ack of its number.
#[derive(Clone, Copy)]
pub enum First {
    Nothing,
    Message(Envelope, Number),
}

// 6 and 7: decided by the numbers and places that are left.
pub fn refusal(next: u64, pending: u64, room: u64, sends: u64) -> Answer
    requires { pending ≤ room }
    ensures { (result ≡ answer_of (refusal_of next pending room sends)) × (next ≤ 18446744073709551615) }
{
    let numbers = 18446744073709551615 - next;
    let places = room - pending;
    if numbers <= places {
        if sends <= numbers {
            return Ok(());
        }
        return Err(Refusal::NumbersUsedUp);
    }
    if sends <= places {
        return Ok(());
    }
    Err(Refusal::PendingFull)
}

// Whether so many sends cannot be refused.
pub fn roomy(room: usize, used: usize, len: u64, sends: u64) -> bool
    requires { used ≤ room }
    ensures { result ≡ true → (used + sends ≤ room) × (len + sends ≤ most_copies) }
{
    let places = (room - used) as u64;
    if places < sends {
        return false;
    }
    if (MOST_COPIES as u64) < len {
        return false;
    }
    sends <= (MOST_COPIES as u64) - len
}

// The Ack of a number to the source, and the commands of a row: the first `limit` of all these.
fn acked_row(
    c: &mut [[u64; 4]],
    kind: Kind,
    used: usize,
    len: u64,
    timers: u32,
    row: &[u64],
    me: Id,
    source: Id,
    value: u32,
    number: Number,
    next: u64,
    limit: usize,
) -> Emitted
    requires { NetReady kind c.old used len × RowLaid row.now × (next + sends (orders row.now source value) ≤ 18446744073709551615) }
    ensures { Ran kind me (take limit (Send source (Ack number) ∷ asked next (orders row.now source value)))
        c.old used timers result c.new }
{
    if limit == 0 {
        return Emitted {
            answer: Ok(()),
            used,
            len,
            timers,
            next,
            left: 0,
        };
    }
    let e = Envelope {
        src: me,
        dst: source,
        msg: Message::Ack(number),
    };
    let s = net_rows::send(c, kind, used, len, e);
    let a = s.answer;
    if !is_done(a) {
        return Emitted {
            answer: a,
            used,
            len,
            timers,
            next,
            left: limit,
        };
    }
    emit(
        c,
        kind,
        s.used,
        s.len,
        timers,
        row,
        me,
        source,
        value,
        next,
        limit - 1,
    )
}

// What goes first, and the commands of a row, the first `limit` with its Ack. After an 8 the cells are the caller's to put back.
fn run_row(
    c: &mut [[u64; 4]],
    kind: Kind,
    used: usize,
    len: u64,
    timers: u32,
    row: &[u64],
    me: Id,
    source: Id,
    value: u32,
    next: u64,
    limit: usize,
    first: First,
) -> Emitted
    requires { NetReady kind c.old used len × RowLaid row.now × (next + sends (orders row.now source value) ≤ 18446744073709551615) }
    ensures { Tried kind me first (take limit (front_of source first ++ asked next (orders row.now source value)))
        c.old used len timers result c.new }
{
    match first {
        First::Nothing => emit(
            c, kind, used, len, timers, row, me, source, value, next, limit,
        ),
        First::Message(e, number) => {
            let s = net_rows::on_deliver(c, kind, used, len, e);
            let a = s.answer;
            if !is_done(a) {
                return Emitted {
                    answer: a,
                    used,
                    len,
                    timers,
                    next,
                    left: limit,
                };
            }
            acked_row(
                c, kind, s.used, s.len, timers, row, me, source, value, number, next, limit,
            )
        }
    }
}

// The same, put back after an 8.
pub fn react_row(
    c: &mut [[u64; 4]; MOST_ENTRIES],
    kind: Kind,
    used: usize,
    len: u64,
    timers: u32,
    row: &[u64],
    me: Id,
    source: Id,
    value: u32,
    next: u64,
    limit: usize,
    first: First,
) -> Emitted
    requires { NetReady kind c.old used len × RowLaid row.now × (next + sends (orders row.now source value) ≤ 18446744073709551615)
        × (length c.old ≡ most_entries) }
    ensures { Safe kind me first (take limit (front_of source first ++ asked next (orders row.now source value)))
        c.old used len timers result c.new }
{
    let n = row[14];
    if roomy(MOST_ENTRIES, used, len, n + 1) {
        return run_row(
            c, kind, used, len, timers, row, me, source, value, next, limit, first,
        );
    }
    let old = *c;
    let s = run_row(
        c, kind, used, len, timers, row, me, source, value, next, limit, first,
    );
    let a = s.answer;
    if is_done(a) {
        return s;
    }
    *c = old;
    Emitted {
        answer: a,
        used,
        len,
        timers,
        next,
        left: limit,
    }
}
