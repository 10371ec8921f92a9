// The network in place: send, deliver and drop of the first used cells of a lent slice, for all three kinds. The used
// count and the count of messages go in and come back in a small answer. On a refusal the cells are as they were.
// The slice and its counts are parameters and no struct: a ghost field cannot stand beside a lent slice.
#![tactic(auto)]

ghost use Rattle.std.specs.Prelude.{◌≡◌, true, not, ◌≤◌, ◌<◌};
ghost use Rattle.lists.specs.Lists.{chain, lead, ins};
ghost use Rattle.types.specs.declared.Kind.{Kind};
ghost use Rattle.types.specs.declared.Kind.TheVariants.{Ordered, UnorderedDuplicating, UnorderedNonDuplicating};
ghost use Rattle.types.specs.Order.{same};
ghost use Rattle.rules.specs.Network.{single, send, on_deliver, on_drop};
ghost use Rattle.net_rows.specs.Search.{stands, look_up};
ghost use Rattle.net_rows.specs.Views.{entry_list, room_of, NetLaid, NetReady, Makes, TakesOut};
ghost use Rattle.net_rows.specs.Parts.{envelope_in, Alone, counted_at, Enters, absent_of};

use answers::{Answer, Refusal};
use net_cells::{cell_of, same};
use net_slots::{cells_before, first_equal, flow_end};
use rows::{insert_at, remove_at};
use types::{Envelope, Kind, MOST_COPIES};

// Where the answer is not Done, the counts are those that came.
#[derive(Clone, Copy)]
pub struct Sent {
    pub answer: Answer,
    pub used: usize,
    pub len: u64,
}

// A new cell at a place, if there is room.
fn insert_cell(c: &mut [[u64; 4]], used: usize, len: u64, at: usize, k: [u64; 4]) -> Sent
    requires { NetLaid c.old used len × (at ≤ used) × Alone k }
    ensures { Enters (ins at (single (envelope_in k))) c.old used len result c.new }
{
    if c.len() <= used {
        return Sent {
            answer: Err(Refusal::NetworkFull),
            used,
            len,
        };
    }
    insert_at(c, used, at, k);
    let answer = Ok(());
    Sent {
        answer,
        used: used + 1,
        len: len + 1,
    }
}

// One copy more of the cell at a place, if it can be counted.
fn count_up(c: &mut [[u64; 4]], used: usize, len: u64, at: usize) -> Sent
    requires { NetLaid c.old used len × (at < used) }
    ensures { Enters (counted_at at) c.old used len result c.new }
{
    let most = MOST_COPIES as u64;
    let n = c[at][3];
    if most <= n {
        return Sent {
            answer: Err(Refusal::NetworkFull),
            used,
            len,
        };
    }
    c[at][3] = n + 1;
    Sent {
        answer: Ok(()),
        used,
        len: len + 1,
    }
}

// One copy less of the cell at a place; the last one takes the cell along.
fn take_out(c: &mut [[u64; 4]], used: usize, len: u64, at: usize) -> Sent
    requires { NetLaid c.old used len × (at < used) }
    ensures { TakesOut at c.old used len result c.new }
{
    let n = c[at][3];
    if n <= 1 {
        remove_at(c, used, at);
        return Sent {
            answer: Ok(()),
            used: used - 1,
            len: len - n,
        };
    }
    c[at][3] = n - 1;
    Sent {
        answer: Ok(()),
        used,
        len: len - 1,
    }
}

// The look-up where the cells ascend: the place of the envelope, or else where it would stand.
fn look_up(c: &[[u64; 4]], used: usize, len: u64, k: [u64; 4]) -> Result<usize, usize>
    requires { NetLaid c.now used len × Alone k × (chain stands (entry_list c.now used) ≡ true) }
    ensures { result ≡ look_up (envelope_in k) (entry_list c.now used) }
{
    let at = cells_before(&c[..used], k);
    if at < used && same(c[at], k) {
        return Ok(at);
    }
    Err(at)
}

// After its flow.
fn send_ordered(c: &mut [[u64; 4]], used: usize, len: u64, k: [u64; 4]) -> Sent
    requires { NetReady Ordered c.old used len × Alone k }
    ensures { Makes (send (room_of c.old) (envelope_in k)) Ordered c.old used len result c.new }
{
    let at = flow_end(&c[..used], k);
    insert_cell(c, used, len, at, k)
}

// At its place, once.
fn send_once(c: &mut [[u64; 4]], used: usize, len: u64, k: [u64; 4]) -> Sent
    requires { NetReady UnorderedDuplicating c.old used len × Alone k }
    ensures { Makes (send (room_of c.old) (envelope_in k)) UnorderedDuplicating c.old used len result c.new }
{
    match look_up(c, used, len, k) {
        Ok(_) => Sent {
            answer: Ok(()),
            used,
            len,
        },
        Err(at) => insert_cell(c, used, len, at, k),
    }
}

// At its place, counted.
fn send_counted(c: &mut [[u64; 4]], used: usize, len: u64, k: [u64; 4]) -> Sent
    requires { NetReady UnorderedNonDuplicating c.old used len × Alone k }
    ensures { Makes (send (room_of c.old) (envelope_in k)) UnorderedNonDuplicating c.old used len result c.new }
{
    match look_up(c, used, len, k) {
        Ok(at) => count_up(c, used, len, at),
        Err(at) => insert_cell(c, used, len, at, k),
    }
}

pub fn send(c: &mut [[u64; 4]], kind: Kind, used: usize, len: u64, e: Envelope) -> Sent
    requires { NetReady kind c.old used len }
    ensures { Makes (send (room_of c.old) e) kind c.old used len result c.new }
{
    let k = cell_of(e);
    match kind {
        Kind::Ordered => send_ordered(c, used, len, k),
        Kind::UnorderedDuplicating => send_once(c, used, len, k),
        Kind::UnorderedNonDuplicating => send_counted(c, used, len, k),
    }
}

fn sorted_place(c: &[[u64; 4]], used: usize, len: u64, k: [u64; 4]) -> usize
    requires { NetLaid c.now used len × Alone k × (chain stands (entry_list c.now used) ≡ true) }
    ensures { result ≡ lead (λ x. not (same (envelope_in k) x.envelope)) (entry_list c.now used) }
{
    look_up(c, used, len, k).unwrap_or(used)
}

// The place of the first equal message, or the count, and no Option: the page of contracts promises it so.
pub fn equal_place(c: &[[u64; 4]], kind: Kind, used: usize, len: u64, e: Envelope) -> usize
    requires { NetReady kind c.now used len }
    ensures { result ≡ lead (λ x. not (same e x.envelope)) (entry_list c.now used) }
{
    let k = cell_of(e);
    match kind {
        Kind::Ordered => first_equal(&c[..used], k),
        _ => sorted_place(c, used, len, k),
    }
}

// The answer where there is nothing to drop: the duplicating kind is silent.
fn when_absent(kind: Kind) -> Answer
    ensures { result ≡ absent_of kind }
{
    match kind {
        Kind::Ordered => Err(Refusal::Absent),
        Kind::UnorderedDuplicating => Ok(()),
        Kind::UnorderedNonDuplicating => Err(Refusal::Absent),
    }
}

pub fn on_drop(c: &mut [[u64; 4]], kind: Kind, used: usize, len: u64, e: Envelope) -> Sent
    requires { NetReady kind c.old used len }
    ensures { Makes (on_drop e) kind c.old used len result c.new }
{
    let at = equal_place(c, kind, used, len, e);
    if at < used {
        return take_out(c, used, len, at);
    }
    Sent {
        answer: when_absent(kind),
        used,
        len,
    }
}

// The duplicating kind keeps what is delivered; its last message is the caller's to note.
pub fn on_deliver(c: &mut [[u64; 4]], kind: Kind, used: usize, len: u64, e: Envelope) -> Sent
    requires { NetReady kind c.old used len }
    ensures { Makes (on_deliver e) kind c.old used len result c.new }
{
    match kind {
        Kind::UnorderedDuplicating => Sent {
            answer: Ok(()),
            used,
            len,
        },
        _ => on_drop(c, kind, used, len, e),
    }
}
