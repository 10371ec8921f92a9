// An entry as four words: its head (source, destination and tag in one number), number, payload, count. The order of
// entries is that of the first three words.
#![tactic(auto)]

ghost use Rattle.std.specs.Prelude.{◌≡◌, ◌%◌, ◌≤◌, ◌<◌, get_or};
ghost use Rattle.rules.specs.Network.{single};
ghost use Rattle.types.specs.Capacities.{most_copies};
ghost use Rattle.types.specs.Order.{is_less, is_equal};
ghost use Rattle.net_cells.specs.Cells.{tags, payloads, head_with, message_of, entry_of, zero_entry, cmp_cell, Packed};

use types::{Entry, Envelope, Id, Message, Number, Payload};

// The tags that a head has room for: 0 is a Deliver, 1 an Ack.
pub const TAGS: u64 = 4;

// A payload is less than this.
const PAYLOADS: u64 = 4294967296;

fn head_with(src: Id, dst: Id, tag: u64) -> u64
    requires { tag < tags }
    ensures { result ≡ head_with src.0 dst.0 tag }
{
    ((src.0 as u64) * 256 + (dst.0 as u64)) * TAGS + tag
}

// An envelope once. These are functions and no From or TryFrom: neither an array nor an entry is a type of this crate.
pub fn cell_of(e: Envelope) -> [u64; 4]
    ensures { Packed (single e) result }
{
    match e.msg {
        Message::Deliver(n, p) => [head_with(e.src, e.dst, 0), n.0, p.0 as u64, 1],
        Message::Ack(n) => [head_with(e.src, e.dst, 1), n.0, 0, 1],
    }
}

// An entry with its count.
pub fn cell_with(x: Entry) -> [u64; 4]
    ensures { Packed x result }
{
    let mut w = cell_of(x.envelope);
    w[3] = x.count as u64;
    w
}

#[tactic(auto, unfolding(crate::specs::Cells::message_of))]
fn message_of(tag: u64, number: u64, payload: u64) -> Message
    ensures { result ≡ message_of tag number (payload % payloads) }
{
    match tag {
        0 => Message::Deliver(Number(number), Payload((payload % PAYLOADS) as u32)),
        _ => Message::Ack(Number(number)),
    }
}

// The entry that a cell is.
#[tactic(auto, unfolding(crate::specs::Cells::entry_of))]
pub fn entry_of(c: [u64; 4]) -> Entry
    requires { get_or c 3 0 ≤ most_copies }
    ensures { result ≡ entry_of c }
{
    let [head, number, payload, count] = c;
    Entry {
        envelope: Envelope {
            src: Id((head / (256 * TAGS) % 256) as u8),
            dst: Id((head / TAGS % 256) as u8),
            msg: message_of(head % TAGS, number, payload),
        },
        count: count as u16,
    }
}

pub fn zero_entry() -> Entry
    ensures { result ≡ zero_entry }
{
    Entry {
        envelope: Envelope {
            src: Id(0),
            dst: Id(0),
            msg: Message::Deliver(Number(0), Payload(0)),
        },
        count: 0,
    }
}

// x stands before k. Word by word: two slices or two tuples compare the same words and take longer.
#[tactic(auto, unfolding(crate::specs::Cells::cmp_cell))]
pub fn before(x: [u64; 4], k: [u64; 4]) -> bool
    ensures { result ≡ is_less (cmp_cell x k) }
{
    x[0] < k[0] || x[0] == k[0] && (x[1] < k[1] || x[1] == k[1] && x[2] < k[2])
}

// The same envelope, word by word for the same reason.
#[tactic(auto, unfolding(crate::specs::Cells::cmp_cell))]
pub fn same(x: [u64; 4], k: [u64; 4]) -> bool
    ensures { result ≡ is_equal (cmp_cell x k) }
{
    x[0] == k[0] && x[1] == k[1] && x[2] == k[2]
}
