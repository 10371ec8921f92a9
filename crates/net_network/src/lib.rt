// The network as a struct: an ordered array of entries with its used count, and the last message of the duplicating kind. A
// change lays the entries out as cells, is made there, and is laid back.
#![tactic(auto)]

ghost use Rattle.std.specs.Prelude.{◌≡◌, [], ◌≤◌, length, sum_by, None};
ghost use Rattle.types.specs.Capacities.{most_entries};
ghost use Rattle.rules.specs.Outcome.{base};
ghost use Rattle.rules.specs.Network.{send, on_deliver, on_drop, len};
ghost use Rattle.net_layout.specs.Layout.{Readable};
ghost use Rattle.net_rows.specs.Views.{last_after};
ghost use Rattle.net_network.specs.Views.{entry_list, net_view, network_of, NetReady, sent_of};
ghost use Rattle.net_network.specs.Parts.{read_back};

use answers::Answer;
use net_cells::zero_entry;
use net_layout::{cells_of, entries_of};
use types::{Entry, Envelope, Kind, MOST_ENTRIES};

// A fixed array with its used count, so that no memory is asked for; places from the count on hold the zero entry. That is no
// invariant: a network that is not well formed is a value too, which `net_formed` tells.
#[derive(Clone, Copy)]
pub struct Network {
    pub kind: Kind,
    pub entries: [Entry; MOST_ENTRIES],
    pub used: usize,
    pub last: Option<Envelope>,
}

// The rules hand a network back with a refusal too, so it stands beside the answer and not in a Result. Where the answer is not
// Done, the network is the one that came.
#[derive(Clone, Copy)]
pub struct Sent {
    pub answer: Answer,
    pub network: Network,
}

// A network of a kind with nothing on it.
#[tactic(auto, unfolding(lists::specs::Lists::pad))]
pub fn blank(kind: Kind) -> Network
    ensures { result ≡ network_of (record { kind = kind; entries = []; last = None }) }
{
    Network {
        kind,
        entries: [zero_entry(); MOST_ENTRIES],
        used: 0,
        last: None,
    }
}

fn sum_of_counts(entries: &[Entry]) -> u64
    requires { length entries.now ≤ most_entries }
    ensures { result ≡ sum_by (λ x. x.count) entries.now }
{
    entries.iter().map(|x| x.count as u64).sum()
}

// Set size, sum of counts, or sum of flow lengths.
#[tactic(auto, using(crate::proofs::Sums::counts_sum))]
pub fn len(n: Network) -> u64
    requires { n.used ≤ most_entries }
    ensures { result ≡ len (entry_list n) }
{
    sum_of_counts(&n.entries[..n.used])
}

// The network that the used cells are.
pub fn read_back(kind: Kind, c: &[[u64; 4]], used: usize, last: Option<Envelope>) -> Network
    requires { Readable c.now used }
    ensures { result ≡ read_back kind c.now used last }
{
    Network {
        kind,
        entries: entries_of(c, used),
        used,
        last,
    }
}

// The last message after a Deliver: on the duplicating kind, where none is refused, it is this one.
pub fn last_after(kind: Kind, e: Envelope, last: Option<Envelope>) -> Option<Envelope>
    ensures { result ≡ last_after kind e last }
{
    match kind {
        Kind::Ordered => last,
        Kind::UnorderedDuplicating => Some(e),
        Kind::UnorderedNonDuplicating => last,
    }
}

// ---- the changes: laid out, changed in place, laid back with the last message that the change leaves
pub fn send(n: Network, e: Envelope) -> Sent
    requires { NetReady n }
    ensures { result ≡ sent_of n (send base.room e (net_view n)) }
{
    let mut cells = cells_of(n.entries, n.used);
    let s = net_rows::send(&mut cells, n.kind, n.used, len(n), e);
    Sent {
        answer: s.answer,
        network: read_back(n.kind, &cells, s.used, n.last),
    }
}

pub fn on_drop(n: Network, e: Envelope) -> Sent
    requires { NetReady n }
    ensures { result ≡ sent_of n (on_drop e (net_view n)) }
{
    let kept = n.last;
    let mut cells = cells_of(n.entries, n.used);
    let s = net_rows::on_drop(&mut cells, n.kind, n.used, len(n), e);
    Sent {
        answer: s.answer,
        network: read_back(n.kind, &cells, s.used, kept),
    }
}

pub fn on_deliver(n: Network, e: Envelope) -> Sent
    requires { NetReady n }
    ensures { result ≡ sent_of n (on_deliver e (net_view n)) }
{
    let last = last_after(n.kind, e, n.last);
    let mut cells = cells_of(n.entries, n.used);
    let s = net_rows::on_deliver(&mut cells, n.kind, n.used, len(n), e);
    Sent {
        answer: s.answer,
        network: read_back(n.kind, &cells, s.used, last),
    }
}
