// The network's two listings, each as an index and an answer: all envelopes as often as they are there, and those that can be delivered.
#![tactic(auto)]

ghost use Rattle.std.specs.Prelude.{◌≡◌, ◌-◌, ◌<◌, length, take, drop, MatchOption};
ghost use Rattle.net_listing.specs.Listing.{start, listed_from, listed_next, shows, OffersNone, IsFirstOffered, offered_from, offered_next};

use net_compare::same_flow;
use net_network::Network;
use types::{Entry, Envelope, Kind};

// A place in the full listing: an entry, and how many envelopes from that entry on were listed.
#[derive(Clone, Copy, Debug, PartialEq, Eq)]
pub struct Cursor {
    pub entry: usize,
    pub copy: u16,
}

pub fn first_place() -> Cursor
    ensures { result ≡ start }
{
    Cursor { entry: 0, copy: 0 }
}

// The entries in use, which are no more than there are, whatever the count says.
fn in_use(entries: &[Entry], used: usize) -> &[Entry]
    ensures { result.now ≡ take used entries.now }
{
    let end = used.min(entries.len());
    &entries[..end]
}

fn listed_from(entries: &[Entry], at: usize, copy: u16) -> Option<(Envelope, Cursor)>
    ensures { result ≡ listed_from at copy (drop at entries.now) }
{
    let left = entries.get(at..)?;
    let mut k = copy;
    for (i, here) in left.iter().enumerate() {
        if k < here.count {
            let next = Cursor {
                entry: at + i,
                copy: k + 1,
            };
            return Some((here.envelope, next));
        }
        k -= here.count;
    }
    None
}

// The full listing from a cursor on: the envelope there, and the place after it. Past the last envelope there is none, for any cursor.
pub fn next_listed(n: Network, c: Cursor) -> Option<(Envelope, Cursor)>
    ensures { result ≡ listed_next n c }
{
    listed_from(in_use(&n.entries, n.used), c.entry, c.copy)
}

// Whether the entry at i is offered.
fn is_offered(kind: Kind, entries: &[Entry], i: usize) -> bool
    requires { i < length entries.now }
    ensures { result ≡ shows kind entries.now i }
{
    match kind {
        Kind::Ordered => i == 0 || !same_flow(entries[i - 1].envelope, entries[i].envelope),
        Kind::UnorderedDuplicating | Kind::UnorderedNonDuplicating => true,
    }
}

// The first place from one on that is offered.
fn first_offered(kind: Kind, entries: &[Entry], at: usize) -> Option<usize>
    ensures { MatchOption result (OffersNone kind entries.now at (length entries.now)) (IsFirstOffered kind entries.now at) }
{
    (at..entries.len()).find(|i| is_offered(kind, entries, *i))
}

fn offered_from(kind: Kind, entries: &[Entry], at: usize) -> Option<(Envelope, usize)>
    ensures { result ≡ offered_from kind entries.now (length entries.now - at) at }
{
    let i = first_offered(kind, entries, at)?;
    Some((entries[i].envelope, i + 1))
}

// The deliverable listing from an entry on: the whole set, each distinct envelope once, or the front of each flow. The answer is the
// envelope and the place after it. On kind 0 the entries of a flow stand together in a well-formed network, so that the entry before tells a front.
pub fn next_deliverable(n: Network, at: usize) -> Option<(Envelope, usize)>
    ensures { result ≡ offered_next n at }
{
    offered_from(n.kind, in_use(&n.entries, n.used), at)
}
