// Whether a network is well formed, asked of any content that the struct can hold.
#![tactic(auto)]

ghost use Rattle.std.specs.Prelude.{◌≡◌, true};
ghost use Rattle.lists.specs.Lists.{all, chain};
ghost use Rattle.rules.specs.Outcome.{base};
ghost use Rattle.rules.specs.WellFormed.{source_known, count_ok, in_order, last_ok};
ghost use Rattle.net_network.specs.Views.{NetLaid};
ghost use Rattle.net_formed.specs.Formed.{zeroed, parts_fine, net_formed};

use net_cells::zero_entry;
use net_compare::{before, flow_before, same_envelope};
use net_network::Network;
use types::{Entry, Envelope, Kind, MOST_ENTRIES};

// An entry that is not used is zero.
fn is_zero(x: Entry) -> bool
    ensures { result ≡ zeroed x }
{
    let z = zero_entry();
    x.count == 0 && same_envelope(x.envelope, z.envelope)
}

// The source is below the actor count.
fn source_known(e: Envelope, actors: usize) -> bool
    ensures { result ≡ source_known actors e }
{
    (e.src.0 as usize) < actors
}

// The count suits the kind. MOST_COPIES is the most that a count holds, so that it is not tested.
fn count_ok(kind: Kind, count: u16) -> bool
    ensures { result ≡ count_ok base.room.copies kind count }
{
    match kind {
        Kind::Ordered | Kind::UnorderedDuplicating => count == 1,
        Kind::UnorderedNonDuplicating => 1 <= count,
    }
}

fn stands_before(kind: Kind, x: Entry, y: Entry) -> bool
    ensures { result ≡ in_order kind x y }
{
    match kind {
        Kind::Ordered => !flow_before(y.envelope, x.envelope),
        Kind::UnorderedDuplicating | Kind::UnorderedNonDuplicating => {
            before(x.envelope, y.envelope)
        }
    }
}

fn all_zero(entries: &[Entry]) -> bool
    ensures { result ≡ all zeroed entries.now }
{
    entries.iter().all(|x| is_zero(*x))
}

fn sources_known(entries: &[Entry], actors: usize) -> bool
    ensures { result ≡ all (λ x. source_known actors x.envelope) entries.now }
{
    entries.iter().all(|x| source_known(x.envelope, actors))
}

fn counts_ok(kind: Kind, entries: &[Entry]) -> bool
    ensures { result ≡ all (λ x. count_ok base.room.copies kind x.count) entries.now }
{
    entries.iter().all(|x| count_ok(kind, x.count))
}

fn in_order(kind: Kind, entries: &[Entry]) -> bool
    ensures { result ≡ chain (in_order kind) entries.now }
{
    entries.is_sorted_by(|x, y| stands_before(kind, *x, *y))
}

// On kind 1 alone.
fn last_ok(kind: Kind, last: Option<Envelope>, actors: usize) -> bool
    ensures { result ≡ last_ok actors kind last }
{
    let Some(e) = last else {
        return true;
    };
    match kind {
        Kind::Ordered => false,
        Kind::UnorderedDuplicating => source_known(e, actors),
        Kind::UnorderedNonDuplicating => false,
    }
}

// What is asked of the entries in use and of the last message.
fn parts_ok(kind: Kind, entries: &[Entry], last: Option<Envelope>, actors: usize) -> bool
    ensures { result ≡ parts_fine kind actors entries.now last }
{
    sources_known(entries, actors)
        && counts_ok(kind, entries)
        && in_order(kind, entries)
        && last_ok(kind, last, actors)
}

pub fn net_ok(n: Network, actors: usize) -> bool
    ensures value { result ≡ net_formed n actors }
    ensures laid { result ≡ true → NetLaid n }
{
    if MOST_ENTRIES < n.used {
        return false;
    }
    let (used, unused) = n.entries.split_at(n.used);
    all_zero(unused) && parts_ok(n.kind, used, n.last, actors)
}
