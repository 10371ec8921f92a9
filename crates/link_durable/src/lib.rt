// The link's durable part: ordered arrays in structs with a count, and the tests of any content.
#![tactic(auto)]

ghost use Rattle.std.specs.Prelude.{◌≡◌, ◌≤◌, Bool, true, leb};
ghost use Rattle.lists.specs.Lists.{all, chain, ends_in};
ghost use Rattle.rules.specs.Outcome.{base};
ghost use Rattle.rules.specs.WellFormed.{pending_ok, by_number, durable_ok};
ghost use Rattle.link_durable.specs.Views.{in_use, laid, durable_view};
ghost use Rattle.link_durable.specs.Views.{blank_pending, pendings_laid, taken_laid, durable_laid, blank_durable};
ghost use Rattle.link_durable.specs.Views.{durable_fine, stored_fine};

use types::{Id, MOST_ACTORS, MOST_PENDING, Number, Payload, Pending};

// An array of which the first places are used, as there is no heap. Places from the used count on are zero.
#[derive(Clone, Copy)]
pub struct Filled<T, const N: usize> {
    pub places: [T; N],
    pub used: usize,
}

impl<T, const N: usize> Filled<T, N> {
    fn in_use(&self) -> &[T]
        requires { self.now.used ≤ N }
        ensures { result.now ≡ in_use self.now }
    {
        &self.places[..self.used]
    }

    // The count fits, and the free places pass a test.
    fn is_laid<F: FnMut(&T) -> bool>(&self, blank: F) -> bool
        requires { (f : F) (x : _) → F.pre f x }
        ensures { (p : T → Bool) → ((f g : F) (x : _) (b : Bool) → F.step f x b g → (g ≡ f) × (b ≡ p x.now)) → result ≡ laid p self.now }
    {
        let places = &self.places[..];
        self.used <= N && places[self.used..].iter().all(blank)
    }
}

// Messages sent and not acked, ascending by number.
pub type Pendings = Filled<Pending, MOST_PENDING>;

// At place s the number last taken from source s.
pub type Taken = Filled<Number, MOST_ACTORS>;

#[derive(Clone, Copy)]
pub struct Durable {
    pub next: Number,
    pub pending: Pendings,
    pub taken: Taken,
    pub inner: Option<u32>,
}

// What an actor has stored. Where `some` is false nothing is, and the durable part is all zero. A flag and no Option: a content that is
// not well formed may have `some` false before a durable part that is not zero. It is refused, and an Option could not hold it.
#[derive(Clone, Copy)]
pub struct Stored {
    pub some: bool,
    pub durable: Durable,
}

// The live part of a link: its durable part, and the state of the inner actor.
#[derive(Clone, Copy)]
pub struct Link {
    pub durable: Durable,
    pub state: u8,
}

// ---- tests of any content
// Field by field: `==` would need a zero record to compare with, and be no shorter.
#[tactic(auto, unfolding(lists::specs::Lists::every, crate::specs::Views::blank_pending))]
fn blank_pending(q: &Pending) -> bool
    ensures { result ≡ blank_pending q.now }
{
    q.number.0 == 0 && q.dst.0 == 0 && q.payload.0 == 0
}

// A record has a number of 1 or more, below the next one.
#[tactic(auto, unfolding(rules::specs::WellFormed::pending_ok))]
fn pending_ok(next: u64, q: &Pending) -> bool
    ensures { result ≡ pending_ok next q.now }
{
    1 <= q.number.0 && q.number.0 < next
}

fn pendings_laid(p: &Pendings) -> bool
    ensures { result ≡ pendings_laid p.now }
{
    p.is_laid(blank_pending)
}

fn taken_laid(t: &Taken) -> bool
    ensures { result ≡ taken_laid t.now }
{
    t.is_laid(|n| n.0 == 0)
}

#[tactic(auto, unfolding(lists::specs::Lists::every, crate::specs::Views::durable_laid))]
fn durable_laid(d: &Durable) -> bool
    ensures { result ≡ durable_laid d.now }
{
    pendings_laid(&d.pending) && taken_laid(&d.taken)
}

fn numbers_ok(next: u64, pending: &[Pending]) -> bool
    ensures { result ≡ all (pending_ok next) pending.now }
{
    pending.iter().all(|q| pending_ok(next, q))
}

// Each number is below the next one.
fn ascending(pending: &[Pending]) -> bool
    ensures { result ≡ chain by_number pending.now }
{
    pending.is_sorted_by(|a, b| a.number.0 < b.number.0)
}

// The last of the numbers last taken is 1 or more.
fn ends_in_one(taken: &[Number]) -> bool
    ensures { result ≡ ends_in (λ n. leb 1 n.0) taken.now }
{
    taken.last().is_none_or(|n| 1 <= n.0)
}

fn durable_formed(d: &Durable, actors: usize) -> bool
    requires { durable_laid d.now ≡ true }
    ensures { result ≡ durable_ok base.limits actors (durable_view d.now) }
{
    let pending = d.pending.in_use();
    let taken = d.taken.in_use();
    1 <= d.next.0
        && numbers_ok(d.next.0, pending)
        && ascending(pending)
        && taken.len() <= actors
        && ends_in_one(taken)
}

// A durable part of one of so many actors.
#[tactic(auto, unfolding(lists::specs::Lists::every, crate::specs::Views::durable_fine))]
pub fn durable_ok(d: Durable, actors: usize) -> bool
    ensures { result ≡ durable_fine actors d }
{
    durable_laid(&d) && durable_formed(&d, actors)
}

#[tactic(auto, unfolding(lists::specs::Lists::every, crate::specs::Views::blank_durable, crate::specs::Views::unsaved))]
fn blank_durable(d: &Durable) -> bool
    ensures { result ≡ blank_durable d.now }
{
    d.next.0 == 0 && d.pending.used == 0 && d.taken.used == 0 && d.inner.is_none()
}

// What an actor has stored.
pub fn stored_ok(s: Stored, actors: usize) -> bool
    ensures { result ≡ stored_fine actors s }
{
    if s.some {
        return durable_ok(s.durable, actors);
    }
    durable_laid(&s.durable) && blank_durable(&s.durable)
}
