// The timers of an actor: a set, one bit of a word each. Network is the last one, and those below it are the user's.
#![tactic(auto)]

ghost use Rattle.std.specs.Prelude.{◌≡◌};
ghost use Rattle.rules.specs.Timers.{no_timers, is_set, count_timers};
ghost use Rattle.link_timers.specs.Views.{listed, timers_of, set_of, cancel_of, first_from};

use types::NETWORK;

// Bit t is timer t.
#[derive(Clone, Copy)]
pub struct Timers(pub u32);

// The set after a change that was asked for, and whether it is another than before. Both always mean something, so it is a pair and
// no Option: the caller goes on with the set either way.
#[derive(Clone, Copy)]
pub struct Change {
    pub changed: bool,
    pub timers: Timers,
}

impl Timers {
    // No timer is set.
    pub fn new() -> Self
        ensures { result ≡ timers_of no_timers }
    {
        Timers(0)
    }

    pub fn is_set(self, t: u8) -> bool
        ensures { result ≡ is_set t (listed self.0) }
    {
        t <= NETWORK && (self.0 >> t) & 1 == 1
    }

    // A timer above Network, or one that is set, changes nothing.
    pub fn set(self, t: u8) -> Change
        ensures { result ≡ set_of self t }
    {
        if NETWORK < t || self.is_set(t) {
            return Change {
                changed: false,
                timers: self,
            };
        }
        Change {
            changed: true,
            timers: Timers(self.0 | 1 << t),
        }
    }

    // A timer that is not set changes nothing.
    pub fn cancel(self, t: u8) -> Change
        ensures { result ≡ cancel_of self t }
    {
        if self.is_set(t) {
            return Change {
                changed: true,
                timers: Timers(self.0 & !(1 << t)),
            };
        }
        Change {
            changed: false,
            timers: self,
        }
    }

    pub fn cancel_all(self) -> Self
        ensures { result ≡ timers_of no_timers }
    {
        Timers::new()
    }

    // How many timers are set.
    pub fn count(self) -> u32
        ensures { result ≡ count_timers (listed self.0) }
    {
        self.0.count_ones()
    }

    // The listing, ascending: the least timer that is set and is at least from. An index and an answer, with no state between the calls.
    pub fn next(self, from: u8) -> Option<u8>
        ensures { result ≡ first_from from (listed self.0) }
    {
        if NETWORK < from {
            return None;
        }
        let zeros = (self.0 & 0xffff_ffff << from).trailing_zeros();
        if (NETWORK as u32) < zeros {
            return None;
        }
        Some(zeros as u8)
    }

    // In place, a thin pair over `set` and `cancel`: the set is changed where it stands, and the answer is whether it changed.
    // One method with the change as a closure would be longer than the two.
    pub fn set_in_place(&mut self, t: u8) -> bool
        ensures { (self.new ≡ (set_of self.old t).timers) × (result ≡ (set_of self.old t).changed) }
    {
        let set = self.set(t);
        *self = set.timers;
        set.changed
    }

    pub fn cancel_in_place(&mut self, t: u8) -> bool
        ensures { (self.new ≡ (cancel_of self.old t).timers) × (result ≡ (cancel_of self.old t).changed) }
    {
        let cancelled = self.cancel(t);
        *self = cancelled.timers;
        cancelled.changed
    }
}
