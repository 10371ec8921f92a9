// Rows of four words in a lent slice, of which the first are used: one put in, one taken out, the first ones copied. All are
// moved where they lie, and what stands after the used ones is not looked at, so that nothing grows with the room.
#![tactic(auto)]

ghost use Rattle.std.specs.Prelude.{◌≡◌, ◌+◌, ◌-◌, ◌≤◌, ◌<◌, length, take};
ghost use Rattle.lists.specs.Lists.{ins, del};
ghost use Rattle.rows.specs.Moves.{Moved};

// The count and no shorter slice: the row that is put in needs the place behind the used ones.
// k at a place; what stood there and after it, up to the count, goes one place on.
pub fn insert_at(c: &mut [[u64; 4]], used: usize, at: usize, k: [u64; 4])
    requires { (at ≤ used) × (used < length c.old) }
    ensures { Moved (used + 1) (ins at k (take used c.old)) c.old c.new }
{
    c.copy_within(at..used, at + 1);
    c[at] = k;
}

// What stands at a place is gone; what stood after it goes one place down.
#[tactic(auto, using(crate::proofs::Laws::removed))]
pub fn remove_at(c: &mut [[u64; 4]], used: usize, at: usize)
    requires { (at < used) × (used ≤ length c.old) }
    ensures { Moved (used - 1) (del at (take used c.old)) c.old c.new }
{
    c.copy_within(at + 1..used, at);
}

// The first n rows of one are put in the place of those of the other.
pub fn copy_rows(from: &[[u64; 4]], to: &mut [[u64; 4]], n: usize)
    requires { (n ≤ length from.now) × (n ≤ length to.old) }
    ensures { take n to.new ≡ take n from.now }
{
    to[..n].copy_from_slice(&from[..n]);
}
