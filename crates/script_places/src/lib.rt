// The places of a script: what stands from a place on, and where a record that begins there ends.
#![tactic(auto)]

ghost use Rattle.std.specs.Prelude.{◌≡◌, ◌+◌, ◌≤◌, ◌<◌, drop};
ghost use Rattle.layout.specs.Form.{whole_of};
ghost use Rattle.script_bits.specs.Front.{Front};
ghost use Rattle.script_places.specs.Views.{ending_of};

use script_bits::{cut, whole};

// A script is bad: its first bad record begins at this place.
#[derive(Clone, Copy, Debug, PartialEq, Eq)]
pub struct BadAt(pub usize);

// The same slice from the place `at` on. Past its end nothing is left.
pub fn from(s: &[u8], at: usize) -> &[u8]
    ensures { result.now ≡ drop at s.now }
{
    &s[at.min(s.len())..]
}

// The end of a record of `used` bits that begins at the place `at`, if it is not cut or badly padded. The place of a bad one is known to
// the caller: an error that holds it takes longer where actions are read.
pub fn end_of(script: &[u8], at: usize, used: usize) -> Option<usize>
    requires { used < 4096 }
    ensures { result ≡ ending_of at (whole_of (drop at script.now) used) used }
{
    if whole(from(script, at), used) {
        return Some(at + used.div_ceil(8));
    }
    None
}

// The same of a record whose bits all lie in the two words that stand at the place.
pub fn end_in(script: &[u8], at: usize, w: u64, v: u64, used: usize) -> Option<usize>
    requires { (used ≤ 128) × Front (drop at script.now) w v }
    ensures { result ≡ ending_of at (whole_of (drop at script.now) used) used }
{
    let size = used.div_ceil(8);
    if from(script, at).len() < size {
        return None;
    }
    if cut(w, v, used, 8 * size - used) == 0 {
        return Some(at + size);
    }
    None
}
