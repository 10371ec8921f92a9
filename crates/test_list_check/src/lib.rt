// For tests only: a list of scripts with the outputs that another program wrote for them, the oracle; each is replayed and compared.
// Every part of the list, a script or an output, has its length in front: four bytes, most significant first.
#![tactic(auto)]

ghost use Rattle.std.specs.Prelude.{◌≡◌, ◌<◌, ◌≤◌, MatchOption, length};
ghost use Rattle.test_list_check.specs.List.{large, part_size, pair_size, agrees, counted, tallied, IsPart, IsPair};

use replay_script::replay;
use script_bits::field32;

// The most bytes that an output may have here.
const LARGE: usize = 65536;

// The first that differs is counted from 1.
#[derive(Clone, Copy, Debug, PartialEq, Eq)]
pub struct Tally {
    pub scripts: usize,
    pub differ: usize,
    pub first: Option<usize>,
}

// The part at the front without its length, and what stands behind it; none if it is cut.
fn split_part(list: &[u8]) -> Option<(&[u8], &[u8])>
    ensures { MatchOption result (part_size list.now ≡ 0) (λ p. IsPart list.now p.0.now p.1.now) }
{
    let end = 4 + field32(list, 0, 32) as usize;
    if list.len() < end {
        return None;
    }
    Some((&list[4..end], &list[end..]))
}

// The pair at the front, a script and its output, and what stands behind it; none if it is cut.
#[tactic(auto, using(crate::proofs::Laws::no_part, crate::proofs::Laws::none_behind, crate::proofs::Laws::pair_made))]
fn split_pair(list: &[u8]) -> Option<(&[u8], &[u8], &[u8])>
    ensures { MatchOption result (pair_size list.now ≡ 0) (λ p. IsPair list.now p.0.now p.1.now p.2.now) }
{
    let (script, behind) = split_part(list)?;
    let (output, rest) = split_part(behind)?;
    Some((script, output, rest))
}

fn room() -> [u8; LARGE]
    ensures { large ≡ length result }
{
    [0; LARGE]
}

// Whether the port writes the output that is stored.
fn agree(script: &[u8], stored: &[u8]) -> bool
    ensures { result ≡ agrees script.now stored.now }
{
    let mut out = room();
    let size = replay(script, &mut out);
    if size > LARGE {
        return false;
    }
    &out[..size] == stored
}

fn count(t: Tally, right: bool) -> Tally
    requires { (t.scripts < 18446744073709551615) × (t.differ ≤ t.scripts) }
    ensures { result ≡ counted t right }
{
    let scripts = t.scripts + 1;
    if right {
        return Tally {
            scripts,
            differ: t.differ,
            first: t.first,
        };
    }
    Tally {
        scripts,
        differ: t.differ + 1,
        first: t.first.or(Some(scripts)),
    }
}

// A list that ends within a pair has one that differs there. A loop: each pair says where the next one begins.
pub fn check_list(list: &[u8]) -> Tally
    ensures { result ≡ tallied list.now }
{
    let mut t = Tally {
        scripts: 0,
        differ: 0,
        first: None,
    };
    let mut rest = list;
    while !rest.is_empty() {
        let Some((script, output, behind)) = split_pair(rest) else {
            return count(t, false);
        };
        t = count(t, agree(script, output));
        rest = behind;
    }
    t
}
