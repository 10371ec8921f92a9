// The names of the network's kinds: which kind a lent name is, and a name written into a lent buffer, by its kind or by its place in the list.
#![tactic(auto)]

ghost use Rattle.std.specs.Prelude.{◌≡◌, drop};
ghost use Rattle.rules.specs.Network.{name_of, names, kind_named};
ghost use Rattle.net_names.specs.Names.{named_of, outcome_number, outcome_kinds, named_number, named_kinds};
ghost use Rattle.net_names.specs.Names.{written_as, left_on, first_listed, first_left};

use types::Kind;

const KINDS: [Kind; 3] = [
    Kind::Ordered,
    Kind::UnorderedDuplicating,
    Kind::UnorderedNonDuplicating,
];

// The name is no kind's. This is refusal 12.
#[derive(Clone, Copy, Debug, PartialEq, Eq)]
pub struct UnknownName;

// The name does not fit into the buffer, and nothing was written.
#[derive(Clone, Copy, Debug, PartialEq, Eq)]
pub struct NoRoom;

fn name_of(kind: Kind) -> &'static [u8]
    ensures { result.now ≡ name_of kind }
{
    match kind {
        Kind::Ordered => b"ordered",
        Kind::UnorderedDuplicating => b"unordered_duplicating",
        Kind::UnorderedNonDuplicating => b"unordered_nonduplicating",
    }
}

pub fn from_name(name: &[u8]) -> Result<Kind, UnknownName>
    ensures value { result ≡ named_of (kind_named name.now) }
    ensures says { (named_number result ≡ outcome_number (kind_named name.now))
        × (named_kinds result ≡ outcome_kinds (kind_named name.now)) }
{
    KINDS
        .iter()
        .find(|kind| name == name_of(**kind))
        .copied()
        .ok_or(UnknownName)
}

// The name goes to the front of the buffer, and the answer is its length. Where it does not fit, nothing is written.
pub fn write_name(kind: Kind, out: &mut [u8]) -> Result<usize, NoRoom>
    ensures value { result ≡ written_as (name_of kind) out.old }
    ensures out_after { out.new ≡ left_on (name_of kind) out.old }
{
    let name = name_of(kind);
    let n = name.len();
    if out.len() < n {
        return Err(NoRoom);
    }
    out[..n].copy_from_slice(name);
    Ok(n)
}

// The list of names, as an index and an answer: the name at the index is written. Past the last one nothing is.
pub fn names(index: usize, out: &mut [u8]) -> Option<Result<usize, NoRoom>>
    ensures value { result ≡ first_listed (drop index names) out.old }
    ensures out_after { out.new ≡ first_left (drop index names) out.old }
{
    let kind = *KINDS.get(index)?;
    Some(write_name(kind, out))
}
