// What stands before the actions of a script: its header, the tables of its actors and its starting envelopes. Each list is read into an
// array, with the place after it, or it is bad at a place.
#![tactic(auto)]

ghost use Rattle.std.specs.Prelude.{◌≡◌, ℕ, ◌≤◌, drop};
ghost use Rattle.lists.specs.Lists.{pad};
ghost use Rattle.types.specs.Capacities.{most_actors};
ghost use Rattle.layout.specs.Read.{Reader, repeat};
ghost use Rattle.rules.specs.Script.{versions, Fine, table_from, envelopes_from, opening_from};
ghost use Rattle.script_places.specs.Says.{reading_says};
ghost use Rattle.script_places.specs.Views.{same, result_of};
ghost use Rattle.script_opening.specs.Views.{Kept, table_read, tables_read, zero_envelope, envelopes_read, opening_read};
ghost use Rattle.script_opening.specs.Says.{table_says, tables_says, envelopes_says, opening_says};

use link_inner::{Table, zero_rule, zero_table};
use script_places::BadAt;
use script_records::{format_of, read_envelope, read_envelope_count, read_header, read_rule_count};
use script_rules::read_rule;
use types::{Envelope, Format, Id, MOST_ACTORS, MOST_ENTRIES, Message, Number, Payload};

// Fixed arrays with their counts, as there is no heap. Unused places hold the zero table.
#[derive(Clone, Copy)]
pub struct Tables {
    pub list: [Table; MOST_ACTORS],
    pub used: usize,
}

// Likewise the zero envelope. `sys_start::Given` is another struct, since the script's group uses none of the system's.
#[derive(Clone, Copy)]
pub struct Envelopes {
    pub list: [Envelope; MOST_ENTRIES],
    pub used: usize,
}

// The kind is a number, as the start takes it.
#[derive(Clone, Copy)]
pub struct Opening {
    pub version: u8,
    pub kind: u8,
    pub tables: Tables,
    pub envelopes: Envelopes,
}

// So many, one after another, as `read` reads each at its place. The first bad one ends it. Unused places hold `blank`.
fn read_many<T: Copy, const N: usize, F: Fn(usize) -> Result<(T, usize), BadAt>>(
    script: &[u8],
    at: usize,
    count: usize,
    blank: T,
    read: F,
) -> Result<([T; N], usize), BadAt>
    ghost reader: { Reader T }
    requires room { count ≤ N }
    requires callable { F.IsAlwaysCallable read }
    requires kept { Kept reader }
    requires reads { (p : ℕ) (r : _) → F.post read p r → r ≡ result_of same (reader (drop p script.now) p) }
    ensures { result ≡ result_of (pad N blank) (repeat count reader (drop at script.now) at) }
{
    let mut list = [blank; N];
    let mut next = at;
    for i in 0..count {
        let (value, after) = read(next)?;
        list[i] = value;
        next = after;
    }
    Ok((list, next))
}

// A rule count, and so many rules.
pub fn read_table(script: &[u8], at: usize, f: Format) -> Result<(Table, usize), BadAt>
    requires { Fine f }
    ensures value { result ≡ table_read (table_from f (drop at script.now) at) }
    ensures says { table_says result ≡ reading_says (table_from f (drop at script.now) at) }
{
    let (used, first) = read_rule_count(script, at)?;
    let (rules, next) = read_many(
        script,
        first,
        used,
        zero_rule(),
        |p| read_rule(script, p, f),
    )?;
    Ok((Table { rules, used }, next))
}

// The tables of so many actors.
pub fn read_tables(
    script: &[u8],
    at: usize,
    count: usize,
    f: Format,
) -> Result<(Tables, usize), BadAt>
    requires { (count ≤ most_actors) × Fine f }
    ensures value { result ≡ tables_read (repeat count (table_from f) (drop at script.now) at) }
    ensures says { tables_says result ≡ reading_says (repeat count (table_from f) (drop at script.now) at) }
{
    let (list, next) = read_many(
        script,
        at,
        count,
        zero_table(),
        |p| read_table(script, p, f),
    )?;
    Ok((Tables { list, used: count }, next))
}

// By hand and no Default: a message has no case without fields.
fn zero_envelope() -> Envelope
    ensures { result ≡ zero_envelope }
{
    Envelope {
        src: Id(0),
        dst: Id(0),
        msg: Message::Deliver(Number(0), Payload(0)),
    }
}

// The starting envelopes: their count, and each of them.
pub fn read_envelopes(script: &[u8], at: usize, f: Format) -> Result<(Envelopes, usize), BadAt>
    requires { Fine f }
    ensures value { result ≡ envelopes_read (envelopes_from f (drop at script.now) at) }
    ensures says { envelopes_says result ≡ reading_says (envelopes_from f (drop at script.now) at) }
{
    let (used, first) = read_envelope_count(script, at, f)?;
    let (list, next) = read_many(
        script,
        first,
        used,
        zero_envelope(),
        |p| read_envelope(script, p, f),
    )?;
    Ok((Envelopes { list, used }, next))
}

// The header says the version, and so the format, of all that follows it.
pub fn read_opening(script: &[u8]) -> Result<(Opening, usize), BadAt>
    ensures value { result ≡ opening_read (opening_from versions script.now 0) }
    ensures says { opening_says result ≡ reading_says (opening_from versions script.now 0) }
{
    let (header, first) = read_header(script, 0)?;
    let f = format_of(header.version);
    let (tables, middle) = read_tables(script, first, header.actors as usize, f)?;
    let (envelopes, next) = read_envelopes(script, middle, f)?;
    Ok((
        Opening {
            version: header.version,
            kind: header.kind,
            tables,
            envelopes,
        },
        next,
    ))
}
