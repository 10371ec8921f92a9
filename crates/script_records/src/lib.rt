// The records of a script but its rules. Each is read at a place, as the script's format says: the answer is the value with the place
// after it, or the place of the bad record.
// Script, place and format are parameters and no struct: each clause would have to name the loan in its field. `Fine` is a clause, since
// the rules speak of any format.
#![tactic(auto)]

ghost use Rattle.std.specs.Prelude.{◌≡◌, List, ℕ, ◌+◌, ◌≤◌, ◌<◌, drop, leb, eqb, IfSome};
ghost use Rattle.lists.specs.Lists.{any};
ghost use Rattle.layout.specs.Form.{filled, field, follow, only};
ghost use Rattle.layout.specs.Read.{one};
ghost use Rattle.script_bits.specs.Front.{Front};
ghost use Rattle.rules.specs.Script.{version1, versions, format_of, Fine, header_ok, header_form, rule_count_form, envelope_count_form};
ghost use Rattle.rules.specs.Script.{message_form, envelope_form, action_form, unread};
ghost use Rattle.script_places.specs.Says.{reading_says};
ghost use Rattle.script_records.specs.Views.{header_read, count_read, envelope_read, action_read, message_part, envelope_part, action_part, action_end};
ghost use Rattle.script_records.specs.Says.{header_says, count_says, envelope_says, action_says};

use script_bits::{cut, cut8, cut32, field, field8, word};
use script_places::{BadAt, end_in, end_of, from};
use types::{Action, Envelope, Format, Id, MOST_ACTORS, MOST_RULES, Message, Number, Payload};

// The kind is a number, as the start takes it.
#[derive(Clone, Copy)]
pub struct Header {
    pub version: u8,
    pub kind: u8,
    pub actors: u8,
}

// The part of an action and the bit after it, or that nothing has such fields. By cases: copied out of an option in an option it takes longer.
#[derive(Clone, Copy)]
enum ActionPart {
    Act(Action, usize),
    End(usize),
    Stuck,
}

// ---- versions
fn version_1() -> Format
    ensures { result ≡ version1 }
{
    Format {
        version: 1,
        event: 2,
        command: 2,
        count: 8,
        tag: 1,
        number: 64,
        most: 128,
        kinds: 6,
    }
}

// What the version of this number fixes. No header with another number is read.
pub fn format_of(version: u8) -> Format
    ensures { result ≡ format_of versions version }
{
    version_1()
}

fn known(version: u8) -> bool
    ensures { result ≡ any (λ f. eqb version f.version) versions }
{
    version == 1
}

// ---- the header
// Its conditions, all of which are bad at its place. They are asked of the numbers that were read, whatever these are.
fn header_fits(version: u8, kind: u8, actors: u8, zero: u8) -> bool
    ensures { result ≡ header_ok versions version kind actors zero }
{
    known(version) && kind <= 2 && 1 <= actors && actors as usize <= MOST_ACTORS && zero == 0
}

pub fn read_header(script: &[u8], at: usize) -> Result<(Header, usize), BadAt>
    ensures value { result ≡ header_read (one (header_form versions) (drop at script.now) at) }
    ensures says { header_says result ≡ reading_says (one (header_form versions) (drop at script.now) at) }
{
    let s = from(script, at);
    let version = field8(s, 0, 4);
    let kind = field8(s, 4, 2);
    let actors = field8(s, 6, 4);
    let zero = field8(s, 10, 6);
    if !header_fits(version, kind, actors, zero) {
        return Err(BadAt(at));
    }
    let next = end_of(script, at, 16).ok_or(BadAt(at))?;
    Ok((
        Header {
            version,
            kind,
            actors,
        },
        next,
    ))
}

// ---- counts
// A count of `width` bits, at most `most`.
fn read_count(script: &[u8], at: usize, width: usize, most: usize) -> Result<(usize, usize), BadAt>
    requires { width ≤ 16 }
    ensures { result ≡ count_read (one (field width (λ c. only (leb c most) (filled c))) (drop at script.now) at) }
{
    let s = from(script, at);
    let count = field(s, 0, width) as usize;
    if most < count {
        return Err(BadAt(at));
    }
    let next = end_of(script, at, width).ok_or(BadAt(at))?;
    Ok((count, next))
}

// How many rules a table has.
pub fn read_rule_count(script: &[u8], at: usize) -> Result<(usize, usize), BadAt>
    ensures value { result ≡ count_read (one rule_count_form (drop at script.now) at) }
    ensures says { count_says result ≡ reading_says (one rule_count_form (drop at script.now) at) }
{
    read_count(script, at, 5, MOST_RULES)
}

// How many envelopes are on the network at the start.
pub fn read_envelope_count(script: &[u8], at: usize, f: Format) -> Result<(usize, usize), BadAt>
    requires { Fine f }
    ensures value { result ≡ count_read (one (envelope_count_form f) (drop at script.now) at) }
    ensures says { count_says result ≡ reading_says (one (envelope_count_form f) (drop at script.now) at) }
{
    read_count(script, at, f.count, f.most)
}

// ---- an envelope. No format's envelope or action is longer than 123 bits: w and v are the two words that stand at its place.
fn message_part(w: u64, v: u64, at: usize, f: Format) -> Option<(Message, usize)>
    requires { (at ≤ 24) × Fine f }
    ensures by_index { (xs : List ℕ) → Front xs w v → result ≡ message_part (follow xs (message_form f) at) }
    ensures short { IfSome result (λ m. m.1 ≤ at + 104) }
{
    let tag = cut8(w, v, at, f.tag);
    let b = at + f.tag;
    let after = b + f.number;
    let number = cut(w, v, b, f.number);
    match tag {
        0 => {
            let payload = cut32(w, v, after, 32);
            Some((
                Message::Deliver(Number(number), Payload(payload)),
                after + 32,
            ))
        }
        1 => Some((Message::Ack(Number(number)), after)),
        _ => None,
    }
}

fn envelope_part(w: u64, v: u64, at: usize, f: Format) -> Option<(Envelope, usize)>
    requires { (at ≤ 8) × Fine f }
    ensures by_index { (xs : List ℕ) → Front xs w v → result ≡ envelope_part (follow xs (envelope_form f) at) }
    ensures short { IfSome result (λ e. e.1 ≤ at + 120) }
{
    let src = cut8(w, v, at, 8);
    let dst = cut8(w, v, at + 8, 8);
    let (msg, end) = message_part(w, v, at + 16, f)?;
    Some((
        Envelope {
            src: Id(src),
            dst: Id(dst),
            msg,
        },
        end,
    ))
}

pub fn read_envelope(script: &[u8], at: usize, f: Format) -> Result<(Envelope, usize), BadAt>
    requires { Fine f }
    ensures value { result ≡ envelope_read (one (envelope_form f) (drop at script.now) at) }
    ensures says { envelope_says result ≡ reading_says (one (envelope_form f) (drop at script.now) at) }
{
    let s = from(script, at);
    let w = word(s, 0);
    let v = word(s, 8);
    let (e, used) = envelope_part(w, v, 0, f).ok_or(BadAt(at))?;
    let next = end_in(script, at, w, v, used).ok_or(BadAt(at))?;
    Ok((e, next))
}

// ---- an action, or None at the end
// Its kind, of which the format has so many, and what belongs to it.
// Inlined, and `read_action` too: for a caller that drops the action, such as the check of a script, none is made then.
#[inline(always)]
fn action_part(w: u64, v: u64, f: Format) -> ActionPart
    requires { Fine f }
    ensures by_index { (xs : List ℕ) → Front xs w v → result ≡ action_part (follow xs (action_form f) 0) }
    ensures short { action_end result ≤ 123 }
{
    let kind = cut8(w, v, 0, 3);
    if f.kinds <= kind {
        return ActionPart::Stuck;
    }
    match kind {
        0 => ActionPart::End(3),
        1 | 2 => match envelope_part(w, v, 3, f) {
            Some((e, end)) => {
                if kind == 1 {
                    return ActionPart::Act(Action::Deliver(e), end);
                }
                ActionPart::Act(Action::Drop(e), end)
            }
            None => ActionPart::Stuck,
        },
        3 => {
            let id = cut8(w, v, 3, 8);
            let timer = cut8(w, v, 11, 5);
            ActionPart::Act(Action::Timeout(Id(id), timer), 16)
        }
        4 => {
            let id = cut8(w, v, 3, 8);
            ActionPart::Act(Action::Crash(Id(id)), 11)
        }
        5 => {
            let id = cut8(w, v, 3, 8);
            ActionPart::Act(Action::Recover(Id(id)), 11)
        }
        _ => ActionPart::Stuck,
    }
}

#[inline(always)]
pub fn read_action(script: &[u8], at: usize, f: Format) -> Result<(Option<Action>, usize), BadAt>
    requires { Fine f }
    ensures value { result ≡ action_read (one (action_form f) (drop at script.now) at) }
    ensures says { action_says result ≡ reading_says (one (action_form f) (drop at script.now) at) }
{
    let s = from(script, at);
    let w = word(s, 0);
    let v = word(s, 8);
    match action_part(w, v, f) {
        ActionPart::Act(a, used) => {
            let Some(next) = end_in(script, at, w, v, used) else {
                return Err(BadAt(at));
            };
            Ok((Some(a), next))
        }
        ActionPart::End(used) => {
            let Some(next) = end_in(script, at, w, v, used) else {
                return Err(BadAt(at));
            };
            Ok((None, next))
        }
        ActionPart::Stuck => Err(BadAt(at)),
    }
}

// One action, or the end, from the front of a script of this version. The place after it is its size.
pub fn take_action(s: &[u8], version: u8) -> Result<(Option<Action>, usize), BadAt>
    ensures value { result ≡ action_read (one (action_form (format_of versions version)) s.now 0) }
    ensures says { action_says result ≡ reading_says (one (action_form (format_of versions version)) s.now 0) }
{
    read_action(s, 0, format_of(version))
}

// The same script from the next record on; all of it where the record is bad.
pub fn rest(s: &[u8], version: u8) -> &[u8]
    ensures { result.now ≡ unread (format_of versions version) s.now }
{
    match take_action(s, version) {
        Ok((_, size)) => from(s, size),
        Err(_) => s,
    }
}
