// A rule table as rows of words, lent: the place of the first rule that matches, and of the one that decides, and what a row says. A
// row: event and state in one number, low, high, touched, next, the count of commands, two words for each of four commands, the count
// of sends, whether it sends or saves. The crate link_table_rows makes them.
// The words are packed, a row is a slice of them and no type of its own, and the count of rules is lent beside the table: a step looks
// rules up in fixed memory that it is lent, and one comparison tests event and state.
// Where no rule is meant the answer is the count and no Option: docs/CONTRACTS.md promises it so.
#![tactic(auto)]

ghost use Rattle.std.specs.Prelude.{◌≡◌, ◌&&◌, ℕ, ◌/◌, ◌≤◌, ◌<◌, length, get_or, position};
ghost use Rattle.lists.specs.Lists.{choose};
ghost use Rattle.types.specs.Capacities.{most_commands};
ghost use Rattle.types.specs.declared.Id.{Id};
ghost use Rattle.rules.specs.Inner.{told, ignored};
ghost use Rattle.link_tables.specs.Rows.{mark, hit, command_in, order_at, replied, RowLaid, TableLaid, rules_in, first_of, deciding_of};

use types::{Id, InnerCommand, Payload};

// Whether a word's lowest bit is set.
fn mark(n: u64) -> bool
    ensures { result ≡ mark n }
{
    n % 2 == 1
}

// Whether a row matches: the key is its event and state in one number.
fn hits(r: &[u64; 16], key: u64, value: u64) -> bool
    ensures { result ≡ hit key value r.now }
{
    r[0] == key && r[1] <= value && value <= r[2]
}

// The place of the first row that matches.
fn first_hit(t: &[[u64; 16]], key: u64, value: u64) -> Option<usize>
    ensures { result ≡ position (hit key value) t.now }
{
    t.iter().position(|r| hits(r, key, value))
}

// The place of the first of the used rules that matches, or their count.
#[tactic(auto, using(crate::proofs::Laws::found_at))]
pub fn first_match(t: &[[u64; 16]], used: usize, event: u64, state: u64, value: u64) -> usize
    requires { (used ≤ length t.now) × (event < 4) × (state < 16) }
    ensures { result ≡ first_of event state value (rules_in t.now used) }
{
    let key = event * 16 + state;
    first_hit(&t[..used], key, value).unwrap_or(used)
}

// The payload or value of a command, and its destination.
#[tactic(auto, unfolding(lists::specs::Lists::choose))]
fn word_of(w: u64, v: u64, value: u32) -> u32
    requires { v < 4294967296 }
    ensures { result ≡ choose (mark (w / 8)) value v }
{
    if mark(w / 8) { value } else { v as u32 }
}

#[tactic(auto, unfolding(lists::specs::Lists::choose))]
fn destination_of(w: u64, source: Id) -> Id
    requires { w < 4096 }
    ensures { result ≡ choose (mark (w / 4)) source (record { 0 = w / 16 }) }
{
    if mark(w / 4) {
        source
    } else {
        Id((w / 16) as u8)
    }
}

// A command of two words, with the source and the value filled in.
#[tactic(auto, using(crate::proofs::Told::filled), unfolding(rules::specs::Inner::told, crate::specs::Rows::command_in))]
fn command_of(w: u64, v: u64, source: Id, value: u32) -> InnerCommand
    requires { (w < 4096) × (v < 4294967296) }
    ensures { result ≡ told source value (command_in w v) }
{
    let timer = (w / 16) as u8;
    let word = word_of(w, v, value);
    match w % 4 {
        0 => InnerCommand::SetTimer(timer),
        1 => InnerCommand::CancelTimer(timer),
        2 => InnerCommand::Send(destination_of(w, source), Payload(word)),
        _ => InnerCommand::Save(word),
    }
}

// The command at a place of a rule's row. Row, source and value are parameters here and above, and no struct: each clause would have to
// name the loan in its field.
pub fn command_at(r: &[u64], i: usize, source: Id, value: u32) -> InnerCommand
    requires { RowLaid r.now × (i < most_commands) }
    ensures { result ≡ order_at r.now source value i }
{
    command_of(r[6 + 2 * i], r[7 + 2 * i], source, value)
}

// A rule that neither touches nor commands ignores the event.
#[tactic(auto, using(crate::proofs::Replies::row_ignored))]
fn is_ignored(r: &[u64]) -> bool
    requires { RowLaid r.now }
    ensures { (source : Id) (value : ℕ) → result ≡ ignored (replied r.now source value) }
{
    !mark(r[3]) && r[5] == 0
}

// The place of the rule that decides on an event; the count of rules where none matches, or the first that does ignores it.
#[tactic(auto, using(crate::proofs::Replies::none_decides, crate::proofs::Replies::one_ignores, crate::proofs::Replies::one_decides))]
pub fn deciding(t: &[[u64; 16]], rules: usize, event: u64, state: u64, value: u64) -> usize
    requires { TableLaid t.now rules × (event < 4) × (state < 16) }
    ensures { (source : Id) → result ≡ deciding_of event state source value t.now rules }
{
    let at = first_match(t, rules, event, state, value);
    if at < rules && !is_ignored(&t[at]) {
        at
    } else {
        rules
    }
}

// The state that a rule leads to: an untouched one stays.
#[tactic(auto, unfolding(lists::specs::Lists::choose))]
pub fn state_after(r: &[u64], state: u64) -> u64
    requires { RowLaid r.now × (state < 16) }
    ensures { (result ≡ choose (mark (get_or r.now 3 0)) (get_or r.now 4 0) state) × (result < 16) }
{
    if mark(r[3]) { r[4] } else { state }
}
