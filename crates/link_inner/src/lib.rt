// The inner actor's table: rules in an array with a count, and the test of whatever it holds.
#![tactic(auto)]

ghost use Rattle.std.specs.Prelude.{◌≡◌, not, ◌&&◌, ◌||◌, take, drop, leb, eqb};
ghost use Rattle.std.specs.List.{list_all};
ghost use Rattle.rules.specs.WellFormed.{command_ok, unused, rule_ok};
ghost use Rattle.link_inner.specs.Views.{rules_of, slot_ok, ranges, zero_rule, zero_table, blank_rule, table_ok};

use types::{Id, LAST_STATE, MOST_COMMANDS, MOST_RULES, NETWORK, Rule, RuleCommand, Slot};

// A fixed array with its used count, as there is no heap. Places from the count on hold the zero rule.
#[derive(Clone, Copy)]
pub struct Table {
    pub rules: [Rule; MOST_RULES],
    pub used: usize,
}

// The rule in a place that is not used.
pub fn zero_rule() -> Rule
    ensures { result ≡ zero_rule }
{
    let s = Slot {
        command: RuleCommand::SetTimer(0),
    };
    Rule {
        event: 0,
        state: 0,
        low: 0,
        high: 0,
        touched: false,
        next: 0,
        commands: [s; MOST_COMMANDS],
        used: 0,
    }
}

// The table without rules.
pub fn zero_table() -> Table
    ensures { result ≡ zero_table }
{
    let r = zero_rule();
    Table {
        rules: [r; MOST_RULES],
        used: 0,
    }
}

// "The source" in message rules only, and its destination is zero. The event is a number, as in `Rule`.
fn source_ok(event: u8, flag: bool, dst: Id) -> bool
    ensures { result ≡ (not flag || (eqb event 2 && eqb dst.0 0)) }
{
    !flag || (event == 2 && dst.0 == 0)
}

// What is echoed is zero in the rule.
fn echo_ok(echo: bool, value: u32) -> bool
    ensures { result ≡ (not echo || eqb value 0) }
{
    !echo || value == 0
}

// A command of a rule for this event.
#[tactic(auto, unfolding(rules::specs::WellFormed::command_ok))]
fn command_ok(event: u8, c: RuleCommand) -> bool
    ensures { result ≡ command_ok event c }
{
    match c {
        RuleCommand::SetTimer(t) | RuleCommand::CancelTimer(t) => t < NETWORK,
        RuleCommand::Send(to_source, dst, echo, payload) => {
            source_ok(event, to_source, dst) && echo_ok(echo, payload.0)
        }
        RuleCommand::Save(echo, v) => echo_ok(echo, v),
    }
}

// A place for a command that is not used is all zero.
#[tactic(auto, unfolding(rules::specs::WellFormed::unused, rules::specs::WellFormed::zero_command))]
fn is_unused(s: &Slot) -> bool
    ensures { result ≡ unused s.now }
{
    matches!(s.command, RuleCommand::SetTimer(0))
}

// The numbers are in script range, and low is at most high.
#[tactic(auto, unfolding(crate::specs::Views::ranges, lists::specs::Lists::every))]
fn ranges_ok(r: &Rule) -> bool
    ensures { result ≡ ranges r.now }
{
    r.event <= 3
        && r.state <= LAST_STATE
        && r.next <= LAST_STATE
        && r.used <= MOST_COMMANDS
        && r.low <= r.high
}

// Start rules have state 0 and touched.
fn start_ok(r: &Rule) -> bool
    ensures { result ≡ (leb 2 r.now.event || (eqb r.now.state 0 && r.now.touched)) }
{
    2 <= r.event || (r.state == 0 && r.touched)
}

// An untouched rule keeps its state.
fn keeps_ok(r: &Rule) -> bool
    ensures { result ≡ (r.now.touched || eqb r.now.next r.now.state) }
{
    r.touched || r.next == r.state
}

// The used places of a rule have commands for its event.
fn used_ok(r: &Rule) -> bool
    ensures { result ≡ list_all (slot_ok r.now.event) (take r.now.used r.now.commands) }
{
    let event = r.event;
    r.commands
        .iter()
        .take(r.used)
        .all(|s| command_ok(event, s.command))
}

// Its other places are not used.
fn rest_unused(r: &Rule) -> bool
    ensures { result ≡ list_all unused (drop r.now.used r.now.commands) }
{
    r.commands.iter().skip(r.used).all(is_unused)
}

// A place for a rule that is used.
#[tactic(auto, using(crate::proofs::Tables::rule_parts), unfolding(lists::specs::Lists::every))]
fn rule_ok(r: &Rule) -> bool
    ensures { result ≡ rule_ok r.now }
{
    ranges_ok(r) && start_ok(r) && keeps_ok(r) && used_ok(r) && rest_unused(r)
}

// A place for a rule that is not used is all zero. By value: behind a reference the proof is not told how many commands there are.
fn is_blank(r: Rule) -> bool
    ensures { result ≡ blank_rule r }
{
    r == zero_rule()
}

// The places of a table that are not used are blank.
fn rest_blank(t: &Table) -> bool
    ensures { result ≡ list_all blank_rule (drop t.now.used t.now.rules) }
{
    t.rules.iter().skip(t.used).all(|r| is_blank(*r))
}

// The others have rules that are sound.
fn rules_ok(t: &Table) -> bool
    ensures { result ≡ list_all rule_ok (rules_of t.now) }
{
    t.rules.iter().take(t.used).all(rule_ok)
}

// Whatever the table holds.
#[tactic(auto, using(crate::proofs::Tables::table_parts))]
pub fn sound_table(t: Table) -> bool
    ensures { result ≡ table_ok t }
{
    t.used <= MOST_RULES && rest_blank(&t) && rules_ok(&t)
}
