// A rule of a script's table, read at a place as the script's format says: the rule with the place after it, or the place of the bad record.
#![tactic(auto)]

ghost use Rattle.std.specs.Prelude.{◌≡◌, ◌+◌, ◌≤◌, ◌<◌, drop, IfSome};
ghost use Rattle.types.specs.Capacities.{most_commands};
ghost use Rattle.layout.specs.Form.{filled, follow, then, times};
ghost use Rattle.layout.specs.Read.{one};
ghost use Rattle.rules.specs.Inner.{zero_slot, slots_of};
ghost use Rattle.rules.specs.Script.{Fine, command_form, rule_form};
ghost use Rattle.script_places.specs.Says.{reading_says};
ghost use Rattle.script_rules.specs.Views.{rule_read, rule_says, command_part, commands_part, rule_with};

use script_bits::{field8, field32};
use script_places::{BadAt, end_of, from};
use types::{Format, Id, MOST_COMMANDS, Payload, Rule, RuleCommand, Slot};

// A command and the bit after it. No fields lead to a command of another kind.
fn command_part(s: &[u8], at: usize, f: Format) -> Option<(RuleCommand, usize)>
    requires { (at < 1024) × Fine f }
    ensures value { result ≡ command_part (follow s.now (command_form f) at) }
    ensures short { IfSome result (λ c. c.1 ≤ at + 50) }
{
    let kind = field8(s, at, f.command);
    let b = at + f.command;
    match kind {
        0 => {
            let timer = field8(s, b, 5);
            Some((RuleCommand::SetTimer(timer), b + 5))
        }
        1 => {
            let timer = field8(s, b, 5);
            Some((RuleCommand::CancelTimer(timer), b + 5))
        }
        2 => {
            let source = field8(s, b, 1);
            let dst = field8(s, b + 1, 8);
            let echo = field8(s, b + 9, 1);
            let payload = field32(s, b + 10, 32);
            let c = RuleCommand::Send(source == 1, Id(dst), echo == 1, Payload(payload));
            Some((c, b + 42))
        }
        3 => {
            let echo = field8(s, b, 1);
            let value = field32(s, b + 1, 32);
            Some((RuleCommand::Save(echo == 1, value), b + 33))
        }
        _ => None,
    }
}

fn zero_slot() -> Slot
    ensures { result ≡ zero_slot }
{
    Slot {
        command: RuleCommand::SetTimer(0),
    }
}

// So many commands, one after another, and the bit after them.
fn commands_part(
    s: &[u8],
    at: usize,
    count: usize,
    f: Format,
) -> Option<([Slot; MOST_COMMANDS], usize)>
    requires { (at < 100) × (count ≤ most_commands) × Fine f }
    ensures value { result ≡ commands_part (follow s.now (then (times count (command_form f)) (λ cs. filled (slots_of cs))) at) }
    ensures short { IfSome result (λ cs. cs.1 ≤ at + 200) }
{
    let mut commands = [zero_slot(); MOST_COMMANDS];
    let mut end = at;
    for i in 0..count {
        let (command, after) = command_part(s, end, f)?;
        commands[i] = Slot { command };
        end = after;
    }
    Some((commands, end))
}

// A rule of which all fields but the commands stand at the front of s, before bit 76 behind its event.
fn rule_of(s: &[u8], commands: [Slot; MOST_COMMANDS], used: usize, f: Format) -> Rule
    requires { Fine f }
    ensures { result ≡ rule_with s.now f.event commands used }
{
    let b = f.event;
    let event = field8(s, 0, b);
    let state = field8(s, b, 4);
    let low = field32(s, b + 4, 32);
    let high = field32(s, b + 36, 32);
    let touched = field8(s, b + 68, 1);
    let next = field8(s, b + 69, 4);
    Rule {
        event,
        state,
        low,
        high,
        touched: touched == 1,
        next,
        commands,
        used,
    }
}

pub fn read_rule(script: &[u8], at: usize, f: Format) -> Result<(Rule, usize), BadAt>
    requires { Fine f }
    ensures value { result ≡ rule_read (one (rule_form f) (drop at script.now) at) }
    ensures says { rule_says result ≡ reading_says (one (rule_form f) (drop at script.now) at) }
{
    let s = from(script, at);
    let b = f.event;
    let count = field8(s, b + 73, 3) as usize;
    if MOST_COMMANDS < count {
        return Err(BadAt(at));
    }
    let (commands, used) = commands_part(s, b + 76, count, f).ok_or(BadAt(at))?;
    let next = end_of(script, at, used).ok_or(BadAt(at))?;
    Ok((rule_of(s, commands, count, f), next))
}
