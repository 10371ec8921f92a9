// The layout of a whole script: it can be read, or its first bad record is at a place. It is the reading of the script with nothing kept.
#![tactic(auto)]

ghost use Rattle.std.specs.Prelude.{◌≡◌, drop};
ghost use Rattle.rules.specs.Script.{versions, Fine, actions_from, read_script};
ghost use Rattle.script_check.specs.Views.{layout_of, check_says, layout_says};

use script_opening::read_opening;
use script_places::BadAt;
use script_records::{format_of, read_action};
use types::{Format, MOST_BYTES};

// The actions from a place on, up to the end, behind which nothing may stand. A loop: each record says where the next one begins.
fn check_actions(script: &[u8], from: usize, f: Format) -> Result<(), BadAt>
    requires { Fine f }
    ensures { result ≡ layout_of (actions_from f (drop from script.now) from) }
{
    let mut at = from;
    loop {
        let (action, next) = read_action(script, at, f)?;
        match action {
            Some(_) => at = next,
            None if next == script.len() => return Ok(()),
            None => return Err(BadAt(next)),
        }
    }
}

// Whether a script can be read; if not, the place of its first bad record.
pub fn check_script(script: &[u8]) -> Result<(), BadAt>
    ensures value { result ≡ layout_of (read_script versions script.now) }
    ensures says { layout_says result ≡ check_says (read_script versions script.now) }
{
    if MOST_BYTES < script.len() {
        return Err(BadAt(0));
    }
    let (opening, next) = read_opening(script)?;
    check_actions(script, next, format_of(opening.version))
}
