// The start of what a script's opening says.
#![tactic(auto)]

ghost use Rattle.std.specs.Prelude.{◌≡◌};
ghost use Rattle.layout.specs.Read.{bad_at};
ghost use Rattle.rules.specs.Script.{versions, opening_from};
ghost use Rattle.replay_start.specs.Views.{opened_of};

use answers::Refusal;
use script_opening::read_opening;
use script_places::BadAt;
use sys_answered::Answered;
use sys_start::{Given, start};
use sys_system::blank;

// The start's answer, the script's version, and the place of the first action. What cannot be read starts nothing, and is bad at that
// place: a struct and no Result, since it is answered as a start is, by 11, and who opens a script has checked its layout.
#[derive(Clone, Copy)]
pub struct Opened {
    pub answered: Answered,
    pub version: u8,
    pub next: usize,
}

fn unreadable(place: usize) -> Opened
    ensures { result ≡ opened_of (bad_at place) }
{
    let s = blank();
    Opened {
        answered: Answered {
            answer: Err(Refusal::Unreadable),
            system: s,
        },
        version: 0,
        next: place,
    }
}

// The actions are not looked at. Of a script whose layout was checked all is read, so the answer is the start's own.
pub fn open(script: &[u8]) -> Opened
    ensures { result ≡ opened_of (opening_from versions script.now 0) }
{
    let (o, next) = match read_opening(script) {
        Ok(read) => read,
        Err(BadAt(place)) => return unreadable(place),
    };
    let tables = o.tables.list;
    let list = o.envelopes.list;
    let used = o.envelopes.used;
    let answered = start(o.kind, o.tables.used, tables, Given { list, used });
    Opened {
        answered,
        version: o.version,
        next,
    }
}
