// The run of a script's actions from a system on, as the fold of steps: a line for each, and the totals. The system is laid out as
// rows once, and each action is lent those that it touches. It is known to be well formed, and each action keeps it so: it is never
// tested again.
#![tactic(auto)]

ghost use Rattle.std.specs.Prelude.{◌≡◌, ◌+◌, ◌<◌};
ghost use Rattle.replay_run.specs.Views.{tallied, Runs, Writes};
ghost use Rattle.replay_run.specs.Plays.{Plays, Played};

use answers::number_of;
use net_layout::cells_of;
use replay_lines::{answer_line, done_line};
use script_records::read_action;
use sys_all_rows::{act_in, lay_out_actors, lay_out_tables};
use sys_rows::{ActorRows, NetRows, TableRows};
use sys_system::System;
use types::{Format, MOST_ACTORS, MOST_RULES};

// How many answers were 0, 1 and others.
#[derive(Clone, Copy)]
pub struct Tally {
    pub next: u64,
    pub ignored: u64,
    pub refused: u64,
}

impl Tally {
    // One answer more.
    fn count(&mut self, number: u64)
        requires { self.old.next + self.old.ignored + self.old.refused < 4294967296 }
        ensures { self.new ≡ tallied number self.old }
    {
        match number {
            0 => self.next += 1,
            1 => self.ignored += 1,
            _ => self.refused += 1,
        }
    }
}

// From the actions' place on, on lent rows. A loop: each record says where the next one begins.
fn play(
    script: &[u8],
    from: usize,
    f: Format,
    out: &mut [u8],
    place: usize,
    write: bool,
    net: &mut NetRows,
    actors: &mut [ActorRows; MOST_ACTORS],
    tables: &[TableRows; MOST_ACTORS],
    count: usize,
) -> usize
    requires { Plays script.now from f out.old place write count net.old.kind net.old.used net.old.len
        tables.now net.old.cells actors.old }
    ensures { Played script.now from f out.old place write count net.old.kind net.old.used net.old.len
        tables.now net.old.cells actors.old result out.new }
{
    let mut totals = Tally {
        next: 0,
        ignored: 0,
        refused: 0,
    };
    let mut at = from;
    let mut end = place;
    loop {
        let Ok((action, after)) = read_action(script, at, f) else {
            return end;
        };
        let Some(a) = action else {
            return done_line(out, end, write, totals.next, totals.ignored, totals.refused);
        };
        let answer = act_in(net, actors, tables, count, a);
        let number = number_of(answer);
        end = answer_line(out, end, write, number, net.len);
        totals.count(number);
        at = after;
    }
}

// The rows of a table without rules, until its own are laid out.
fn no_rules() -> TableRows
    ensures { result.used ≡ 0 }
{
    TableRows {
        rows: [[0; 16]; MOST_RULES],
        used: 0,
    }
}

// From the actions' place on: the system that comes is laid out.
pub fn run(
    script: &[u8],
    from: usize,
    f: Format,
    s: System,
    out: &mut [u8],
    place: usize,
    write: bool,
) -> usize
    requires { Runs script.now from f s out.old place write }
    ensures { Writes script.now from f s out.old place write result out.new }
{
    let count = s.count;
    let n = s.network;
    let mut net = NetRows {
        cells: cells_of(n.entries, n.used),
        kind: n.kind,
        used: n.used,
        len: net_network::len(n),
    };
    let mut actors = [ActorRows::fresh(); MOST_ACTORS];
    lay_out_actors(s.actors, count, &mut actors);
    let mut tables = [no_rules(); MOST_ACTORS];
    lay_out_tables(s.tables, count, &mut tables);
    play(
        script,
        from,
        f,
        out,
        place,
        write,
        &mut net,
        &mut actors,
        &tables,
        count,
    )
}
