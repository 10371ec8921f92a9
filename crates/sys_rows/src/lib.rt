// The rows of one actor, of one table and of a network: what a handler leaves of the live ones, all of it stored, and those before any start.
#![tactic(auto)]

ghost use Rattle.std.specs.Prelude.{◌≡◌, ◌+◌, ◌≤◌, ◌<◌, length, drop, get_or, set};
ghost use Rattle.types.specs.Capacities.{most_pending, most_actors, last_state};
ghost use Rattle.rules.specs.Link.{acked};
ghost use Rattle.link_rows.specs.Rows.{row_size, durable_in};
ghost use Rattle.link_direct.specs.Direct.{noted, sends};
ghost use Rattle.link_tables.specs.Rows.{RowLaid, orders};
ghost use Rattle.sys_rows.specs.Rows.{fresh_row, fresh_rows, TailLaid, RowsLaid, Settled, Noticed, SettledIn, KeptIn};

use link_notes::note;
use link_rows::{RECORD, ROW, drop_acked};
use rows::copy_rows;
use types::{Id, Kind, MOST_ENTRIES, MOST_PENDING, MOST_RULES};

// No invariant: within a step the words are changed one by one.
// The live row and its pending records, and the same of what is stored. A row says how many of its records count.
#[derive(Clone, Copy)]
pub struct ActorRows {
    pub live: [u64; ROW],
    pub pend: [[u64; RECORD]; MOST_PENDING],
    pub kept: [u64; ROW],
    pub stored: [[u64; RECORD]; MOST_PENDING],
}

// A row for each rule of a table, and how many of them are used.
#[derive(Clone, Copy)]
pub struct TableRows {
    pub rows: [[u64; 16]; MOST_RULES],
    pub used: usize,
}

// A cell for each entry of a network of a kind, of which `used` are used: there are `len` messages.
#[derive(Clone, Copy)]
pub struct NetRows {
    pub cells: [[u64; 4]; MOST_ENTRIES],
    pub kind: Kind,
    pub used: usize,
    pub len: u64,
}

// The live row of an actor before any start.
pub fn fresh_row() -> [u64; ROW]
    ensures { result ≡ fresh_row }
{
    let mut row = [0u64; ROW];
    row[0] = 1;
    row
}

// Timers and state are put in place.
pub fn put_marks(live: &mut [u64], timers: u64, state: u64)
    requires { length live.old ≡ row_size }
    ensures { live.new ≡ set (set live.old 6 timers) 7 state }
{
    live[6] = timers;
    live[7] = state;
}

// A rule's commands are noted, and its timers and state put in place. Lent the live rows alone: a caller without stored ones can ask for it.
pub fn settle(
    live: &mut [u64; ROW],
    pend: &mut [[u64; RECORD]; MOST_PENDING],
    row: &[u64],
    source: Id,
    value: u32,
    timers: u32,
    state: u64,
)
    requires { RowLaid row.now × RowsLaid live.old pend.old × (state ≤ last_state)
        × (get_or live.old 1 0 + sends (orders row.now source value) ≤ most_pending)
        × (get_or live.old 0 0 + sends (orders row.now source value) ≤ 18446744073709551615) }
    ensures { Settled (noted (orders row.now source value) (durable_in live.old pend.old)) timers state
        live.old live.new pend.new }
{
    note(live, pend, row, source, value);
    put_marks(live, timers as u64, state);
}

// A number is acked.
pub fn settle_ack(live: &mut [u64; ROW], pend: &mut [[u64; RECORD]; MOST_PENDING], number: u64)
    requires { RowsLaid live.old pend.old }
    ensures { Settled (acked (record { 0 = number }) (durable_in live.old pend.old))
        (get_or live.old 6 0) (get_or live.old 7 0)
        live.old live.new pend.new }
{
    drop_acked(live, pend, number);
}

// The number of a message that is taken is noted for its source.
pub fn take_number(live: &mut [u64], source: u64, number: u64)
    requires { (length live.old ≡ row_size) × (source < most_actors) × TailLaid (drop 4 live.old) }
    ensures { Noticed source number live.old live.new }
{
    live[8 + source as usize] = number;
    if live[4] <= source {
        live[4] = source + 1;
    }
}

impl ActorRows {
    // Those of an actor before any start, with nothing stored.
    pub fn fresh() -> ActorRows
        ensures { result ≡ fresh_rows }
    {
        ActorRows {
            live: fresh_row(),
            pend: [[0; RECORD]; MOST_PENDING],
            kept: [0; ROW],
            stored: [[0; RECORD]; MOST_PENDING],
        }
    }

    // All of it is stored: the row, and of the pending records those that are counted.
    pub fn store(&mut self)
        requires { RowsLaid self.old.live self.old.pend × (length self.old.stored ≡ most_pending) }
        ensures { KeptIn self.old self.new }
    {
        self.kept = self.live;
        self.kept[5] = 1;
        copy_rows(&self.pend, &mut self.stored, self.live[1] as usize);
    }

    // The live rows are settled, and what is stored stays.
    pub fn settle(&mut self, row: &[u64], source: Id, value: u32, timers: u32, state: u64)
        requires { RowLaid row.now × RowsLaid self.old.live self.old.pend × (state ≤ last_state)
            × (get_or self.old.live 1 0 + sends (orders row.now source value) ≤ most_pending)
            × (get_or self.old.live 0 0 + sends (orders row.now source value) ≤ 18446744073709551615) }
        ensures { SettledIn (noted (orders row.now source value) (durable_in self.old.live self.old.pend)) timers state
            self.old self.new }
    {
        settle(
            &mut self.live,
            &mut self.pend,
            row,
            source,
            value,
            timers,
            state,
        );
    }

    // The same of an Ack.
    pub fn settle_ack(&mut self, number: u64)
        requires { RowsLaid self.old.live self.old.pend }
        ensures { SettledIn (acked (record { 0 = number }) (durable_in self.old.live self.old.pend))
            (get_or self.old.live 6 0) (get_or self.old.live 7 0)
            self.old self.new }
    {
        settle_ack(&mut self.live, &mut self.pend, number);
    }
}
