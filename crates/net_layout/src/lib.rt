// The entries of a network laid out as cells, and cells read back as entries: what stands between a struct and a run that
// lends its cells.
#![tactic(auto)]

ghost use Rattle.std.specs.Prelude.{◌≡◌, map, ◌≤◌, take};
ghost use Rattle.lists.specs.Lists.{pad};
ghost use Rattle.types.specs.Capacities.{most_entries};
ghost use Rattle.net_cells.specs.Cells.{entry_of, zero_entry};
ghost use Rattle.net_layout.specs.Layout.{LaidOut, Readable};

use net_cells::{cell_with, entry_of, zero_entry};
use types::{Entry, MOST_ENTRIES};

// The used entries as cells; the other cells are zero.
#[tactic(auto, unfolding(lists::specs::Lists::pad))]
pub fn cells_of(entries: [Entry; MOST_ENTRIES], used: usize) -> [[u64; 4]; MOST_ENTRIES]
    requires { used ≤ most_entries }
    ensures { LaidOut (take used entries) result }
{
    let mut cs = [[0u64; 4]; MOST_ENTRIES];
    for (i, x) in entries[..used].iter().enumerate() {
        cs[i] = cell_with(*x);
    }
    cs
}

// The entries that the used cells are; the other entries are zero.
#[tactic(auto, unfolding(lists::specs::Lists::pad))]
pub fn entries_of(c: &[[u64; 4]], used: usize) -> [Entry; MOST_ENTRIES]
    requires { Readable c.now used }
    ensures { result ≡ pad most_entries zero_entry (map entry_of (take used c.now)) }
{
    let mut es = [zero_entry(); MOST_ENTRIES];
    for (i, x) in c[..used].iter().enumerate() {
        es[i] = entry_of(*x);
    }
    es
}
