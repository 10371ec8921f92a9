// What a rule's commands make of the durable part, in place: sends become pending, values are saved. Network and timers are not
// touched.
#![tactic(auto)]

ghost use Rattle.std.specs.Prelude.{◌≡◌, [], ◌∷◌, ◌+◌, ◌≤◌, ◌<◌, length, get_or};
ghost use Rattle.link_rows.specs.Rows.{row_size};
ghost use Rattle.link_direct.specs.Direct.{sends};
ghost use Rattle.link_tables.specs.Rows.{RowLaid, orders};
ghost use Rattle.link_notes.specs.Views.{Noted};

use link_rows::{RECORD, post, save_value};
use link_tables::command_at;
use types::{Id, InnerCommand};

// One inner command.
fn note_one(live: &mut [u64], pend: &mut [[u64; RECORD]], x: InnerCommand)
    requires { (length live.old ≡ row_size) × (get_or live.old 1 0 + sends (x ∷ []) ≤ length pend.old)
        × (get_or live.old 0 0 + sends (x ∷ []) ≤ 18446744073709551615) }
    ensures { Noted (x ∷ []) live.old pend.old live.new pend.new }
{
    match x {
        InnerCommand::SetTimer(_) | InnerCommand::CancelTimer(_) => {}
        InnerCommand::Save(v) => save_value(live, v as u64),
        InnerCommand::Send(d, p) => post(live, pend, d.0 as u64, p.0 as u64),
    }
}

// The commands of a rule's row.
pub fn note(live: &mut [u64], pend: &mut [[u64; RECORD]], row: &[u64], source: Id, value: u32)
    requires { RowLaid row.now × (length live.old ≡ row_size)
        × (get_or live.old 1 0 + sends (orders row.now source value) ≤ length pend.old)
        × (get_or live.old 0 0 + sends (orders row.now source value) ≤ 18446744073709551615) }
    ensures { Noted (orders row.now source value)
        live.old pend.old live.new pend.new }
{
    for i in 0..row[5] as usize {
        let x = command_at(row, i, source, value);
        note_one(live, pend, x);
    }
}
