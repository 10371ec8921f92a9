// The durable part of an actor as rows of words, lent: a message becomes pending, the inner actor saves a value, a
// number is acked. A row: next number, count of pending records, whether a value is saved, the value, the count of sources, and from
// place 8 on the numbers last taken. A pending record: number, destination, payload. The other places are free.
// Rows of words and no structs: a step changes them where they lie, in fixed memory, and copies no large array.
#![tactic(auto)]

ghost use Rattle.std.specs.Prelude.{◌≡◌, List, ℕ, ◌+◌, ◌≤◌, ◌<◌, length, take, get_or};
ghost use Rattle.std.specs.List.{position};
ghost use Rattle.rules.specs.Link.{posting, with_inner, acked};
ghost use Rattle.link_rows.specs.Rows.{row_size, has_number, Turned};

use rows::remove_at;

// The words of a row, which the definitions have as row_size (specs/Rows), and of a pending record.
pub const ROW: usize = 32;

pub const RECORD: usize = 4;

// Row and records are lent apart, as slices with their lengths in the clauses: an array, or a struct of both, would ask more of callers.

// A message to `dst` takes the next number and becomes pending.
pub fn post(live: &mut [u64], pend: &mut [[u64; RECORD]], dst: u64, payload: u64)
    requires { (length live.old ≡ row_size) × (get_or live.old 1 0 < length pend.old) × (get_or live.old 0 0 < 18446744073709551615)
        × (dst < 256) × (payload < 4294967296) }
    ensures { Turned (posting (record { 0 = dst }) (record { 0 = payload }))
        live.old pend.old live.new pend.new
        × (get_or live.new 1 0 ≡ get_or live.old 1 0 + 1) }
{
    let next = live[0];
    let n = live[1];
    pend[n as usize] = [next, dst, payload, 0];
    live[0] = next + 1;
    live[1] = n + 1;
}

// The inner actor saves a value.
pub fn save_value(live: &mut [u64], value: u64)
    requires { (length live.old ≡ row_size) × (value < 4294967296) }
    ensures { ((p : List (List ℕ)) → Turned (with_inner value) live.old p live.new p)
        × (get_or live.new 1 0 ≡ get_or live.old 1 0) }
{
    live[2] = 1;
    live[3] = value;
}

// The place of the pending record with a number.
fn pending_place(pend: &[[u64; RECORD]], used: usize, number: u64) -> Option<usize>
    requires { used ≤ length pend.now }
    ensures { result ≡ position (has_number number) (take used pend.now) }
{
    pend[..used].iter().position(|r| number == r[0])
}

// A number is acked: its record goes; absent is fine.
pub fn drop_acked(live: &mut [u64], pend: &mut [[u64; RECORD]], number: u64)
    requires { (length live.old ≡ row_size) × (get_or live.old 1 0 ≤ length pend.old) }
    ensures { Turned (acked (record { 0 = number })) live.old pend.old live.new pend.new
        × (get_or live.new 1 0 ≤ get_or live.old 1 0) }
{
    let n = live[1];
    if let Some(at) = pending_place(pend, n as usize, number) {
        remove_at(pend, n as usize, at);
        live[1] = n - 1;
    }
}
