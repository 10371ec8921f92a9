// The durable part of an actor between its struct and its rows: laid out, and back.
#![tactic(auto)]

ghost use Rattle.std.specs.Prelude.{◌≡◌, true, map, ◌≤◌, ◌<◌, length, take, drop};
ghost use Rattle.std.specs.List.{Contains};
ghost use Rattle.types.specs.Capacities.{most_pending, most_actors};
ghost use Rattle.link_durable.specs.Views.{filled_of, pending_list, pendings_of, taken_list, taken_as, taken_laid, durable_view, durable_as, durable_laid};
ghost use Rattle.link_rows.specs.Rows.{row_size, pending_in, number_in, storage_in, durable_in, Sendable};
ghost use Rattle.link_layout.specs.Rows.{record_of, records_of, taken_of, row_of, value_of, Readable};

use link_durable::{Durable, Filled, Pendings, Taken};
use link_rows::{RECORD, ROW};
use types::{Id, MOST_ACTORS, MOST_PENDING, Number, Payload, Pending};

// ---- laid out
// A function and no From: neither the record nor the row is a type of this crate, so there can be no impl for them here.
fn record_of(q: Pending) -> [u64; RECORD]
    ensures { (result ≡ record_of q) × (q.dst.0 < 256) × (q.payload.0 < 4294967296) }
{
    [q.number.0, q.dst.0 as u64, q.payload.0 as u64, 0]
}

// The pending records: those that are not used are zero.
pub fn pending_rows(d: Durable) -> [[u64; RECORD]; MOST_PENDING]
    requires { durable_laid d ≡ true }
    ensures { (result ≡ records_of (durable_view d)) × Sendable result (length (pending_list d.pending)) }
{
    let pending = d.pending;
    let mut rows = [[0; RECORD]; MOST_PENDING];
    for (i, q) in pending.places[..pending.used].iter().enumerate() {
        rows[i] = record_of(*q);
    }
    rows
}

// The numbers last taken, with nothing in front of them.
fn taken_row(t: Taken) -> [u64; ROW]
    requires { taken_laid t ≡ true }
    ensures { result ≡ taken_of (taken_list t) }
{
    let mut row = [0; ROW];
    for (i, n) in t.places[..t.used].iter().enumerate() {
        row[8 + i] = n.0;
    }
    row
}

// The row, without marks.
pub fn durable_row(d: Durable) -> [u64; ROW]
    requires { durable_laid d ≡ true }
    ensures { (result ≡ row_of (durable_view d)) × (value_of d.inner < 4294967296) }
{
    let mut row = taken_row(d.taken);
    row[0] = d.next.0;
    row[1] = d.pending.used as u64;
    row[4] = d.taken.used as u64;
    if let Some(v) = d.inner {
        row[2] = 1;
        row[3] = v as u64;
    }
    row
}

// ---- and back
fn pending_of(number: u64, dst: u64, payload: u64) -> Pending
    requires { (dst < 256) × (payload < 4294967296) }
    ensures { result ≡ record { number = record { 0 = number }; dst = record { 0 = dst }; payload = record { 0 = payload } } }
{
    Pending {
        number: Number(number),
        dst: Id(dst as u8),
        payload: Payload(payload as u32),
    }
}

// What is read off each item of a slice, and zero in the places that are left.
fn read_in<S, T: Copy, const N: usize, F: FnMut(&S) -> T>(
    zero: T,
    items: &[S],
    mut read: F,
) -> Filled<T, N>
    requires room { length items.now ≤ N }
    requires callable { (f : F) (x : _) → Contains items.now x.now → F.pre f x }
    ensures { (r : S → T) → ((f g : F) (x : _) (y : T) → F.step f x y g → (g ≡ f) × (y ≡ r x.now))
        → result ≡ filled_of N zero (map r items.now) }
{
    let mut places = [zero; N];
    for (i, item) in items.iter().enumerate() {
        places[i] = read(item);
    }
    Filled {
        places,
        used: items.len(),
    }
}

fn pendings_of(rows: &[[u64; RECORD]]) -> Pendings
    requires { (length rows.now ≤ most_pending) × Sendable rows.now (length rows.now) }
    ensures { result ≡ pendings_of (map pending_in rows.now) }
{
    let z = pending_of(0, 0, 0);
    read_in(z, rows, |row| pending_of(row[0], row[1], row[2]))
}

fn taken_of(words: &[u64]) -> Taken
    requires { length words.now ≤ most_actors }
    ensures { result ≡ taken_as (map number_in words.now) }
{
    read_in(Number(0), words, |word| Number(*word))
}

fn storage_of(saves: u64, value: u64) -> Option<u32>
    requires { value < 4294967296 }
    ensures { result ≡ storage_in saves value }
{
    (saves != 0).then_some(value as u32)
}

// The durable part that rows hold. Its places that are not used are zero, whatever stands in the rows there.
pub fn durable_of(row: &[u64], rows: &[[u64; RECORD]]) -> Durable
    requires { Readable row.now rows.now }
    ensures { result ≡ durable_as (durable_in row.now rows.now) }
{
    Durable {
        next: Number(row[0]),
        pending: pendings_of(&rows[..row[1] as usize]),
        taken: taken_of(&row[8..8 + row[4] as usize]),
        inner: storage_of(row[2], row[3]),
    }
}
