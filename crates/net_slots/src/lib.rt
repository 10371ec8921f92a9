// Places among cells that stand in order, found by halves.
#![tactic(auto)]

ghost use Rattle.std.specs.Prelude.{◌≡◌, ℕ, Bool, List, true, not, ◌≤◌, length, leb, position, take_while};
ghost use Rattle.std.specs.Fn.{FnReturnsAt};
ghost use Rattle.lists.specs.Lists.{chain, lead};
ghost use Rattle.types.specs.Order.{is_equal};
ghost use Rattle.net_cells.specs.Cells.{cmp_cell, flow_of};
ghost use Rattle.net_slots.specs.Search.{Once, stands_before, up_to_flow};

use net_cells::{TAGS, before, same};

// How many cells pass, where none passes after one that fails. By hand: the slice's partition_point asks at one or two cells more,
// and on a hundred cells takes a quarter longer.
pub fn halve<F: Fn(&[u64; 4]) -> bool>(cells: &[[u64; 4]], passes: F) -> usize
    requires { F.IsAlwaysCallable passes }
    ensures within { result ≤ length cells.now }
    ensures first { (p : List ℕ → Bool) → ((x : List ℕ) (r : Bool) → FnReturnsAt F.Fn passes x r → r ≡ p x)
        → Once p (length cells.now) cells.now → result ≡ lead p cells.now }
{
    let mut low = 0;
    let mut high = cells.len();
    while low < high {
        let mid = low + (high - low) / 2;
        if passes(&cells[mid]) {
            low = mid + 1;
        } else {
            high = mid;
        }
    }
    low
}

// How many cells stand before k.
pub fn cells_before(cells: &[[u64; 4]], k: [u64; 4]) -> usize
    requires { Once (stands_before k) (length cells.now) cells.now }
    ensures { result ≡ lead (stands_before k) cells.now }
{
    halve(cells, |x| before(*x, k))
}

// How many cells stand up to the end of the flow of k.
pub fn flow_end(cells: &[[u64; 4]], k: [u64; 4]) -> usize
    requires { Once (up_to_flow k) (length cells.now) cells.now }
    ensures { result ≡ lead (up_to_flow k) cells.now }
{
    halve(cells, |x| x[0] / TAGS <= k[0] / TAGS)
}

// The place of the first equal cell in cells that begin with the flow of k.
fn first_in(flow: &[[u64; 4]], k: [u64; 4]) -> Option<usize>
    ensures { result ≡ position (λ x. is_equal (cmp_cell x k)) (take_while (up_to_flow k) flow.now) }
{
    flow.iter()
        .take_while(|x| x[0] / TAGS <= k[0] / TAGS)
        .position(|x| same(*x, k))
}

// The place of the first equal cell where the flows ascend, or the count: a walk from the start of its flow to the end.
// The count and no Option: the page of contracts promises it so.
pub fn first_equal(cells: &[[u64; 4]], k: [u64; 4]) -> usize
    requires { chain (λ x y. leb (flow_of x) (flow_of y)) cells.now ≡ true }
    ensures { result ≡ lead (λ x. not (is_equal (cmp_cell x k))) cells.now }
{
    let start = halve(cells, |x| x[0] / TAGS < k[0] / TAGS);
    first_in(&cells[start..], k).map_or(cells.len(), |i| start + i)
}
