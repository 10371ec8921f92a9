// The order of envelopes in code is the derived one, and flows stand in the order of their pairs. Here each comparison, and each
// test that comes of it, says what the definitions say.
#![tactic(auto)]

ghost use Rattle.std.specs.Prelude.{◌≡◌};
ghost use Rattle.types.specs.Order.{cmp_flow, cmp_message, cmp_envelope, is_less, is_equal, same};

use std::cmp::Ordering;
use types::{Envelope, Message};

// The flows of two envelopes: source, then destination.
pub fn compare_flows(a: Envelope, b: Envelope) -> Ordering
    ensures { result ≡ cmp_flow a b }
{
    (a.src, a.dst).cmp(&(b.src, b.dst))
}

pub fn compare_messages(m: Message, n: Message) -> Ordering
    ensures { result ≡ cmp_message m n }
{
    m.cmp(&n)
}

pub fn compare_envelopes(a: Envelope, b: Envelope) -> Ordering
    ensures { result ≡ cmp_envelope a b }
{
    a.cmp(&b)
}

// a stands before b.
pub fn before(a: Envelope, b: Envelope) -> bool
    ensures { result ≡ is_less (cmp_envelope a b) }
{
    a < b
}

pub fn same_envelope(a: Envelope, b: Envelope) -> bool
    ensures { result ≡ same a b }
{
    a == b
}

// The flow of a stands before that of b.
pub fn flow_before(a: Envelope, b: Envelope) -> bool
    ensures { result ≡ is_less (cmp_flow a b) }
{
    compare_flows(a, b).is_lt()
}

pub fn same_flow(a: Envelope, b: Envelope) -> bool
    ensures { result ≡ is_equal (cmp_flow a b) }
{
    compare_flows(a, b).is_eq()
}
