// A rule table laid out as rows of words, once, for the crate link_tables to look up. A rule's counts are taken here: what its
// commands send or save does not depend on what is filled in.
#![tactic(auto)]

ghost use Rattle.std.specs.Prelude.{◌≡◌, true, map, ◌≤◌, ◌<◌, replicate};
ghost use Rattle.lists.specs.Lists.{pad};
ghost use Rattle.types.specs.Capacities.{most_commands, most_rules};
ghost use Rattle.rules.specs.WellFormed.{rule_ok};
ghost use Rattle.link_inner.specs.Views.{rules_of, table_ok};
ghost use Rattle.link_tables.specs.Rows.{rule_in, RowLaid, TableLaid, rules_in};
ghost use Rattle.link_table_rows.specs.Layout.{words_of, Fits, row_of, Laid};

use link_inner::Table;
use types::{MOST_RULES, Rule, RuleCommand};

// A command's two words; whether it sends, and whether it sends or saves.
#[derive(Clone, Copy)]
struct Words {
    head: u64,
    word: u64,
    sent: bool,
    kept: bool,
}

// What a type says of the numbers in a command is known here.
#[tactic(auto, unfolding(crate::specs::Layout::words_of))]
fn words_of(c: RuleCommand) -> Words
    ensures { (result ≡ words_of c) × Fits result }
{
    match c {
        RuleCommand::SetTimer(t) => Words {
            head: 16 * u64::from(t),
            word: 0,
            sent: false,
            kept: false,
        },
        RuleCommand::CancelTimer(t) => Words {
            head: 1 + 16 * u64::from(t),
            word: 0,
            sent: false,
            kept: false,
        },
        RuleCommand::Send(to_source, dst, echo, payload) => Words {
            head: 2 + 4 * u64::from(to_source) + 8 * u64::from(echo) + 16 * u64::from(dst.0),
            word: u64::from(payload.0),
            sent: true,
            kept: true,
        },
        RuleCommand::Save(echo, v) => Words {
            head: 3 + 8 * u64::from(echo),
            word: u64::from(v),
            sent: false,
            kept: true,
        },
    }
}

// The row with the words of its four places.
fn row_of(r: Rule) -> [u64; 16]
    ensures { Laid r result }
{
    let [a, b, c, d] = r.commands.map(|s| words_of(s.command));
    [
        u64::from(r.event) * 16 + u64::from(r.state),
        u64::from(r.low),
        u64::from(r.high),
        u64::from(r.touched),
        u64::from(r.next),
        r.used as u64,
        a.head,
        a.word,
        b.head,
        b.word,
        c.head,
        c.word,
        d.head,
        d.word,
        u64::from(a.sent) + u64::from(b.sent) + u64::from(c.sent) + u64::from(d.sent),
        u64::from(a.kept | b.kept | c.kept | d.kept),
    ]
}

// The rows that are not used are zero. A loop over the used ones: a map of all sixteen rules was tried, and takes three times as long.
#[tactic(auto, using(crate::proofs::Tables::used_fit))]
pub fn rows_of(t: Table) -> [[u64; 16]; MOST_RULES]
    requires { table_ok t ≡ true }
    ensures { (rules_in result t.used ≡ rules_of t) × TableLaid result t.used × (result ≡ pad most_rules (replicate 16 0) (map row_of (rules_of t))) }
{
    let mut out = [[0; 16]; MOST_RULES];
    for (i, r) in t.rules[..t.used].iter().enumerate() {
        out[i] = row_of(*r);
    }
    out
}
