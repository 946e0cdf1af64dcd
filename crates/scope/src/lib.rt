// The scope of a sound card: its entries in two tables, which clauses can be used for a name, and its must lines.
#![tactic(auto)]

ghost use Rattle.std.specs.Prelude.{◌≡◌, true, ◌+◌, ◌<◌};
ghost use Rattle.calculus.specs.Formula.{usable as usableM};
ghost use Rattle.card.specs.Format.{node_count, rule_count, line_count, listing};
ghost use Rattle.card.specs.Fault.{Sound, clause_part};
ghost use Rattle.card.specs.Decode.{clause_of, rule_entry, scope_of, job_of};
ghost use Rattle.scope.specs.Inner.Sets.{strict_of};
ghost use Rattle.scope.specs.Inner.Tables.{table_scope, TableEntered, put_t};

use card::format::{byte, left, line_byte, line_node, right, rule_node};
use card::kinds::{Kind, kind_of};
use lines::LineSet;

// The entries in scope: the node of each, and whether it is linear. Behind the entries both tables are free.
#[derive(Drop)]
pub struct Tables {
    pub nodes: [u16; 256],
    pub linear: [bool; 256],
}

impl Tables {
    // The rules, from 0: they stay.
    fn of_rules(card: &[u8]) -> Tables
        requires { Sound card.now }
        ensures entered { let bs = card.now in
            TableEntered bs result.nodes result.linear (rule_count bs) }
        ensures entries { let bs = card.now in
            (table_scope bs result.nodes result.linear (rule_count bs)).entries
            ≡ listing (rule_count bs) (rule_entry bs) }
    {
        let mut tables = Tables {
            nodes: [0; 256],
            linear: [false; 256],
        };
        for i in 0..byte(card, 3) {
            tables.put(i, rule_node(card, i), false);
        }
        tables
    }

    // The tables of the card: the rules, then the lines. They stand for the job's scope.
    pub fn of(card: &[u8]) -> Tables
        requires { Sound card.now }
        ensures entered { let bs = card.now in
            TableEntered bs result.nodes result.linear (rule_count bs + line_count bs) }
        ensures scope { let bs = card.now in
            table_scope bs result.nodes result.linear (rule_count bs + line_count bs)
            ≡ (job_of bs).scope }
    {
        let mut tables = Tables::of_rules(card);
        let rules = byte(card, 3);
        for i in 0..byte(card, 4) {
            tables.put(rules + i, line_node(card, i), true);
        }
        tables
    }

    // Entry e: its node, and whether it is linear.
    pub fn put(&mut self, e: usize, node: usize, linear: bool)
        requires { (e < 256) × (node < 65536) }
        ensures { self.new ≡ put_t self.old e node linear }
    {
        self.nodes[e] = node as u16;
        self.linear[e] = linear;
    }
}

// Whether the clause at the node can be used for the name: the name is one of its heads, found by following the right parts of recipes and
// both parts of menus.
pub fn usable(card: &[u8], node: usize, name: usize) -> bool
    requires sound { Sound card.now }
    requires node_value { clause_part card.now (node_count card.now) node ≡ true }
    ensures { result ≡ usableM (scope_of card.now).fits name (clause_of card.now node) }
{
    match kind_of(card, node) {
        Kind::Atom => left(card, node) == name,
        Kind::Recipe => usable(card, right(card, node), name),
        Kind::Menu => {
            usable(card, left(card, node), name) || usable(card, right(card, node), name)
        }
        _ => false,
    }
}

// The must lines.
pub fn strict_lines(card: &[u8]) -> LineSet
    requires { Sound card.now }
    ensures { result ≡ strict_of card.now }
{
    let mut strict = LineSet::empty();
    for i in 0..byte(card, 4) {
        if line_byte(card, i) == 1 {
            strict = strict.add(i);
        }
    }
    strict
}
