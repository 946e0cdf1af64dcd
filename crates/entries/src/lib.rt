// The tables of the search: each entry's node and heads, and which lines each line waits for.
#![tactic(auto)]

ghost use Rattle.std.specs.Prelude.{◌≡◌, true, ◌+◌, ◌≤◌, ◌<◌, take, set};
ghost use Rattle.card.specs.Format.{node_count, rule_count, line_count, rule_node, listing};
ghost use Rattle.card.specs.Fault.{Sound, clause_part};
ghost use Rattle.card.specs.Decode.{job_of};
ghost use Rattle.entries.specs.Inner.Entries.{HeadCode, Headed, scope_in, Entered};
ghost use Rattle.entries.specs.Inner.Masks.{with_line, wider, Waiting, ready_by};

use card::format::{byte, left, line_byte, line_node, right, rule_node};
use card::kinds::{Kind, kind_of};
use lines::LineWord;

// The head of the clause at the node, found by following the right parts of recipes; 1000 where there is none; where there is a menu, its
// node and 1001.
pub fn head_code(card: &[u8], node: usize) -> u16
    requires sound { Sound card.now }
    requires a_clause { clause_part card.now (node_count card.now) node ≡ true }
    ensures { HeadCode card.now node result }
{
    match kind_of(card, node) {
        Kind::Recipe => head_code(card, right(card, node)),
        Kind::Atom => left(card, node) as u16,
        Kind::Menu => (1001 + node) as u16,
        _ => 1000,
    }
}

// Entry e: the node and its heads.
pub fn put(card: &[u8], nodes: &mut [u16; 256], heads: &mut [u16; 256], e: usize, node: usize)
    requires sound { Sound card.now }
    requires a_clause { clause_part card.now (node_count card.now) node ≡ true }
    requires e_bound { e < 256 }
    ensures nodes_after { nodes.new ≡ set nodes.old e node }
    ensures headed { Headed card.now heads.old heads.new e node }
{
    nodes[e] = node as u16;
    heads[e] = head_code(card, node);
}

// The rules, from 0. Behind them the tables are free: 256 places as before.
fn enter_rules(card: &[u8], nodes: &mut [u16; 256], heads: &mut [u16; 256])
    requires { Sound card.now }
    ensures entered { let bs = card.now in
        Entered bs nodes.new heads.new (rule_count bs) }
    ensures listed { let bs = card.now in
        take (rule_count bs) nodes.new ≡ listing (rule_count bs) (rule_node bs) }
{
    for i in 0..byte(card, 3) {
        put(card, nodes, heads, i, rule_node(card, i));
    }
}

// The tables of the card: the rules, then the lines. They stand for the job's scope. Behind them the tables are free: 256 places as
// before (`Entered`).
pub fn enter(card: &[u8], nodes: &mut [u16; 256], heads: &mut [u16; 256])
    requires { Sound card.now }
    ensures entered { let bs = card.now in
        Entered bs nodes.new heads.new (rule_count bs + line_count bs) }
    ensures scope { let bs = card.now in
        scope_in bs nodes.new (rule_count bs + line_count bs) ≡ (job_of bs).scope }
{
    enter_rules(card, nodes, heads);
    let rules = byte(card, 3);
    for i in 0..byte(card, 4) {
        put(card, nodes, heads, rules + i, line_node(card, i));
    }
}

// The mask, with line i where the test holds.
#[tactic(auto, unfolding(crate::specs::Inner::Masks::with_line))]
fn with_line(mask: u64, i: usize, joins: bool) -> u64
    requires { i < 64 }
    ensures { result ≡ with_line joins mask i }
{
    let lines = LineWord { bits: mask };
    if joins { lines.add(i).bits } else { mask }
}

// What a line waits for: of the lower lines of its node a must line for the must lines, a may line for all.
#[tactic(auto, unfolding(crate::specs::Inner::Masks::wider))]
fn wider_lines(must: bool, musts: u64, all: u64) -> u64
    ensures { result ≡ wider must musts all }
{
    if must { musts } else { all }
}

// For each line the mask of the lines that it waits for. The last line of each node so far, and 1 more, is where the masks of all lines
// and of the must lines of that node stand; cell 0 of each is for a node without lines.
pub fn waits(card: &[u8]) -> [u64; 64]
    requires { Sound card.now }
    ensures { Waiting card.now result }
{
    let mut last = [0u8; 512];
    let mut all = [0u64; 65];
    let mut musts = [0u64; 65];
    let mut masks = [0u64; 64];
    for i in 0..byte(card, 4) {
        let node = line_node(card, i);
        let must = line_byte(card, i) == 1;
        let k = last[node] as usize;
        let lower = all[k];
        let lower_musts = musts[k];
        masks[i] = wider_lines(must, lower_musts, lower);
        all[i + 1] = with_line(lower, i, true);
        musts[i + 1] = with_line(lower_musts, i, must);
        last[node] = (i + 1) as u8;
    }
    masks
}

// Whether entry e may be used: every line that it waits for is seen. What is no line waits for nothing.
pub fn ready(rules: usize, lines: usize, waits: &[u64; 64], seen: LineWord, e: usize) -> bool
    requires { (rules < 256) × (lines ≤ 64) }
    ensures { result ≡ ready_by rules lines waits.now seen e }
{
    if rules <= e && e < rules + lines {
        let bits = waits[e - rules];
        seen.holds(LineWord { bits })
    } else {
        true
    }
}
