// Whether a table is settled. Only this is relied on; how the table came about is not.
ghost use Rattle.std.specs.Prelude.{◌≡◌, Bool, true, false, ◌&&◌, ◌↔◌, ℕ, ◌<◌, ◌≤◌, ltb};
ghost use Rattle.card.specs.Format.{node_count, rule_count, line_count, kind_at, left_at, rule_node, line_node};
ghost use Rattle.lines.specs.Set.{bit_at};
ghost use Rattle.card.specs.Fault.{Sound, clause_part};
ghost use Rattle.bounds.specs.Inner.Table.{NameCells, TableCells, TableHeld, Node, in_class, classes as classesOf};
ghost use Rattle.bounds.specs.Inner.Table.{NodeFits, NodeSettled, NameSettled, RecipeSettled, UseSettled, Origin, Masked, Settled};

use bounds::nodes::{kind_at, left_part, line_at, name_at, node_count, right_part, rule_at};
use bounds::table::{class, classes, head, high, least, low, of_head, row};
use card::format::byte;
use card::kinds::Kind;
use node_bounds::{head_step, least_step, node_fits, row_fits, ways_fit, weight};

// Every class at node i.
fn classes_fit(card: &[u8], names: &[u16; 1577], table: &[u8; 66177], i: usize) -> bool
    requires table_held { TableHeld card.now names.now table.now }
    requires node { Node card.now i }
    ensures { (result ≡ true) ↔ ((c : ℕ) → c < classesOf names.now → NodeFits card.now names.now table.now i c) }
{
    (0..classes(names)).all(|c| node_fits(card, names, table, i, c))
}

fn node_settled(card: &[u8], names: &[u16; 1577], table: &[u8; 66177], i: usize) -> bool
    requires table_held { TableHeld card.now names.now table.now }
    requires node { Node card.now i }
    ensures { (result ≡ true) ↔ NodeSettled card.now names.now table.now i }
{
    head(names, i) == head_step(card, names, i)
        && least(table, i) <= least_step(card, names, table, i)
        && classes_fit(card, names, table, i)
}

fn nodes_settled(card: &[u8], names: &[u16; 1577], table: &[u8; 66177]) -> bool
    requires { TableHeld card.now names.now table.now }
    ensures { (result ≡ true) ↔ ((i : ℕ) → i < node_count card.now
        → NodeSettled card.now names.now table.now i) }
{
    (0..node_count(card)).all(|i| node_settled(card, names, table, i))
}

// A bare name at node i, whose bounds stand at row r, for every class.
fn name_settled(names: &[u16; 1577], table: &[u8; 66177], i: usize, linear: bool, r: usize) -> bool
    requires cells { NameCells names.now × TableCells table.now }
    requires rows { (i < 512) × (r ≤ 512) }
    ensures { (result ≡ true) ↔ NameSettled names.now table.now i linear r }
{
    for c in 0..classes(names) {
        let w = weight(names, i, linear, c);
        if !row_fits(table, r, c, 1, w, w) {
            return false;
        }
    }
    true
}

// A recipe at node i with the one condition g before a name, whose bounds stand at row r, for every class.
fn recipe_settled(
    names: &[u16; 1577],
    table: &[u8; 66177],
    i: usize,
    linear: bool,
    g: usize,
    r: usize,
) -> bool
    requires cells { NameCells names.now × TableCells table.now }
    requires rows { (i < 512) × ((g < 512) × (r ≤ 512)) }
    ensures { (result ≡ true) ↔ RecipeSettled names.now table.now i linear g r }
{
    let s = 1 + least(table, g);
    for c in 0..classes(names) {
        let w = weight(names, i, linear, c);
        let l = w + low(table, g, c);
        let h = w + high(table, g, c);
        if !row_fits(table, r, c, s, l, h) {
            return false;
        }
    }
    true
}

// Each head of the clause at node i, for every class, by the ways to it.
fn ways_settled(
    card: &[u8],
    names: &[u16; 1577],
    table: &[u8; 66177],
    i: usize,
    linear: bool,
) -> bool
    requires table_held { TableHeld card.now names.now table.now }
    requires clause { clause_part card.now (node_count card.now) i ≡ true }
    ensures { (result ≡ true) ↔ UseSettled card.now names.now table.now i linear }
{
    for c in 0..classes(names) {
        let w = weight(names, i, linear, c);
        if !ways_fit(card, names, table, i, c, 1, w, w) {
            return false;
        }
    }
    true
}

// A recipe at node i: where its condition stands before a name, by these two.
fn recipe_use_settled(
    card: &[u8],
    names: &[u16; 1577],
    table: &[u8; 66177],
    i: usize,
    linear: bool,
) -> bool
    requires table_held { TableHeld card.now names.now table.now }
    requires clause { (clause_part card.now (node_count card.now) i ≡ true) × (kind_at card.now i ≡ 7) }
    ensures { (result ≡ true) ↔ UseSettled card.now names.now table.now i linear }
{
    let d = right_part(card, i);
    if let Kind::Atom = kind_at(card, d) {
        let g = left_part(card, i);
        let r = row(names, name_at(card, d));
        recipe_settled(names, table, i, linear, g, r)
    } else {
        ways_settled(card, names, table, i, linear)
    }
}

// Each head of the clause at node i, for every class. A bare name and a recipe of one condition are most of all clauses: for them what does not go by
// the class is looked up once.
fn use_settled(
    card: &[u8],
    names: &[u16; 1577],
    table: &[u8; 66177],
    i: usize,
    linear: bool,
) -> bool
    requires table_held { TableHeld card.now names.now table.now }
    requires clause { clause_part card.now (node_count card.now) i ≡ true }
    ensures { (result ≡ true) ↔ UseSettled card.now names.now table.now i linear }
{
    match kind_at(card, i) {
        Kind::Atom => {
            let r = row(names, name_at(card, i));
            name_settled(names, table, i, linear, r)
        }
        Kind::Recipe => recipe_use_settled(card, names, table, i, linear),
        _ => ways_settled(card, names, table, i, linear),
    }
}

// The clause of rule k.
fn rule_settled(card: &[u8], names: &[u16; 1577], table: &[u8; 66177], k: usize) -> bool
    requires table_held { TableHeld card.now names.now table.now }
    requires here { k < rule_count card.now }
    ensures { (result ≡ true) ↔ UseSettled card.now names.now table.now (rule_node card.now k) false }
{
    use_settled(card, names, table, rule_at(card, k), false)
}

fn rules_settled(card: &[u8], names: &[u16; 1577], table: &[u8; 66177]) -> bool
    requires { TableHeld card.now names.now table.now }
    ensures { (result ≡ true) ↔ ((k : ℕ) → k < rule_count card.now
        → UseSettled card.now names.now table.now (rule_node
        card.now k) false) }
{
    let rules = byte(card, 3);
    (0..rules).all(|k| rule_settled(card, names, table, k))
}

// The clause of line k.
fn line_settled(card: &[u8], names: &[u16; 1577], table: &[u8; 66177], k: usize) -> bool
    requires table_held { TableHeld card.now names.now table.now }
    requires here { k < line_count card.now }
    ensures { (result ≡ true) ↔ UseSettled card.now names.now table.now (line_node card.now k) true }
{
    use_settled(card, names, table, line_at(card, k), true)
}

fn lines_settled(card: &[u8], names: &[u16; 1577], table: &[u8; 66177]) -> bool
    requires { TableHeld card.now names.now table.now }
    ensures { (result ≡ true) ↔ ((k : ℕ) → k < line_count card.now
        → UseSettled card.now names.now table.now (line_node
        card.now k) true) }
{
    let lines = byte(card, 4);
    (0..lines).all(|k| line_settled(card, names, table, k))
}

// Node i, if it is a lend.
fn lend_settled(card: &[u8], names: &[u16; 1577], table: &[u8; 66177], i: usize) -> bool
    requires table_held { TableHeld card.now names.now table.now }
    requires node { Node card.now i }
    ensures { (result ≡ true) ↔ (kind_at card.now i ≡ 6
        → UseSettled card.now names.now table.now (left_at
        card.now i) true) }
{
    if let Kind::Lend = kind_at(card, i) {
        use_settled(card, names, table, left_part(card, i), true)
    } else {
        true
    }
}

fn lends_settled(card: &[u8], names: &[u16; 1577], table: &[u8; 66177]) -> bool
    requires { TableHeld card.now names.now table.now }
    ensures { (result ≡ true) ↔ ((i : ℕ) → i < node_count card.now → kind_at card.now i ≡ 6
        → UseSettled card.now names.now table.now (left_at
        card.now i) true) }
{
    (0..node_count(card)).all(|i| lend_settled(card, names, table, i))
}

// The clauses that may come into scope: those of rules, of lines and of lends.
fn uses_settled(card: &[u8], names: &[u16; 1577], table: &[u8; 66177]) -> bool
    requires { TableHeld card.now names.now table.now }
    ensures { (result ≡ true) ↔ ((i : ℕ) (b : Bool) → Origin card.now i b
        → UseSettled card.now names.now table.now i b) }
{
    rules_settled(card, names, table)
        && lines_settled(card, names, table)
        && lends_settled(card, names, table)
}

// Whether line i, if there is one, is of class c.
fn of_class(card: &[u8], names: &[u16; 1577], c: usize, i: usize) -> bool
    requires sound { Sound card.now }
    requires class { (c < 64) × NameCells names.now }
    ensures { result ≡ (let bs = card.now in
        ltb i (line_count bs) && in_class names.now (line_node bs i) c) }
{
    i < byte(card, 4) && of_head(class(names, c), head(names, line_at(card, i)))
}

// Bit i of a word.
fn lit(word: u64, i: usize) -> bool
    requires { i < 64 }
    ensures { result ≡ bit_at word i }
{
    (word >> i) & 1 == 1
}

// Bit i of the word of class c.
fn bit_settled(card: &[u8], names: &[u16; 1577], mask: u64, c: usize, i: usize) -> bool
    requires sound { Sound card.now }
    requires class { (c < 64) × NameCells names.now }
    requires bit { i < 64 }
    ensures { (result ≡ true) ↔ (bit_at mask i ≡ (ltb i (line_count card.now) && in_class names.now (line_node card.now i) c)) }
{
    lit(mask, i) == of_class(card, names, c, i)
}

// The word of class c.
fn masked(card: &[u8], names: &[u16; 1577], masks: &[u64; 64], c: usize) -> bool
    requires sound { Sound card.now }
    requires class { (c < 64) × NameCells names.now }
    ensures { (result ≡ true) ↔ Masked card.now names.now masks.now c }
{
    let mask = masks[c];
    (0..64).all(|i| bit_settled(card, names, mask, c, i))
}

fn masks_settled(card: &[u8], names: &[u16; 1577], masks: &[u64; 64]) -> bool
    requires sound { Sound card.now }
    requires cells { NameCells names.now }
    ensures { (result ≡ true) ↔ ((c : ℕ) → c < classesOf names.now
        → Masked card.now names.now masks.now c) }
{
    (0..classes(names)).all(|c| masked(card, names, masks, c))
}

pub fn settled(card: &[u8], names: &[u16; 1577], table: &[u8; 66177], masks: &[u64; 64]) -> bool
    requires { TableHeld card.now names.now table.now }
    ensures { (result ≡ true) ↔ Settled card.now names.now table.now
        masks.now }
{
    if classes(names) == 0 {
        return false;
    }
    nodes_settled(card, names, table)
        && uses_settled(card, names, table)
        && masks_settled(card, names, masks)
}
