// Bounds of an agenda: least steps, and least and greatest numbers of items of each class, from a table that is checked before it is used.
#![tactic(auto)]

mod doom;
pub mod nodes;
pub mod table;

ghost use Rattle.std.specs.Prelude.{◌≡◌, true, false, ℕ, ◌+◌, ◌<◌, ◌≤◌, length, get_or};
ghost use Rattle.card.specs.Format.{rule_count, line_count, node_count};
ghost use Rattle.card.specs.Fault.{Sound, clause_part};
ghost use Rattle.bounds.specs.Inner.Table.{TableCells, TableHeld};
ghost use Rattle.bounds.specs.Inner.Doom.{Coded, least_sum, Doomed};

use lines::LineSet;

// Whether the table leaves the agenda no list in its window and room. Without a table nothing is said.
pub fn hopeless(
    ready: bool,
    card: &[u8],
    names: &[u16],
    table: &[u8],
    masks: &[u64],
    nodes: &[u16; 256],
    agenda: &[u16; 104],
    len: usize,
    count: usize,
    strict: LineSet,
    lax: LineSet,
    room: usize,
) -> bool
    requires table_held { ready ≡ true → TableHeld card.now names.now table.now × (length masks.now ≡ 64) }
    requires sound { Sound card.now }
    requires counted { (rule_count card.now + line_count card.now ≤ count) × (count ≤ 256) }
    requires clauses { (e : ℕ) → e < count → clause_part card.now (node_count card.now) (get_or nodes.now e 0) ≡ true }
    requires tasks { (len ≤ 104) × Coded card.now agenda.now len }
    ensures { result ≡ true → (ready ≡ true) × (let bs = card.now in
        Doomed bs names.now table.now masks.now nodes.now
        agenda.now len count strict lax room) }
{
    ready
        && (room < doom::least_sum(table, agenda, len)
            || doom::unbalanced(
                card, names, table, masks, nodes, agenda, len, count, strict, lax,
            ))
}

// How many steps to keep free for the agenda. Without a table none.
pub fn spared(ready: bool, card: &[u8], table: &[u8], agenda: &[u16; 104], len: usize) -> usize
    requires sound { Sound card.now × (ready ≡ true → TableCells table.now) }
    requires tasks { (len ≤ 104) × Coded card.now agenda.now len }
    ensures at_most { (result ≤ least_sum table.now agenda.now len) × (result < 32768) }
    ensures without_table { ready ≡ false → result ≡ 0 }
{
    if ready {
        doom::least_sum(table, agenda, len)
    } else {
        0
    }
}
