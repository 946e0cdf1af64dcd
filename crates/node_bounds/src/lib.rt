// The bounds of a node from its parts, and of the use of a clause from its conditions.
#![tactic(auto)]

ghost use Rattle.std.specs.Prelude.{◌≡◌, true, ◌&&◌, ◌↔◌, ◌-◌, ◌<◌, ◌≤◌};
ghost use Rattle.card.specs.Format.{node_count, kind_at};
ghost use Rattle.card.specs.Fault.{Sound, clause_part};
ghost use Rattle.card.specs.Decode.{clause_of};
ghost use Rattle.lines.specs.Count.{bit};
ghost use Rattle.bounds.specs.Inner.Table.{NameCells, TableHeld, Node, if_recipe, in_class, head_step, least_step, low_step, high_step};
ghost use Rattle.bounds.specs.Inner.Table.{menu_code, NodeFits, TableCells, OnWay, RowFits, WaysFit};

use bounds::nodes::{kind_at, left_part, name_at, right_part};
use bounds::table::{NO_HEAD, class, head, high, least, low, of_head, row};
use card::kinds::Kind;

// The greatest number in a cell: as a greatest number of items it is none.
pub const MOST: usize = 255;

// A greatest number less b; none stays none.
fn taken_off(h: usize, b: usize) -> usize
    ensures { (result ≤ h) × ((h < 255 → result ≡ h - b) × (255 ≤ h → result ≡ h)) }
{
    if h < MOST { h.saturating_sub(b) } else { h }
}

// The value at a recipe, 0 at any other clause.
fn if_recipe(card: &[u8], i: usize, v: usize) -> usize
    requires sound { Sound card.now }
    requires node { Node card.now i }
    ensures { (result ≡ if_recipe card.now i v) × (result ≤ v) }
{
    if let Kind::Recipe = kind_at(card, i) {
        v
    } else {
        0
    }
}

// 1 where the clause at the node is an item of class c.
pub fn weight(names: &[u16; 1577], i: usize, linear: bool, c: usize) -> usize
    requires { (i < 512) × ((c < 64) × NameCells names.now) }
    ensures { (result ≡ bit (linear && in_class names.now i c)) × (result ≤ 1) }
{
    if linear {
        usize::from(of_head(class(names, c), head(names, i)))
    } else {
        0
    }
}

// The code of the menus whose sides have these.
fn menu_code(left: usize, right: usize) -> usize
    requires { (left < 65536) × (right < 65536) }
    ensures { (result ≡ menu_code left right) × (result < 65536) }
{
    1002 + (left * 31 + right) % 64000
}

// The head of the clause at node i, from its parts: 1000 where there is none, a code for a menu.
pub fn head_step(card: &[u8], names: &[u16; 1577], i: usize) -> usize
    requires sound { Sound card.now }
    requires node { (Node card.now i) × NameCells names.now }
    ensures { (result ≡ head_step card.now names.now i) × (result < 65536) }
{
    match kind_at(card, i) {
        Kind::Atom => name_at(card, i),
        Kind::Recipe => head(names, right_part(card, i)),
        Kind::Menu => {
            let left = head(names, left_part(card, i));
            menu_code(left, head(names, right_part(card, i)))
        }
        Kind::Top
        | Kind::One
        | Kind::Tensor
        | Kind::With
        | Kind::Lend
        | Kind::Oplus
        | Kind::Zero
        | Kind::Unknown => NO_HEAD,
    }
}

// The least steps at node i. Never has no list; a menu has no conditions of its own.
pub fn least_step(card: &[u8], names: &[u16; 1577], table: &[u8; 66177], i: usize) -> usize
    requires table_held { TableHeld card.now names.now table.now }
    requires node { Node card.now i }
    ensures { (result ≡ least_step card.now names.now table.now i) × (result < 512) }
{
    match kind_at(card, i) {
        Kind::Atom => least(table, row(names, name_at(card, i))),
        Kind::Tensor | Kind::With => {
            let left = least(table, left_part(card, i));
            left + least(table, right_part(card, i))
        }
        Kind::Lend => least(table, right_part(card, i)),
        Kind::Recipe => {
            let left = least(table, left_part(card, i));
            let r = right_part(card, i);
            left + if_recipe(card, r, least(table, r))
        }
        Kind::Oplus => {
            let left = least(table, left_part(card, i));
            1 + left.min(least(table, right_part(card, i)))
        }
        Kind::Zero => MOST,
        Kind::Top | Kind::One | Kind::Menu | Kind::Unknown => 0,
    }
}

// The least number of items of class c at node i.
pub fn low_step(card: &[u8], names: &[u16; 1577], table: &[u8; 66177], i: usize, c: usize) -> usize
    requires table_held { TableHeld card.now names.now table.now }
    requires node { Node card.now i × (c < 64) }
    ensures { (result ≡ low_step card.now names.now table.now i c) × (result < 512) }
{
    match kind_at(card, i) {
        Kind::Atom => low(table, row(names, name_at(card, i)), c),
        Kind::Tensor => {
            let left = low(table, left_part(card, i), c);
            left + low(table, right_part(card, i), c)
        }
        Kind::With => {
            let left = low(table, left_part(card, i), c);
            left.max(low(table, right_part(card, i), c))
        }
        Kind::Lend => {
            let lent = weight(names, left_part(card, i), true, c);
            low(table, right_part(card, i), c).saturating_sub(lent)
        }
        Kind::Recipe => {
            let left = low(table, left_part(card, i), c);
            let r = right_part(card, i);
            left + if_recipe(card, r, low(table, r, c))
        }
        Kind::Oplus => {
            let left = low(table, left_part(card, i), c);
            left.min(low(table, right_part(card, i), c))
        }
        Kind::Zero => MOST,
        Kind::Top | Kind::One | Kind::Menu | Kind::Unknown => 0,
    }
}

// The greatest number of items of class c at node i.
pub fn high_step(card: &[u8], names: &[u16; 1577], table: &[u8; 66177], i: usize, c: usize) -> usize
    requires table_held { TableHeld card.now names.now table.now }
    requires node { Node card.now i × (c < 64) }
    ensures { (result ≡ high_step card.now names.now table.now i c) × (result < 512) }
{
    match kind_at(card, i) {
        Kind::Atom => high(table, row(names, name_at(card, i)), c),
        Kind::Top => MOST,
        Kind::Tensor => {
            let left = high(table, left_part(card, i), c);
            left + high(table, right_part(card, i), c)
        }
        Kind::With => {
            let left = high(table, left_part(card, i), c);
            left.min(high(table, right_part(card, i), c))
        }
        Kind::Lend => {
            let lent = weight(names, left_part(card, i), true, c);
            taken_off(high(table, right_part(card, i), c), lent)
        }
        Kind::Recipe => {
            let left = high(table, left_part(card, i), c);
            let r = right_part(card, i);
            left + if_recipe(card, r, high(table, r, c))
        }
        Kind::Oplus => {
            let left = high(table, left_part(card, i), c);
            left.max(high(table, right_part(card, i), c))
        }
        Kind::One | Kind::Zero | Kind::Menu | Kind::Unknown => 0,
    }
}

// Whether class c of the table at node i is settled: its bounds take in those from the node's parts.
pub fn node_fits(card: &[u8], names: &[u16; 1577], table: &[u8; 66177], i: usize, c: usize) -> bool
    requires table_held { TableHeld card.now names.now table.now }
    requires node { Node card.now i × (c < 64) }
    ensures { (result ≡ true) ↔ NodeFits card.now names.now table.now i c }
{
    let h = high(table, i, c);
    low(table, i, c) <= low_step(card, names, table, i, c)
        && (h == MOST || high_step(card, names, table, i, c) <= h)
}

// Whether the bounds at row r take in so many steps and items of class c.
pub fn row_fits(
    table: &[u8; 66177],
    r: usize,
    c: usize,
    steps: usize,
    lowest: usize,
    highest: usize,
) -> bool
    requires { (r ≤ 512) × ((c < 64) × TableCells table.now) }
    ensures { (result ≡ true) ↔ RowFits table.now r c steps lowest highest }
{
    let h = high(table, r, c);
    least(table, r) <= steps && low(table, r, c) <= lowest && (h == MOST || highest <= h)
}

// Whether the bounds of each head of the clause at node i take in the way to it: so many steps and items of class c before, its
// conditions, and a step at each menu.
pub fn ways_fit(
    card: &[u8],
    names: &[u16; 1577],
    table: &[u8; 66177],
    i: usize,
    c: usize,
    steps: usize,
    lowest: usize,
    highest: usize,
) -> bool
    requires table_held { TableHeld card.now names.now table.now }
    requires clause { (clause_part card.now (node_count card.now) i ≡ true) × (c < 64) }
    requires on_way { OnWay i steps lowest highest }
    ensures { (result ≡ true) ↔ (let bs = card.now in
        WaysFit bs names.now table.now (clause_of bs i) i c steps lowest highest) }
{
    match kind_at(card, i) {
        Kind::Atom => {
            let r = row(names, name_at(card, i));
            row_fits(table, r, c, steps, lowest, highest)
        }
        Kind::Recipe => {
            let g = left_part(card, i);
            let s = steps + least(table, g);
            let l = lowest + low(table, g, c);
            let h = highest + high(table, g, c);
            ways_fit(card, names, table, right_part(card, i), c, s, l, h)
        }
        Kind::Menu => {
            let d = left_part(card, i);
            let e = right_part(card, i);
            ways_fit(card, names, table, d, c, steps + 1, lowest, highest)
                && ways_fit(card, names, table, e, c, steps + 1, lowest, highest)
        }
        Kind::Top
        | Kind::One
        | Kind::Tensor
        | Kind::With
        | Kind::Lend
        | Kind::Oplus
        | Kind::Zero
        | Kind::Unknown => true,
    }
}
