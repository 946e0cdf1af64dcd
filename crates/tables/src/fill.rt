// How a table is filled in. Nothing is relied on but that it is safe and ends: the check decides.
ghost use Rattle.std.specs.Prelude.{◌≡◌, ◌<◌, ◌≤◌};
ghost use Rattle.card.specs.Format.{kind_at};
ghost use Rattle.card.specs.Fault.{Sound};
ghost use Rattle.bounds.specs.Inner.Table.{NameCells, TableCells, TableHeld, Node, OnWay};

use bounds::nodes::{kind_at, left_part, line_at, name_at, node_count, right_part, rule_at};
use bounds::table::{
    ALL, CLASS_CODES, CLASS_COUNT, HIGHS, LEASTS, MOST_CLASSES, NAMES, NO_HEAD, NO_NODE, ROWS,
    class, classes, head, high, least, low, of_head, row,
};
use card::format::byte;
use card::kinds::Kind;
use node_bounds::{MOST, head_step, high_step, least_step, low_step, weight};

// A number as a byte.
fn capped(v: usize) -> u8
    ensures { result < 256 }
{
    v.min(MOST) as u8
}

fn put_name(names: &mut [u16; 1577], at: usize, v: usize)
    requires { (at < 1577) × ((v < 65536) × NameCells names.old) }
    ensures { NameCells names.new }
{
    names[at] = v as u16;
}

fn put(table: &mut [u8; 66177], at: usize, v: usize)
    requires { (at < 66177) × TableCells table.old }
    ensures { TableCells table.new }
{
    table[at] = capped(v);
}

// The head of each clause node.
fn fill_heads(card: &[u8], names: &mut [u16; 1577])
    requires sound { Sound card.now }
    requires cells { NameCells names.old }
    ensures { NameCells names.new }
{
    for i in 0..node_count(card) {
        let h = head_step(card, names, i);
        put_name(names, i, h);
    }
}

// Node i is the row of its name, if it is a name.
fn fill_row(card: &[u8], names: &mut [u16; 1577], i: usize)
    requires sound { Sound card.now }
    requires node { Node card.now i × NameCells names.old }
    ensures { NameCells names.new }
{
    if let Kind::Atom = kind_at(card, i) {
        put_name(names, ROWS + name_at(card, i), i);
    }
}

// The row of each name.
fn fill_rows(card: &[u8], names: &mut [u16; 1577])
    requires sound { Sound card.now }
    requires cells { NameCells names.old }
    ensures { NameCells names.new }
{
    for a in 0..NAMES {
        put_name(names, ROWS + a, NO_NODE);
    }
    for i in 0..node_count(card) {
        fill_row(card, names, i);
    }
}

// Whether some class has the head h.
fn has_class(names: &[u16; 1577], h: usize) -> bool
    requires { NameCells names.now }
{
    (0..classes(names)).any(|c| class(names, c) == h)
}

// A class for the head of the clause at node i. What finds no place is not counted.
fn add_class(names: &mut [u16; 1577], i: usize)
    requires { (i < 512) × NameCells names.old }
    ensures { NameCells names.new }
{
    let n = classes(names);
    let h = head(names, i);
    if n < MOST_CLASSES && !has_class(names, h) {
        put_name(names, CLASS_CODES + n, h);
        put_name(names, CLASS_COUNT, n + 1);
    }
}

// All items; lines without a head; then the heads of lines.
fn line_classes(card: &[u8], names: &mut [u16; 1577])
    requires sound { Sound card.now }
    requires cells { NameCells names.old }
    ensures { NameCells names.new }
{
    put_name(names, CLASS_CODES, ALL);
    put_name(names, CLASS_CODES + 1, NO_HEAD);
    put_name(names, CLASS_COUNT, 2);
    for i in 0..byte(card, 4) {
        let d = line_at(card, i);
        add_class(names, d);
    }
}

// Node i, if it is a lend.
fn lend_class(card: &[u8], names: &mut [u16; 1577], i: usize)
    requires sound { Sound card.now }
    requires node { Node card.now i × NameCells names.old }
    ensures { NameCells names.new }
{
    if let Kind::Lend = kind_at(card, i) {
        add_class(names, left_part(card, i));
    }
}

// The heads of lent clauses.
fn lend_classes(card: &[u8], names: &mut [u16; 1577])
    requires sound { Sound card.now }
    requires cells { NameCells names.old }
    ensures { NameCells names.new }
{
    for i in 0..node_count(card) {
        lend_class(card, names, i);
    }
}

// The word of class c.
fn mask(card: &[u8], names: &[u16; 1577], c: usize) -> u64
    requires sound { Sound card.now }
    requires class { (c < 64) × NameCells names.now }
{
    let mut m = 0u64;
    for i in 0..byte(card, 4) {
        if of_head(class(names, c), head(names, line_at(card, i))) {
            m |= 1u64 << (i % 64);
        }
    }
    m
}

fn fill_masks(card: &[u8], names: &[u16; 1577], masks: &mut [u64; 64])
    requires sound { Sound card.now }
    requires cells { NameCells names.now }
{
    for c in 0..classes(names) {
        masks[c] = mask(card, names, c);
    }
}

// A row of the same bounds for each of the first n classes.
fn put_row(table: &mut [u8; 66177], i: usize, n: usize, lowest: usize, highest: usize)
    requires { (i ≤ 512) × ((n ≤ 64) × TableCells table.old) }
    ensures { TableCells table.new }
{
    put(table, LEASTS + i, lowest);
    for c in 0..n {
        put(table, i * MOST_CLASSES + c, lowest);
        put(table, HIGHS + (i * MOST_CLASSES + c), highest);
    }
}

// Least numbers fall from the top, greatest ones rise from 0. Of a name of no node nothing is known.
fn start(card: &[u8], names: &[u16; 1577], table: &mut [u8; 66177])
    requires { TableHeld card.now names.now table.old }
    ensures { TableCells table.new }
{
    let n = classes(names);
    put_row(table, NO_NODE, n, 0, MOST);
    for i in 0..node_count(card) {
        put_row(table, i, n, MOST, 0);
    }
}

// Class c at node i, from its parts.
fn fill_class(card: &[u8], names: &[u16; 1577], table: &mut [u8; 66177], i: usize, c: usize)
    requires table_held { TableHeld card.now names.now table.old }
    requires node { Node card.now i × (c < 64) }
    ensures { TableCells table.new }
{
    let l = low_step(card, names, table, i, c);
    put(table, i * MOST_CLASSES + c, l);
    let h = high_step(card, names, table, i, c);
    put(table, HIGHS + (i * MOST_CLASSES + c), h);
}

// Whether node i is the row of its name: its bounds are the name's own.
fn own_row(card: &[u8], names: &[u16; 1577], i: usize) -> bool
    requires sound { Sound card.now }
    requires node { Node card.now i × NameCells names.now }
{
    if let Kind::Atom = kind_at(card, i) {
        row(names, name_at(card, i)) == i
    } else {
        false
    }
}

// The least steps at node i, and every class, unless it is the row of a name.
fn fill_node(card: &[u8], names: &[u16; 1577], table: &mut [u8; 66177], i: usize)
    requires table_held { TableHeld card.now names.now table.old }
    requires node { Node card.now i }
    ensures { TableCells table.new }
{
    if own_row(card, names, i) {
        return;
    }
    let s = least_step(card, names, table, i);
    put(table, LEASTS + i, s);
    for c in 0..classes(names) {
        fill_class(card, names, table, i, c);
    }
}

fn fill_nodes(card: &[u8], names: &[u16; 1577], table: &mut [u8; 66177])
    requires { TableHeld card.now names.now table.old }
    ensures { TableCells table.new }
{
    for i in 0..node_count(card) {
        fill_node(card, names, table, i);
    }
}

// A least number falls to v, or all the way; whether it fell.
fn fall(table: &mut [u8; 66177], at: usize, old: usize, v: usize, wide: bool) -> bool
    requires { (at < 66177) × TableCells table.old }
    ensures { TableCells table.new }
{
    let fell = v < old;
    if fell {
        put(table, at, if wide { 0 } else { v });
    }
    fell
}

// A greatest number rises to v, or all the way; whether it rose.
fn rise(table: &mut [u8; 66177], at: usize, old: usize, v: usize, wide: bool) -> bool
    requires { (at < 66177) × TableCells table.old }
    ensures { TableCells table.new }
{
    let rose = old < v && old != MOST;
    if rose {
        put(table, at, if wide { MOST } else { v });
    }
    rose
}

// The bounds of a name take in so many steps and items of class c; whether they changed.
fn widen_head(
    names: &[u16; 1577],
    table: &mut [u8; 66177],
    name: usize,
    c: usize,
    steps: usize,
    lowest: usize,
    highest: usize,
    wide: bool,
) -> bool
    requires name { (name < 1000) × (c < 64) }
    requires cells { NameCells names.now × TableCells table.old }
    ensures { TableCells table.new }
{
    let r = row(names, name);
    let s = least(table, r);
    let shorter = fall(table, LEASTS + r, s, steps, wide);
    let l = low(table, r, c);
    let fell = fall(table, r * MOST_CLASSES + c, l, lowest, wide);
    let h = high(table, r, c);
    let rose = rise(table, HIGHS + (r * MOST_CLASSES + c), h, highest, wide);
    shorter || fell || rose
}

// The bounds of each head of the clause at node i take in the way to it; whether any changed.
fn widen_ways(
    card: &[u8],
    names: &[u16; 1577],
    table: &mut [u8; 66177],
    i: usize,
    c: usize,
    steps: usize,
    lowest: usize,
    highest: usize,
    wide: bool,
) -> bool
    requires table_held { TableHeld card.now names.now table.old }
    requires node { Node card.now i × (c < 64) }
    requires on_way { OnWay i steps lowest highest }
    ensures { TableCells table.new }
{
    match kind_at(card, i) {
        Kind::Atom => {
            let name = name_at(card, i);
            widen_head(names, table, name, c, steps, lowest, highest, wide)
        }
        Kind::Recipe => {
            let g = left_part(card, i);
            let s = steps + least(table, g);
            let l = lowest + low(table, g, c);
            let h = highest + high(table, g, c);
            widen_ways(card, names, table, right_part(card, i), c, s, l, h, wide)
        }
        Kind::Menu => {
            let d = left_part(card, i);
            let first = widen_ways(card, names, table, d, c, steps + 1, lowest, highest, wide);
            let e = right_part(card, i);
            let second = widen_ways(card, names, table, e, c, steps + 1, lowest, highest, wide);
            first || second
        }
        Kind::Top
        | Kind::One
        | Kind::Tensor
        | Kind::With
        | Kind::Lend
        | Kind::Oplus
        | Kind::Zero
        | Kind::Unknown => false,
    }
}

// The bounds at row r take in so many items of class c; whether they changed.
fn widen_row(
    table: &mut [u8; 66177],
    r: usize,
    c: usize,
    lowest: usize,
    highest: usize,
    wide: bool,
) -> bool
    requires { (r ≤ 512) × ((c < 64) × TableCells table.old) }
    ensures { TableCells table.new }
{
    let l = low(table, r, c);
    let fell = fall(table, r * MOST_CLASSES + c, l, lowest, wide);
    let h = high(table, r, c);
    let rose = rise(table, HIGHS + (r * MOST_CLASSES + c), h, highest, wide);
    fell || rose
}

// The bounds at row r take in the use of the bare name at node i, for every class; whether they changed.
fn widen_name(
    names: &[u16; 1577],
    table: &mut [u8; 66177],
    i: usize,
    linear: bool,
    r: usize,
    wide: bool,
) -> bool
    requires cells { NameCells names.now × TableCells table.old }
    requires rows { (i < 512) × (r ≤ 512) }
    ensures { TableCells table.new }
{
    let s = least(table, r);
    let mut changed = fall(table, LEASTS + r, s, 1, wide);
    for c in 0..classes(names) {
        let w = weight(names, i, linear, c);
        changed |= widen_row(table, r, c, w, w, wide);
    }
    changed
}

// The same of a recipe with the one condition g before the name.
fn widen_recipe(
    names: &[u16; 1577],
    table: &mut [u8; 66177],
    i: usize,
    linear: bool,
    g: usize,
    r: usize,
    wide: bool,
) -> bool
    requires cells { NameCells names.now × TableCells table.old }
    requires rows { (i < 512) × ((g < 512) × (r ≤ 512)) }
    ensures { TableCells table.new }
{
    let s = least(table, r);
    let steps = 1 + least(table, g);
    let mut changed = fall(table, LEASTS + r, s, steps, wide);
    for c in 0..classes(names) {
        let w = weight(names, i, linear, c);
        let l = w + low(table, g, c);
        let h = w + high(table, g, c);
        changed |= widen_row(table, r, c, l, h, wide);
    }
    changed
}

// The bounds of the heads of the clause at node i take in its use, for every class, by the ways to them; whether they changed.
fn widen_by_ways(
    card: &[u8],
    names: &[u16; 1577],
    table: &mut [u8; 66177],
    i: usize,
    linear: bool,
    wide: bool,
) -> bool
    requires table_held { TableHeld card.now names.now table.old }
    requires node { Node card.now i }
    ensures { TableCells table.new }
{
    let mut changed = false;
    for c in 0..classes(names) {
        let w = weight(names, i, linear, c);
        changed |= widen_ways(card, names, table, i, c, 1, w, w, wide);
    }
    changed
}

// The same of the recipe at node i: where its condition stands before a name, by these two.
fn widen_recipe_use(
    card: &[u8],
    names: &[u16; 1577],
    table: &mut [u8; 66177],
    i: usize,
    linear: bool,
    wide: bool,
) -> bool
    requires table_held { TableHeld card.now names.now table.old }
    requires node { Node card.now i × (kind_at card.now i ≡ 7) }
    ensures { TableCells table.new }
{
    let d = right_part(card, i);
    if let Kind::Atom = kind_at(card, d) {
        let g = left_part(card, i);
        let r = row(names, name_at(card, d));
        widen_recipe(names, table, i, linear, g, r, wide)
    } else {
        widen_by_ways(card, names, table, i, linear, wide)
    }
}

// The bounds of the heads of the clause at node i take in its use, for every class; whether they changed.
fn widen(
    card: &[u8],
    names: &[u16; 1577],
    table: &mut [u8; 66177],
    i: usize,
    linear: bool,
    wide: bool,
) -> bool
    requires table_held { TableHeld card.now names.now table.old }
    requires node { Node card.now i }
    ensures { TableCells table.new }
{
    match kind_at(card, i) {
        Kind::Atom => {
            let r = row(names, name_at(card, i));
            widen_name(names, table, i, linear, r, wide)
        }
        Kind::Recipe => widen_recipe_use(card, names, table, i, linear, wide),
        _ => widen_by_ways(card, names, table, i, linear, wide),
    }
}

fn widen_rules(card: &[u8], names: &[u16; 1577], table: &mut [u8; 66177], wide: bool) -> bool
    requires { TableHeld card.now names.now table.old }
    ensures { TableCells table.new }
{
    let mut changed = false;
    for i in 0..byte(card, 3) {
        changed |= widen(card, names, table, rule_at(card, i), false, wide);
    }
    changed
}

fn widen_lines(card: &[u8], names: &[u16; 1577], table: &mut [u8; 66177], wide: bool) -> bool
    requires { TableHeld card.now names.now table.old }
    ensures { TableCells table.new }
{
    let mut changed = false;
    for i in 0..byte(card, 4) {
        changed |= widen(card, names, table, line_at(card, i), true, wide);
    }
    changed
}

// Node i, if it is a lend.
fn widen_lend(
    card: &[u8],
    names: &[u16; 1577],
    table: &mut [u8; 66177],
    i: usize,
    wide: bool,
) -> bool
    requires table_held { TableHeld card.now names.now table.old }
    requires node { Node card.now i }
    ensures { TableCells table.new }
{
    if let Kind::Lend = kind_at(card, i) {
        widen(card, names, table, left_part(card, i), true, wide)
    } else {
        false
    }
}

fn widen_lends(card: &[u8], names: &[u16; 1577], table: &mut [u8; 66177], wide: bool) -> bool
    requires { TableHeld card.now names.now table.old }
    ensures { TableCells table.new }
{
    let mut changed = false;
    for i in 0..node_count(card) {
        changed |= widen_lend(card, names, table, i, wide);
    }
    changed
}

// The bounds of every name take in the uses for it, those of lines first: they need no conditions. Whether any changed.
fn widen_names(card: &[u8], names: &[u16; 1577], table: &mut [u8; 66177], wide: bool) -> bool
    requires { TableHeld card.now names.now table.old }
    ensures { TableCells table.new }
{
    let lines = widen_lines(card, names, table, wide);
    let rules = widen_rules(card, names, table, wide);
    let lends = widen_lends(card, names, table, wide);
    rules || lines || lends
}

// How many turns at most, and after how many what has not come to rest goes all the way.
const TURNS: usize = 80;

const NARROW_TURNS: usize = 40;

// The names from their uses and the nodes from their parts, by turns, until nothing changes.
fn rounds(card: &[u8], names: &[u16; 1577], table: &mut [u8; 66177])
    requires { TableHeld card.now names.now table.old }
    ensures { TableCells table.new }
{
    for turn in 0..TURNS {
        let changed = widen_names(card, names, table, NARROW_TURNS <= turn);
        // in the first turn no node is filled in yet, so that says nothing
        if !changed && 0 < turn {
            return;
        }
        fill_nodes(card, names, table);
    }
}

// The whole table.
pub fn build(card: &[u8], names: &mut [u16; 1577], table: &mut [u8; 66177], masks: &mut [u64; 64])
    requires { TableHeld card.now names.old table.old }
    ensures name_cells { NameCells names.new }
    ensures table_cells { TableCells table.new }
{
    fill_heads(card, names);
    fill_rows(card, names);
    line_classes(card, names);
    lend_classes(card, names);
    fill_masks(card, names, masks);
    start(card, names, table);
    rounds(card, names, table);
}
