// What the table says of an agenda.
ghost use Rattle.std.specs.Prelude.{◌≡◌, true, ◌&&◌, ℕ, ◌+◌, ◌-◌, ◌*◌, ◌<◌, ◌≤◌, length};
ghost use Rattle.card.specs.Format.{rule_count, line_count};
ghost use Rattle.card.specs.Fault.{Sound};
ghost use Rattle.lines.specs.Set.{member, join_s};
ghost use Rattle.bounds.specs.Inner.Table.{NameCells, in_class};
ghost use Rattle.bounds.specs.Inner.Doom.{Filed, Rowed, Asked, Stores, task_sum, least_sum, low_sum, high_sum, line_stock, lent_stock, stock, Unbalanced};

use crate::table::{class, classes, head, high, least, low, of_head};
use card::format::byte;
use lines::{LineSet, LineWord};

// A bound by row, of the first len tasks together.
fn task_sum<F: Fn(usize) -> usize>(agenda: &[u16; 104], len: usize, bound: F) -> usize
    requires tasks { (len ≤ 104) × Rowed agenda.now len }
    requires callable { (row : ℕ) → row ≤ 512 → F.pre bound row }
    requires small { (row r : ℕ) → row ≤ 512 → F.post bound row r → r < 256 }
    ensures total { (value : ℕ → ℕ) → ((row r : ℕ) → row ≤ 512 → F.post bound row r → r ≡ value row)
        → result ≡ task_sum value agenda.now len }
    ensures at_most { result ≤ 255 * len }
{
    let mut sum = 0;
    for task in &agenda[..len] {
        sum += bound(*task as usize / 32);
    }
    sum
}

// The least steps of the first len tasks together.
pub fn least_sum(table: &[u8], agenda: &[u16; 104], len: usize) -> usize
    requires { Asked table.now agenda.now len }
    ensures { (result ≡ least_sum table.now agenda.now len) × (result ≤ 255 * len) }
{
    task_sum(agenda, len, |row| least(table, row))
}

// The lines of class c in the set.
fn line_stock(masks: &[u64], s: LineSet, c: usize) -> usize
    requires { (c < 64) × (length masks.now ≡ 64) }
    ensures { (result ≡ line_stock masks.now s c) × (result ≤ 64) }
{
    let all = s.lines();
    let bits = masks[c];
    all.meet(LineWord { bits }).count()
}

// Whether the item is in the set, and the clause at the node of class c.
fn held(names: &[u16], s: LineSet, item: usize, node: usize, c: usize) -> bool
    requires { (node < 512) × ((c < 64) × NameCells names.now) }
    ensures { result ≡ (member s item && in_class names.now node c) }
{
    s.has(item) && of_head(class(names, c), head(names, node))
}

// The first n lent clauses that are of class c and in the set.
fn lent_stock(
    names: &[u16],
    nodes: &[u16; 256],
    s: LineSet,
    lines: usize,
    first: usize,
    n: usize,
    c: usize,
) -> usize
    requires room { (lines ≤ 64) × ((first + n ≤ 256) × (c < 64)) }
    requires stores { NameCells names.now × Filed nodes.now (first + n) }
    ensures { (result ≡ lent_stock names.now nodes.now s lines first c n) × (result ≤ n) }
{
    let mut sum = 0;
    for k in 0..n {
        if held(names, s, lines + k, nodes[first + k] as usize, c) {
            sum += 1;
        }
    }
    sum
}

// The items of class c in the set.
fn in_stock(
    card: &[u8],
    names: &[u16],
    masks: &[u64],
    nodes: &[u16; 256],
    count: usize,
    s: LineSet,
    c: usize,
) -> usize
    requires sound { Sound card.now }
    requires counted { (rule_count card.now + line_count card.now ≤ count) × ((count ≤ 256) × (c < 64)) }
    requires stores { Stores names.now masks.now nodes.now count }
    ensures { result ≡ stock card.now names.now masks.now
        nodes.now count s c }
{
    let t = byte(card, 4);
    let first = byte(card, 3) + t;
    line_stock(masks, s, c) + lent_stock(names, nodes, s, t, first, count - first, c)
}

// Whether fewer items of class c are at hand than the agenda takes.
fn too_few(
    card: &[u8],
    names: &[u16],
    table: &[u8],
    masks: &[u64],
    nodes: &[u16; 256],
    agenda: &[u16; 104],
    len: usize,
    count: usize,
    strict: LineSet,
    lax: LineSet,
    c: usize,
) -> bool
    requires sound { Sound card.now }
    requires counted { (rule_count card.now + line_count card.now ≤ count) × ((count ≤ 256) × (c < 64)) }
    requires stores { Stores names.now masks.now nodes.now count × Asked table.now agenda.now len }
    ensures { result ≡ true → (let bs = card.now in
        stock bs names.now masks.now nodes.now count (join_s strict lax) c
        < low_sum table.now agenda.now c len) }
{
    let lowest = task_sum(agenda, len, |row| low(table, row, c));
    lowest != 0 && in_stock(card, names, masks, nodes, count, strict.join(lax), c) < lowest
}

// Whether more items of class c are strict than the agenda can take.
fn too_many(
    card: &[u8],
    names: &[u16],
    table: &[u8],
    masks: &[u64],
    nodes: &[u16; 256],
    agenda: &[u16; 104],
    len: usize,
    count: usize,
    strict: LineSet,
    c: usize,
) -> bool
    requires sound { Sound card.now }
    requires counted { (rule_count card.now + line_count card.now ≤ count) × ((count ≤ 256) × (c < 64)) }
    requires stores { Stores names.now masks.now nodes.now count × Asked table.now agenda.now len }
    ensures { result ≡ true → (let bs = card.now in let h = high_sum table.now
        agenda.now c len in
        (h < 255) × (h < stock bs names.now masks.now nodes.now count strict c)) }
{
    let items = in_stock(card, names, masks, nodes, count, strict, c);
    if items == 0 {
        return false;
    }
    let highest = task_sum(agenda, len, |row| high(table, row, c));
    highest < 255 && highest < items
}

// Whether some class has too few or too many items.
pub fn unbalanced(
    card: &[u8],
    names: &[u16],
    table: &[u8],
    masks: &[u64],
    nodes: &[u16; 256],
    agenda: &[u16; 104],
    len: usize,
    count: usize,
    strict: LineSet,
    lax: LineSet,
) -> bool
    requires sound { Sound card.now }
    requires counted { (rule_count card.now + line_count card.now ≤ count) × (count ≤ 256) }
    requires stores { Stores names.now masks.now nodes.now count × Asked table.now agenda.now len }
    ensures { result ≡ true → (let bs = card.now in Unbalanced bs names.now table.now
        masks.now nodes.now agenda.now len count strict lax) }
{
    (0..classes(names)).any(|c| {
        too_few(
            card, names, table, masks, nodes, agenda, len, count, strict, lax, c,
        ) || too_many(
            card, names, table, masks, nodes, agenda, len, count, strict, c,
        )
    })
}
