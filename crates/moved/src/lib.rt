// A card's nodes, rules and lines in another buffer, their node numbers shifted (02, #101).
#![tactic(auto)]

ghost use Rattle.std.specs.Prelude.{◌≡◌, [], ◌∷◌, ◌++◌, ◌+◌, ◌*◌, ◌≤◌, ◌<◌, length};
ghost use Rattle.card.specs.Format.{node_count, rule_count, line_count};
ghost use Rattle.card.specs.Sheet.{word as word_bytes};
ghost use Rattle.joined.specs.Joined.{shifted, node_bytes, moved_node, moved_nodes, moved_rules, moved_lines};
ghost use Rattle.joined.specs.Inner.Written.{Written};

use card::format::{kind, line_byte, line_node, rule_node};
use card::kinds::Field;
use card::sound::Card;
use kinds::row;

// A number of two bytes.
pub fn put_word(value: usize, out: &mut [u8], at: usize)
    requires value_bound { value < 65536 }
    requires room { at + 2 ≤ length out.old }
    ensures { Written out.old out.new at (word_bytes value) }
{
    out[at..at + 2].copy_from_slice(&(value as u16).to_be_bytes());
}

// The value of a field of this reading: a part moves by n, a name and an unused field stay.
#[tactic(auto, unfolding(joined::specs::Joined::shifted))]
fn shift(n: usize, field: Field, value: usize) -> usize
    requires n_bound { n ≤ 512 }
    requires value_bound { value < 65536 }
    ensures { result ≡ shifted n field value }
{
    match field {
        Field::GoalPart | Field::ClausePart => n + value,
        Field::Unused | Field::Name | Field::Unknown => value,
    }
}

// A node of 5 bytes.
pub fn put_node(kind: u8, left: usize, right: usize, out: &mut [u8], at: usize)
    requires left_bound { left < 65536 }
    requires right_bound { right < 65536 }
    requires room { at + 5 ≤ length out.old }
    ensures { Written out.old out.new at (node_bytes kind left right) }
{
    out[at] = kind;
    put_word(left, out, at + 1);
    put_word(right, out, at + 3);
}

// Node i, its parts shifted by n.
fn put_moved(card: &Card<'_>, n: usize, i: usize, out: &mut [u8], at: usize)
    requires n_bound { n ≤ 512 }
    requires i_bound { i < node_count card.now }
    requires room { at + 5 ≤ length out.old }
    ensures { Written out.old out.new at (moved_node n card.now i) }
{
    let k = kind(card.bytes(), i);
    let asked = row(k);
    let a = shift(n, asked.left, card.left(i));
    let b = shift(n, asked.right, card.right(i));
    put_node(k as u8, a, b, out, at);
}

// All nodes, their parts shifted by n.
pub fn put_nodes(card: &Card<'_>, n: usize, out: &mut [u8], at: usize)
    requires n_bound { n ≤ 512 }
    requires room { at + 5 * node_count card.now ≤ length out.old }
    ensures { Written out.old out.new at (moved_nodes n card.now) }
{
    for i in 0..card.nodes() {
        put_moved(card, n, i, out, at + 5 * i);
    }
}

// All rules, their nodes shifted by n.
pub fn put_rules(card: &Card<'_>, n: usize, out: &mut [u8], at: usize)
    requires n_bound { n ≤ 512 }
    requires room { at + 2 * rule_count card.now ≤ length out.old }
    ensures { Written out.old out.new at (moved_rules n card.now) }
{
    let bytes = card.bytes();
    for i in 0..card.rules() {
        put_word(n + rule_node(bytes, i), out, at + 2 * i);
    }
}

// A line of 3 bytes.
fn put_line(node: usize, must: u8, out: &mut [u8], at: usize)
    requires node_bound { node < 65536 }
    requires room { at + 3 ≤ length out.old }
    ensures { Written out.old out.new at (word_bytes node ++ (must ∷ [])) }
{
    put_word(node, out, at);
    out[at + 2] = must;
}

// All lines, their nodes shifted by n.
pub fn put_lines(card: &Card<'_>, n: usize, out: &mut [u8], at: usize)
    requires n_bound { n ≤ 512 }
    requires room { at + 3 * line_count card.now ≤ length out.old }
    ensures { Written out.old out.new at (moved_lines n card.now) }
{
    let bytes = card.bytes();
    for i in 0..card.lines() {
        let must = line_byte(bytes, i) as u8;
        put_line(n + line_node(bytes, i), must, out, at + 3 * i);
    }
}
