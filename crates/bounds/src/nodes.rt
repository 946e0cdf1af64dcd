// The nodes of a sound card.
ghost use Rattle.std.specs.Prelude.{◌≡◌, ◌<◌, ◌≤◌};
ghost use Rattle.card.specs.Format.{node_count, rule_count, line_count, kind_at, left_at, right_at, rule_node, line_node};
ghost use Rattle.card.specs.Kinds.{Numbered};
ghost use Rattle.card.specs.Fault.{Sound};
ghost use Rattle.bounds.specs.Inner.Table.{Node};

use card::format::{left, line_node, right, rule_node, word};
use card::kinds::{Kind, kind_of};

pub fn node_count(card: &[u8]) -> usize
    requires { Sound card.now }
    ensures { (result ≡ node_count card.now) × (result ≤ 512) }
{
    word(card, 5)
}

pub fn kind_at(card: &[u8], i: usize) -> Kind
    requires sound { Sound card.now }
    requires node { Node card.now i }
    ensures { Numbered result (kind_at card.now i) }
{
    kind_of(card, i)
}

// The name of a node that is one.
pub fn name_at(card: &[u8], i: usize) -> usize
    requires sound { Sound card.now }
    requires node { Node card.now i }
    requires atom { kind_at card.now i ≡ 1 }
    ensures { (result ≡ left_at card.now i) × (result < 1000) }
{
    left(card, i)
}

// The parts of a node that has them.
pub fn left_part(card: &[u8], i: usize) -> usize
    requires sound { Sound card.now }
    requires node { Node card.now i }
    requires parts { (3 < kind_at card.now i) × (kind_at card.now i ≡ 9 → ⊥) }
    ensures { (result ≡ left_at card.now i) × Node card.now result }
{
    left(card, i)
}

pub fn right_part(card: &[u8], i: usize) -> usize
    requires sound { Sound card.now }
    requires node { Node card.now i }
    requires parts { (3 < kind_at card.now i) × (kind_at card.now i ≡ 9 → ⊥) }
    ensures { (result ≡ right_at card.now i) × Node card.now result }
{
    right(card, i)
}

pub fn rule_at(card: &[u8], i: usize) -> usize
    requires sound { Sound card.now }
    requires i_bound { i < rule_count card.now }
    ensures { (result ≡ rule_node card.now i) × Node card.now result }
{
    rule_node(card, i)
}

pub fn line_at(card: &[u8], i: usize) -> usize
    requires sound { Sound card.now }
    requires i_bound { i < line_count card.now }
    ensures { (result ≡ line_node card.now i) × Node card.now result }
{
    line_node(card, i)
}
