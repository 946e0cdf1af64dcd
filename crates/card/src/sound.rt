// A sound card: its bytes, in which none of the checks 1 to 9 finds a fault.
use crate::format::{byte, left, line_byte, line_node, right, rule_node, word};
use crate::kinds::{Kind, kind_of};
use std::marker::Model;

// What makes one has to know that the card is sound; in a clause it is its bytes.
#[derive(Drop)]
pub struct Card<'a> {
    bytes: &'a [u8],
}

impl<'a> Model for Card<'a> {
    ghost use Rattle.std.specs.Prelude.{List, ℕ};
    ghost use Rattle.card.specs.Fault.{Sound};

    ghost Value = { List ℕ };

    ghost view = { λ c. c.bytes.now };

    ghost invariant = { λ c. Sound c.bytes.now };
}

impl<'a> Card<'a> {
    ghost use Rattle.std.specs.Prelude.{◌≡◌, true, ◌<◌, ◌≤◌, nat_eq};
    ghost use Rattle.card.specs.Format.{node_count, rule_count, line_count, goal_node, depth_limit, step_limit, kind_at, left_at, right_at};
    ghost use Rattle.card.specs.Format.{rule_node, line_node, line_byte};
    ghost use Rattle.card.specs.Kinds.{Numbered};
    ghost use Rattle.card.specs.Fault.{Sound, goal_part, clause_part};

    // The bytes of a card that is known to be sound.
    pub fn new(bytes: &'a [u8]) -> Card<'a>
        requires { Sound bytes.now }
        ensures { result ≡ bytes.now }
    {
        Card { bytes }
    }

    pub fn bytes(&self) -> &'a [u8]
        ensures value { result.now ≡ self.now }
        ensures sound { Sound self.now }
    {
        self.bytes
    }

    // P.
    pub fn rules(&self) -> usize
        ensures { (result ≡ rule_count self.now) × (result ≤ 64) }
    {
        byte(self.bytes, 3)
    }

    // T.
    pub fn lines(&self) -> usize
        ensures { (result ≡ line_count self.now) × (result ≤ 64) }
    {
        byte(self.bytes, 4)
    }

    // N.
    pub fn nodes(&self) -> usize
        ensures { (result ≡ node_count self.now) × (result ≤ 512) }
    {
        word(self.bytes, 5)
    }

    // The goal's node.
    pub fn goal(&self) -> usize
        ensures value { result ≡ goal_node self.now }
        ensures part { (result < node_count self.now) × (goal_part self.now (node_count self.now) result ≡ true) }
    {
        word(self.bytes, 7)
    }

    // d.
    pub fn depth(&self) -> usize
        ensures { (result ≡ depth_limit self.now) × (result ≤ 16) }
    {
        byte(self.bytes, 9)
    }

    // s.
    pub fn steps(&self) -> usize
        ensures { (result ≡ step_limit self.now) × (result < 256) }
    {
        byte(self.bytes, 10)
    }

    // The kind of node i.
    pub fn kind(&self, i: usize) -> Kind
        requires { i < node_count self.now }
        ensures { Numbered result (kind_at self.now i) }
    {
        kind_of(self.bytes, i)
    }

    // The fields of node i.
    pub fn left(&self, i: usize) -> usize
        requires { i < node_count self.now }
        ensures { (result ≡ left_at self.now i) × (result < 65536) }
    {
        left(self.bytes, i)
    }

    pub fn right(&self, i: usize) -> usize
        requires { i < node_count self.now }
        ensures { (result ≡ right_at self.now i) × (result < 65536) }
    {
        right(self.bytes, i)
    }

    // The node of rule i.
    pub fn rule(&self, i: usize) -> usize
        requires { i < rule_count self.now }
        ensures value { result ≡ rule_node self.now i }
        ensures part { (result < node_count self.now) × (clause_part self.now (node_count self.now) result ≡ true) }
    {
        rule_node(self.bytes, i)
    }

    // The node of line i.
    pub fn line(&self, i: usize) -> usize
        requires { i < line_count self.now }
        ensures value { result ≡ line_node self.now i }
        ensures part { (result < node_count self.now) × (clause_part self.now (node_count self.now) result ≡ true) }
    {
        line_node(self.bytes, i)
    }

    // Whether line i is a must line.
    pub fn is_must(&self, i: usize) -> bool
        requires { i < line_count self.now }
        ensures { result ≡ nat_eq (line_byte self.now i) 1 }
    {
        line_byte(self.bytes, i) == 1
    }
}
