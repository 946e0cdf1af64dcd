// Check 6: each node is as its kind asks, and its height is at most 8.
#![tactic(auto)]

ghost use Rattle.std.specs.Prelude.{◌≡◌, true, ◌+◌, ◌*◌, ◌≤◌, length, MatchResult};
ghost use Rattle.card.specs.Format.{node_count};
ghost use Rattle.card.specs.Verdict.{sound, fault, number_of, where_of, told, first_of};
ghost use Rattle.card.specs.Fault.{node_fault, fits_field, well_built, part_height, height_at};
ghost use Rattle.card.specs.Inner.Checks.{Framed, PartBelow};
ghost use Rattle.nodes.specs.Inner.Nodes.{HeightsTabled};

use card::format::{kind, left, right, word};
use card::kinds::Field;
use card::{Fault, Place, Refusal, refuse};
use kinds::{clause_part, goal_part, row};

// The value fits a field of node i that is to hold this.
#[tactic(auto, unfolding(card::specs::Fault::fits_field))]
fn fits_field(card: &[u8], i: usize, field: Field, value: usize) -> bool
    requires { 11 + 5 * i ≤ length card.now }
    ensures { result ≡ fits_field card.now i field value }
{
    match field {
        Field::Unused => value == 0,
        Field::Name => value <= 999,
        Field::GoalPart => goal_part(card, i, value),
        Field::ClausePart => clause_part(card, i, value),
        Field::Unknown => false,
    }
}

// Node i is as its kind asks.
#[tactic(auto, unfolding(card::specs::Fault::well_built))]
fn well_built(card: &[u8], i: usize) -> bool
    requires { 16 + 5 * i ≤ length card.now }
    ensures { result ≡ well_built card.now i }
{
    let asked = row(kind(card, i));
    fits_field(card, i, asked.left, left(card, i))
        && fits_field(card, i, asked.right, right(card, i))
}

// The height of the part in a field; 0 where the field holds none.
#[tactic(auto, unfolding(card::specs::Fault::part_height, card::specs::Inner::Checks::PartBelow))]
fn part_height(field: Field, value: usize, heights: &[u8; 512]) -> u8
    requires { PartBelow 512 field value }
    ensures { result ≡ part_height heights.now field value }
{
    match field {
        Field::GoalPart | Field::ClausePart => heights[value],
        Field::Unused | Field::Name | Field::Unknown => 0,
    }
}

// The height of a well built node, from the heights of those before it.
pub fn height(card: &[u8], i: usize, heights: &[u8; 512]) -> usize
    requires heights_tabled { HeightsTabled card.now i heights.now }
    requires built { well_built card.now i ≡ true }
    ensures { result ≡ height_at card.now i }
{
    let asked = row(kind(card, i));
    let l = part_height(asked.left, left(card, i), heights);
    let r = part_height(asked.right, right(card, i), heights);
    l.max(r) as usize + 1
}

// Node i by itself: its height, or that 6 applies.
fn node_check(card: &[u8], i: usize, heights: &[u8; 512]) -> Result<u8, Refusal>
    requires { HeightsTabled card.now i heights.now }
    ensures { MatchResult result (λ h. (node_fault card.now i ≡ sound) × (h ≡ height_at card.now i))
        (λ r. node_fault card.now i ≡ fault (number_of r.fault) (where_of r.place)) }
{
    let place = Place::Node(i as u16);
    refuse(!well_built(card, i), Fault::Node, place)?;
    let h = height(card, i, heights);
    refuse(8 < h, Fault::Node, place)?;
    Ok(h as u8)
}

// 6, by rising index. Each node is looked at once, however often it is shared.
pub fn nodes_check(card: &[u8]) -> Result<(), Refusal>
    requires { Framed card.now }
    ensures { told result ≡ first_of (node_count card.now) (node_fault card.now) }
{
    let mut heights = [0u8; 512];
    for i in 0..word(card, 5) {
        heights[i] = node_check(card, i, &heights)?;
    }
    Ok(())
}
