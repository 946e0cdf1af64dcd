// 15 (02, #101): whether two cards fit on one.
#![tactic(auto)]

ghost use Rattle.std.specs.Prelude.{◌≡◌, ◌≤◌};
ghost use Rattle.card.specs.Format.{goal_node};
ghost use Rattle.card.specs.Verdict.{told, refuse, card as cardAt};
ghost use Rattle.card.specs.Fault.{height_at};
ghost use Rattle.joined.specs.Joined.{overfull};

use card::sound::Card;
use card::{Fault, Place, Refusal, refuse};
use nodes::height;

// The height of the card's goal. Each node is looked at once, however often it is shared.
fn goal_height(card: &Card<'_>) -> usize
    ensures { (result ≡ height_at card.now (goal_node card.now)) × (result ≤ 8) }
{
    let bytes = card.bytes();
    let goal = card.goal();
    let mut heights = [0u8; 512];
    for i in 0..goal {
        heights[i] = height(bytes, i, &heights) as u8;
    }
    height(bytes, goal, &heights)
}

// The joined P, T or N passes its limit, or the new goal is higher than 8.
#[tactic(auto, unfolding(joined::specs::Joined::overfull, joined::specs::Joined::joined_height))]
fn is_overfull(first: &Card<'_>, second: &Card<'_>) -> bool
    ensures { result ≡ overfull first.now second.now }
{
    let rules = first.rules() + second.rules();
    let lines = first.lines() + second.lines();
    let nodes = first.nodes() + second.nodes() + 1;
    let goal = goal_height(first).max(goal_height(second)) + 1;
    64 < rules || 64 < lines || 512 < nodes || 8 < goal
}

// 15.
pub fn limits_check(first: &Card<'_>, second: &Card<'_>) -> Result<(), Refusal>
    ensures { told result ≡ refuse (overfull first.now second.now) 15 cardAt }
{
    refuse(is_overfull(first, second), Fault::Overfull, Place::Card)
}
