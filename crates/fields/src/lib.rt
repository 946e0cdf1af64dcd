// What the joined card says that neither card does (02, #101): its length, its limits and its new goal.
#![tactic(auto)]

ghost use Rattle.std.specs.Prelude.{◌≡◌, ◌+◌, ◌≤◌, ◌<◌, length};
ghost use Rattle.joined.specs.Joined.{joined_length, joined_depth, joined_steps, both_goals};
ghost use Rattle.joined.specs.Inner.Written.{Written};

use card::format::word;
use card::sound::Card;
use moved::put_node;

// 11 + 5N + 2P + 3T of the joined card.
pub fn joined_length(first: &Card<'_>, second: &Card<'_>) -> usize
    ensures { (result ≡ joined_length first.now second.now) × (result < 65536) }
{
    let nodes = first.nodes() + second.nodes() + 1;
    let rules = first.rules() + second.rules();
    let lines = first.lines() + second.lines();
    11 + 5 * nodes + 2 * rules + 3 * lines
}

// d: the greater.
pub fn depth(first: &Card<'_>, second: &Card<'_>) -> u8
    ensures { result ≡ joined_depth first.now second.now }
{
    first.depth().max(second.depth()) as u8
}

// s: the sum, or 255 if lower.
pub fn steps(first: &Card<'_>, second: &Card<'_>) -> u8
    ensures { result ≡ joined_steps first.now second.now }
{
    (first.steps() as u8).saturating_add(second.steps() as u8)
}

// The new last node: both of the first's goal and the second's, shifted.
pub fn put_both(first: &Card<'_>, second: &Card<'_>, out: &mut [u8], at: usize)
    requires room { at + 5 ≤ length out.old }
    ensures { Written out.old out.new at
        (both_goals first.now second.now) }
{
    let a = first.goal();
    let b = first.nodes() + word(second.bytes(), 7);
    put_node(4, a, b, out, at);
}
