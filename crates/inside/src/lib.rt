// A part with a scope or window of its own: how it is entered, and what is found in it seen from outside.
#![tactic(auto)]

ghost use Rattle.std.specs.Prelude.{◌≡◌, ◌≤◌};
ghost use Rattle.card.specs.Format.{rule_count};
ghost use Rattle.card.specs.Fault.{Sound};
ghost use Rattle.inside.specs.Inner.Inside.{Opening, InsideOpened, outside_w};

use branch::{Branch, Way};
use card::format::left;
use moves::{lent_item, right_alone};

// D ⊸ G: D joins the scope and is strict, G is the only task.
pub fn open(
    card: &[u8],
    nodes: &mut [u16; 256],
    heads: &mut [u16; 256],
    agenda: &mut [u16; 104],
    goal: usize,
    n: usize,
    b: Branch,
) -> Branch
    requires { Opening card.now nodes.old heads.old goal n b }
    ensures { InsideOpened card.now nodes.old nodes.new heads.old
        heads.new agenda.old agenda.new goal n b result }
{
    let count = b.count;
    entries::put(card, nodes, heads, count, left(card, goal));
    right_alone(card, agenda, goal, n);
    let item = lent_item(card, count);
    b.lent(item)
}

// The way found inside, as it is outside.
#[tactic(auto, unfolding(crate::specs::Inner::Inside::outside_w))]
pub fn close(card: &[u8], way: &mut Way, goal: usize, count: usize)
    requires sound { Sound card.now }
    requires scoped { rule_count card.now ≤ count }
    ensures { way.new ≡ outside_w card.now goal count way.old }
{
    let item = lent_item(card, count);
    *way = way.without(item);
}
