// The engine's moves, each by itself: the floor behind a list, the sides of a choice, the agenda of a part, the item of a lent clause, the
// branch at the start.
#![tactic(auto)]

ghost use Rattle.std.specs.Prelude.{◌≡◌, true, ℕ, ◌+◌, ◌-◌, ◌*◌, ◌≤◌, ◌<◌, length, get_or, set};
ghost use Rattle.card.specs.Format.{node_count, rule_count, kind_at, left_at, right_at, byte_at};
ghost use Rattle.card.specs.Fault.{Sound, clause_part};
ghost use Rattle.branch.specs.Inner.Values.{Counted};
ghost use Rattle.segment.specs.Inner.Tasks.{nest_of};
ghost use Rattle.moves.specs.Inner.Moves.{raised_f, side_at, shut_by, start_b};

use branch::{Branch, Floor};
use card::format::{byte, left, right};
use lines::{LineSet, LineWord};
use segment::tasks::{nest, put};

// The floor behind the first `at` steps of the tape, the last of which is to be passed.
pub fn raise(tape: &[u8], at: usize) -> Floor
    requires { (1 ≤ at) × ((at ≤ 255) × (length tape.now ≡ 255)) }
    ensures value { result ≡ raised_f tape.now at }
    ensures by_index { (i : ℕ) → byte_at tape.now i < 256 }
{
    Floor {
        fixed: at - 1,
        from: byte(tape, at - 1) + 1,
    }
}

// The nesting left to the conditions of an entry that is used for the name at the given place: one less.
pub fn inner(agenda: &[u16; 104], top: usize) -> usize
    requires top_bound { top < 104 }
    requires bound { 1 ≤ nest_of (get_or agenda.now top 0) }
    ensures { result ≡ nest_of (get_or agenda.now top 0) - 1 }
{
    nest(agenda, top) - 1
}

// The side that a choice takes.
#[tactic(auto, unfolding(crate::specs::Inner::Moves::side_at))]
pub fn side(card: &[u8], node: usize, choice: usize) -> usize
    requires { 16 + 5 * node ≤ length card.now }
    ensures { result ≡ side_at card.now node choice }
{
    if choice == 254 {
        left(card, node)
    } else {
        right(card, node)
    }
}

// Whether it is shut: of a menu, a side whose heads are not the name wanted.
#[tactic(auto, unfolding(crate::specs::Inner::Moves::shut_by))]
pub fn shut(card: &[u8], meets: bool, name: usize, part: usize) -> bool
    requires sound { Sound card.now }
    requires part_value { meets ≡ true → clause_part card.now (node_count card.now) part ≡ true }
    ensures { result ≡ shut_by card.now meets name part }
{
    meets && !scope::usable(card, part, name)
}

// The left part of the goal at the node as the only task.
pub fn left_alone(card: &[u8], agenda: &mut [u16; 104], goal: usize, nest: usize)
    requires sound { Sound card.now }
    requires goal_bound { (goal < node_count card.now) × ((3 < kind_at card.now goal) × (kind_at card.now goal < 9)) }
    requires nest_bound { nest < 32 }
    ensures { agenda.new ≡ set agenda.old 0 (left_at card.now goal * 32 + nest) }
{
    put(agenda, 0, left(card, goal), nest);
}

// Its right part.
pub fn right_alone(card: &[u8], agenda: &mut [u16; 104], goal: usize, nest: usize)
    requires sound { Sound card.now }
    requires goal_bound { (goal < node_count card.now) × ((3 < kind_at card.now goal) × (kind_at card.now goal < 9)) }
    requires nest_bound { nest < 32 }
    ensures { agenda.new ≡ set agenda.old 0 (right_at card.now goal * 32 + nest) }
{
    put(agenda, 0, right(card, goal), nest);
}

// The item that a clause is which is lent where so many entries are in scope.
pub fn lent_item(card: &[u8], count: usize) -> usize
    requires { Sound card.now × (rule_count card.now ≤ count) }
    ensures { result ≡ count - rule_count card.now }
{
    count - byte(card, 3)
}

// The branch at the card's goal.
pub fn start(card: &[u8]) -> Branch
    requires { Sound card.now }
    ensures value { result ≡ start_b card.now }
    ensures counted { Counted result }
    ensures short { result.limit ≤ 255 }
{
    let lines = byte(card, 4);
    let strict = scope::strict_lines(card);
    let lax = LineSet::full(lines).cut(strict);
    Branch {
        at: 0,
        count: byte(card, 3) + lines,
        len: 1,
        limit: byte(card, 10),
        due: strict.count(),
        strict,
        lax,
        used: LineSet::empty(),
        seen: LineWord::empty(),
        slack: false,
    }
}
