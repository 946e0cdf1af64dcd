// The table of kinds (01, "The card"; 02, #103), and which parts read as a goal and as a clause by it.
#![tactic(auto)]

ghost use Rattle.std.specs.Prelude.{◌≡◌, ◌+◌, ◌*◌, ◌≤◌, length};
ghost use Rattle.card.specs.Kinds.{kind_of};
ghost use Rattle.card.specs.Fault.{is_goal, is_clause, goal_part, clause_part};

use card::format::kind;
use card::kinds::{Field, Kind};

// A row of the table: what the two fields hold, and whether the node reads as a goal and as a clause.
#[derive(Clone, Copy)]
pub struct KindRow {
    pub left: Field,
    pub right: Field,
    pub goal: bool,
    pub clause: bool,
}

// The table: the row of kind k.
pub fn row(k: usize) -> KindRow
    ensures { (result.left ≡ (kind_of k).left) × (result.right ≡ (kind_of k).right)
        × (result.goal ≡ is_goal k) × (result.clause ≡ is_clause k) }
{
    let (left, right, goal, clause) = match Kind::from(k) {
        Kind::Atom => (Field::Name, Field::Unused, true, true),
        Kind::Top => (Field::Unused, Field::Unused, true, true),
        Kind::One => (Field::Unused, Field::Unused, true, false),
        Kind::Tensor => (Field::GoalPart, Field::GoalPart, true, false),
        Kind::With => (Field::GoalPart, Field::GoalPart, true, false),
        Kind::Lend => (Field::ClausePart, Field::GoalPart, true, false),
        Kind::Recipe => (Field::GoalPart, Field::ClausePart, false, true),
        Kind::Oplus => (Field::GoalPart, Field::GoalPart, true, false),
        Kind::Zero => (Field::Unused, Field::Unused, true, false),
        Kind::Menu => (Field::ClausePart, Field::ClausePart, false, true),
        Kind::Unknown => (Field::Unknown, Field::Unknown, false, false),
    };
    KindRow {
        left,
        right,
        goal,
        clause,
    }
}

// The part is below i and reads as a goal.
#[tactic(auto, unfolding(card::specs::Fault::goal_part))]
pub fn goal_part(card: &[u8], i: usize, part: usize) -> bool
    requires { 11 + 5 * i ≤ length card.now }
    ensures { result ≡ goal_part card.now i part }
{
    part < i && row(kind(card, part)).goal
}

// The part is below i and reads as a clause.
#[tactic(auto, unfolding(card::specs::Fault::clause_part))]
pub fn clause_part(card: &[u8], i: usize, part: usize) -> bool
    requires { 11 + 5 * i ≤ length card.now }
    ensures { result ≡ clause_part card.now i part }
{
    part < i && row(kind(card, part)).clause
}
