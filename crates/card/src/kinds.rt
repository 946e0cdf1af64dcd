// The kinds of a node, and what their fields hold (01, "The card", the table of kinds; 02, #103).
ghost use Rattle.std.specs.Prelude.{◌+◌, ◌*◌, ◌≤◌, length};
ghost use Rattle.card.specs.Format.{kind_at};
ghost use Rattle.card.specs.Kinds.{Numbered};

use crate::format::kind;

// A kind, by its logic; of lend, recipe and menu by its trade word, since ⊸ and & stand for goals and for clauses.
#[derive(Clone, Copy, Debug, PartialEq, Eq)]
pub enum Kind {
    // 1, name.
    Atom,
    // 2, rest.
    Top,
    // 3, done.
    One,
    // 4, both.
    Tensor,
    // 5, either way.
    With,
    // 6, lend: D ⊸ G.
    Lend,
    // 7, recipe: G ⊸ D.
    Recipe,
    // 8, one of.
    Oplus,
    // 9, never.
    Zero,
    // 10, menu: D & E.
    Menu,
    // Not in the table.
    Unknown,
}

impl From<usize> for Kind {
    ghost from_gives = { λ k kind. Numbered kind k };

    fn from(k: usize) -> Kind {
        match k {
            1 => Kind::Atom,
            2 => Kind::Top,
            3 => Kind::One,
            4 => Kind::Tensor,
            5 => Kind::With,
            6 => Kind::Lend,
            7 => Kind::Recipe,
            8 => Kind::Oplus,
            9 => Kind::Zero,
            10 => Kind::Menu,
            _ => Kind::Unknown,
        }
    }
}

// The kind of node i.
pub fn kind_of(card: &[u8], i: usize) -> Kind
    requires { 16 + 5 * i ≤ length card.now }
    ensures { Numbered result (kind_at card.now i) }
{
    Kind::from(kind(card, i))
}

// What a field of a node holds.
#[derive(Clone, Copy, Debug, PartialEq, Eq)]
pub enum Field {
    // Nothing, so it is 0.
    Unused,
    // A name of at most 999.
    Name,
    // A part that reads as a goal.
    GoalPart,
    // A part that reads as a clause.
    ClausePart,
    // Its node's kind is not in the table: nothing fits.
    Unknown,
}
