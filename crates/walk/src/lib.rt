// One pass along a given list (02, #102 and #103). It goes by clauses and does not mind items: it ends, or stops at its first wrong step; on
// the way it gathers the list's summary and whether the items divided, and never breaks off because they did not.
#![tactic(auto)]

ghost use Rattle.std.specs.Prelude.{◌≡◌, ◌+◌, ◌*◌, ◌≤◌};
ghost use Rattle.card.specs.Format.{kind_at};
ghost use Rattle.card.specs.Fault.{Sound};
ghost use Rattle.lines.specs.Set.{member};
ghost use Rattle.lines.specs.Count.{bit};
ghost use Rattle.scope.specs.Inner.Sets.{strict_of};
ghost use Rattle.summary.specs.Inner.Walks.{WalkReady, GoalWalkReady, ClauseReady, StepUsable, GoalWalks, ClauseWalks, UseWalks};

use card::Refusal;
use card::format::{byte, kind, left, line_byte, right};
use card::kinds::{Kind, kind_of};
use scope::{Tables, usable};
use summary::{Position, Summary, next_side, next_step};

// A goal.
#[cycle(walk_list)]
pub fn walk(
    card: &[u8],
    steps: &[u8],
    tables: &mut Tables,
    b: Position,
    node: usize,
) -> Result<Summary, Refusal>
    requires walk_ready { WalkReady card.now steps.now tables.old b }
    requires goal_walk_ready { GoalWalkReady card.now b node }
    ensures { GoalWalks card.now steps.now tables.old tables.new b node result }
{
    match kind_of(card, node) {
        Kind::Atom => walk_atom(card, steps, tables, b, node),
        Kind::Top => Ok(b.ended(true, true)),
        Kind::One => Ok(b.ended(false, true)),
        Kind::Tensor => walk_tensor(card, steps, tables, b, node),
        Kind::With => walk_with(card, steps, tables, b, node),
        Kind::Lend => walk_lend(card, steps, tables, b, node),
        Kind::Oplus => walk_one_of(card, steps, tables, b, node),
        Kind::Zero => Ok(b.ended(false, false)),
        // No goal is of these kinds.
        Kind::Recipe | Kind::Menu | Kind::Unknown => unreachable!(),
    }
}

// G ⊗ H.
#[cycle(walk_list)]
fn walk_tensor(
    card: &[u8],
    steps: &[u8],
    tables: &mut Tables,
    b: Position,
    node: usize,
) -> Result<Summary, Refusal>
    requires walk_ready { WalkReady card.now steps.now tables.old b }
    requires goal_walk_ready { GoalWalkReady card.now b node }
    requires kind { kind_at card.now node ≡ 4 }
    ensures { GoalWalks card.now steps.now tables.old tables.new b node result }
{
    let w = walk(card, steps, tables, b, left(card, node))?;
    let v = walk(card, steps, tables, b.on(w.at, w.met), right(card, node))?;
    Ok(w.tensor(v))
}

// G & H.
#[cycle(walk_list)]
fn walk_with(
    card: &[u8],
    steps: &[u8],
    tables: &mut Tables,
    b: Position,
    node: usize,
) -> Result<Summary, Refusal>
    requires walk_ready { WalkReady card.now steps.now tables.old b }
    requires goal_walk_ready { GoalWalkReady card.now b node }
    requires kind { kind_at card.now node ≡ 5 }
    ensures { GoalWalks card.now steps.now tables.old tables.new b node result }
{
    let w = walk(card, steps, tables, b, left(card, node))?;
    let v = walk(card, steps, tables, b.on(w.at, b.met), right(card, node))?;
    Ok(w.beside(v))
}

// D ⊸ G.
#[cycle(walk_list)]
fn walk_lend(
    card: &[u8],
    steps: &[u8],
    tables: &mut Tables,
    b: Position,
    node: usize,
) -> Result<Summary, Refusal>
    requires walk_ready { WalkReady card.now steps.now tables.old b }
    requires goal_walk_ready { GoalWalkReady card.now b node }
    requires kind { kind_at card.now node ≡ 6 }
    ensures { GoalWalks card.now steps.now tables.old tables.new b node result }
{
    tables.put(b.count, left(card, node), true);
    let w = walk(card, steps, tables, b.lent(), right(card, node))?;
    Ok(w.without(b.count - b.rules))
}

// G ⊕ H: the part that the next step chooses.
#[cycle(walk_list)]
fn walk_one_of(
    card: &[u8],
    steps: &[u8],
    tables: &mut Tables,
    b: Position,
    node: usize,
) -> Result<Summary, Refusal>
    requires walk_ready { WalkReady card.now steps.now tables.old b }
    requires goal_walk_ready { GoalWalkReady card.now b node }
    requires kind { kind_at card.now node ≡ 8 }
    ensures { GoalWalks card.now steps.now tables.old tables.new b node result }
{
    let side = next_side(card, steps, b, node, true, true)?;
    walk(card, steps, tables, b.stepped(0), side)
}

// A name.
#[cycle(walk_list)]
fn walk_atom(
    card: &[u8],
    steps: &[u8],
    tables: &mut Tables,
    b: Position,
    node: usize,
) -> Result<Summary, Refusal>
    requires walk_ready { WalkReady card.now steps.now tables.old b }
    requires goal_walk_ready { GoalWalkReady card.now b node }
    requires kind { kind_at card.now node ≡ 1 }
    ensures { GoalWalks card.now steps.now tables.old tables.new b node result }
{
    let name = left(card, node);
    let e = next_step(card, steps, tables, b, name)?;
    use_clause(card, steps, tables, b, name, e)
}

// 1 where the item is a must line, else 0.
fn due(card: &[u8], item: usize) -> usize
    requires { Sound card.now }
    ensures { result ≡ bit (member (strict_of card.now) item) }
{
    if item < byte(card, 4) {
        line_byte(card, item)
    } else {
        0
    }
}

// The use of an entry for a name.
#[cycle(walk_list)]
fn use_clause(
    card: &[u8],
    steps: &[u8],
    tables: &mut Tables,
    b: Position,
    name: usize,
    e: usize,
) -> Result<Summary, Refusal>
    requires walk_ready { WalkReady card.now steps.now tables.old b }
    requires step_usable { StepUsable card.now steps.now tables.old b name e }
    requires deep { b.count + 1 + 6 * b.depth ≤ b.rules + 168 }
    ensures { UseWalks card.now steps.now tables.old tables.new b name result }
{
    let node = tables.nodes[e] as usize;
    let gone = tables.linear[e];
    let w = clause(card, steps, tables, b.stepped(1), name, node)?;
    if gone {
        let item = e - b.rules;
        return Ok(w.using(item, due(card, item)));
    }
    Ok(w)
}

// A clause in use for a name. Most are a head alone, which is met here: it has no conditions to go to.
#[cycle(walk_list)]
fn clause(
    card: &[u8],
    steps: &[u8],
    tables: &mut Tables,
    b: Position,
    name: usize,
    node: usize,
) -> Result<Summary, Refusal>
    requires walk_ready { WalkReady card.now steps.now tables.old b }
    requires clause_ready { ClauseReady card.now b name node }
    ensures { ClauseWalks card.now steps.now tables.old tables.new b name node result }
{
    if kind(card, node) == 1 {
        return Ok(b.ended(false, true));
    }
    conditions(card, steps, tables, b, name, node)
}

// The conditions of a clause in use for a name: a head has none, a menu those of the part chosen.
#[cycle(walk_list)]
fn conditions(
    card: &[u8],
    steps: &[u8],
    tables: &mut Tables,
    b: Position,
    name: usize,
    node: usize,
) -> Result<Summary, Refusal>
    requires walk_ready { WalkReady card.now steps.now tables.old b }
    requires clause_ready { ClauseReady card.now b name node }
    ensures { ClauseWalks card.now steps.now tables.old tables.new b name node result }
{
    match kind_of(card, node) {
        Kind::Atom => Ok(b.ended(false, true)),
        Kind::Menu => menu(card, steps, tables, b, name, node),
        Kind::Recipe => recipe(card, steps, tables, b, name, node),
        // ⊤ serves no name, and no clause is of the other kinds.
        Kind::Top
        | Kind::One
        | Kind::Tensor
        | Kind::With
        | Kind::Lend
        | Kind::Oplus
        | Kind::Zero
        | Kind::Unknown => unreachable!(),
    }
}

// G ⊸ D in use for a name: the conditions of D, which are nearer the head, then G.
#[cycle(walk_list)]
fn recipe(
    card: &[u8],
    steps: &[u8],
    tables: &mut Tables,
    b: Position,
    name: usize,
    node: usize,
) -> Result<Summary, Refusal>
    requires walk_ready { WalkReady card.now steps.now tables.old b }
    requires clause_ready { ClauseReady card.now b name node }
    requires kind { kind_at card.now node ≡ 7 }
    ensures { ClauseWalks card.now steps.now tables.old tables.new b name node result }
{
    let w = clause(card, steps, tables, b, name, right(card, node))?;
    let v = walk(card, steps, tables, b.on(w.at, w.met), left(card, node))?;
    Ok(w.tensor(v))
}

// D & E in use for a name: the part that the next step chooses, one with a head that is the name.
#[cycle(walk_list)]
fn menu(
    card: &[u8],
    steps: &[u8],
    tables: &mut Tables,
    b: Position,
    name: usize,
    node: usize,
) -> Result<Summary, Refusal>
    requires walk_ready { WalkReady card.now steps.now tables.old b }
    requires clause_ready { ClauseReady card.now b name node }
    requires kind { kind_at card.now node ≡ 10 }
    ensures { ClauseWalks card.now steps.now tables.old tables.new b name node result }
{
    let first = usable(card, left(card, node), name);
    let second = usable(card, right(card, node), name);
    let side = next_side(card, steps, b, node, first, second)?;
    conditions(card, steps, tables, b.stepped(0), name, side)
}
