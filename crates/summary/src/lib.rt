// Where a walk stands in a list, what it gathers there (the outer items taken, slack, whether the items divided, and the lines surely used),
// and what is wrong at its next step.
#![tactic(auto)]

ghost use Rattle.std.specs.Prelude.{◌≡◌, ◌+◌, ◌*◌, ◌≤◌, ◌<◌, length};
ghost use Rattle.calculus.specs.Formula.{usable as usableM};
ghost use Rattle.calculus.specs.Derivation.{clause_at};
ghost use Rattle.card.specs.Fault.{Sound};
ghost use Rattle.card.specs.Verdict.{where_of, step};
ghost use Rattle.lines.specs.Set.{Words};
ghost use Rattle.scope.specs.Inner.Tables.{table_scope, TableEntered};
ghost use Rattle.summary.specs.Inner.Values.{on_b, lent_p, stepped_b, ended_w, cover_w, pick_w, tensor_w, with_w, without_s, using_w};
ghost use Rattle.summary.specs.Inner.Walks.{WalkReady, StepGiven, Stepping, SideTaking};

use card::format::{byte, left, right};
use card::{Fault, Place, Refusal, refuse};
use lines::{LineSet, LineWord};
use scope::{Tables, usable};

// Where a walk stands: P and how many steps are given; its place in the list, how many entries stand in scope, and the nesting left; and
// how many must lines were met (used) on the way here.
#[derive(Clone, Copy)]
pub struct Position {
    pub rules: usize,
    pub given: usize,
    pub at: usize,
    pub count: usize,
    pub depth: usize,
    pub met: usize,
}

// What a walk that has ended gathered: the place reached in the list, the outer items taken, whether some ⊤ can take more, whether all
// items divided, the running count of the must lines met where the walk ended, and the lines surely used. Only lines have marks, so lent
// clauses are left out of these, but for those among the first 64 items, which are of no account.
#[derive(Clone, Copy)]
pub struct Summary {
    pub at: usize,
    pub used: LineSet,
    pub slack: bool,
    pub alive: bool,
    pub met: usize,
    pub sure: LineWord,
}

impl Position {
    // Further on in the list, behind as many must lines.
    pub fn on(self, at: usize, met: usize) -> Position
        ensures { result ≡ on_b self at met }
    {
        Position { at, met, ..self }
    }

    // The goal of a ⊸: one entry more in scope.
    pub fn lent(self) -> Position
        requires { self.count < 1000 }
        ensures { result ≡ lent_p self }
    {
        Position {
            count: self.count + 1,
            ..self
        }
    }

    // Behind a step: one further in the list, and nested deeper by 1 where an entry is used, by 0 at a choice.
    pub fn stepped(self, nested: usize) -> Position
        requires { (self.at < 255) × (nested ≤ self.depth) }
        ensures { result ≡ stepped_b self nested }
    {
        Position {
            at: self.at + 1,
            depth: self.depth - nested,
            ..self
        }
    }

    // The next step, as the place of what is wrong there.
    #[tactic(auto, unfolding(card::specs::Verdict::where_of))]
    fn here(self) -> Place
        requires { self.at < 65536 }
        ensures { where_of result ≡ step self.at }
    {
        Place::Step(self.at as u16)
    }

    // 1, ⊤, a head or 0: no step is taken. Only 0 is never divided.
    pub fn ended(self, slack: bool, alive: bool) -> Summary
        ensures { result ≡ ended_w self slack alive }
    {
        Summary {
            at: self.at,
            used: LineSet::empty(),
            slack,
            alive,
            met: self.met,
            sure: LineWord::empty(),
        }
    }
}

impl Summary {
    // Both parts of a ⊗: their shares are apart, and the right one was walked from the left one's count. The words of both sets are those of
    // the machine.
    pub fn tensor(self, w: Summary) -> Summary
        ensures value { result ≡ tensor_w self w }
        ensures words { Words self.used × Words w.used }
    {
        let apart = self.used.meet(w.used).is_empty();
        Summary {
            used: self.used.join(w.used),
            slack: self.slack || w.slack,
            alive: self.alive && w.alive && apart,
            sure: self.sure.join(w.sure),
            ..w
        }
    }

    // This side of a & covers the other: with slack, or with the items that the other takes.
    fn covers(self, w: Summary) -> bool
        ensures { result ≡ cover_w self w }
    {
        self.slack || w.used.cut(self.used).is_empty()
    }

    // The count of both sides of a &, each walked from the same count: that of a side without slack, which takes all that the other takes.
    #[tactic(auto, unfolding(crate::specs::Inner::Values::pick_w))]
    fn pick(self, w: Summary) -> usize
        ensures { result ≡ pick_w self w }
    {
        if self.slack { w.met } else { self.met }
    }

    // Both sides of a &: each covers the other, and what each surely uses is sure. The words of both sets are those of the machine.
    pub fn beside(self, w: Summary) -> Summary
        ensures value { result ≡ with_w self w }
        ensures words { Words self.used × Words w.used }
    {
        let agree = self.covers(w) && w.covers(self);
        Summary {
            at: w.at,
            used: self.used.join(w.used),
            slack: self.slack && w.slack,
            alive: self.alive && w.alive && agree,
            met: self.pick(w),
            sure: self.sure.meet(w.sure),
        }
    }

    // Out of a ⊸: the lent clause was taken, or there is slack; it is no item outside.
    pub fn without(self, item: usize) -> Summary
        ensures { result ≡ without_s self item }
    {
        let gone = self.slack || self.used.has(item);
        Summary {
            used: self.used.take(item),
            alive: self.alive && gone,
            ..self
        }
    }

    // Behind the use of a line or lent clause: its conditions did not take it. `due` is 1 where it is a must line, else 0.
    pub fn using(self, item: usize, due: usize) -> Summary
        requires { self.met + due ≤ 256 }
        ensures { result ≡ using_w self item due }
    {
        let free = !self.used.has(item);
        Summary {
            used: self.used.add(item),
            alive: self.alive && free,
            met: self.met + due,
            sure: self.sure.add(item),
            ..self
        }
    }
}

// The next step, or 18 where there is none left.
fn next(steps: &[u8], b: Position) -> Result<usize, Refusal>
    requires { (b.at ≤ b.given) × ((b.given ≤ length steps.now) × (b.given ≤ 255)) }
    ensures { StepGiven steps.now b result }
{
    refuse(b.at == b.given, Fault::StepCount, b.here())?;
    Ok(byte(steps, b.at))
}

// Whether e is an entry in scope that can be used for the name.
fn fits(card: &[u8], tables: &Tables, b: Position, e: usize, name: usize) -> bool
    requires sound { Sound card.now }
    requires entered { TableEntered card.now tables.now.nodes tables.now.linear b.count }
    requires room { e < 256 }
    ensures { let es = table_scope card.now tables.now.nodes tables.now.linear b.count in
        result ≡ usableM es.fits name (clause_at es e) }
{
    e < b.count && usable(card, tables.nodes[e] as usize, name)
}

// The next step: the entry that is used for the name, or 18 (there is none left), 13 (no entry in scope whose head is the name) or 17
// (nested above d), the first of these that applies.
pub fn next_step(
    card: &[u8],
    steps: &[u8],
    tables: &Tables,
    b: Position,
    name: usize,
) -> Result<usize, Refusal>
    requires { WalkReady card.now steps.now tables.now b }
    ensures { Stepping card.now steps.now tables.now b name result }
{
    let e = next(steps, b)?;
    refuse(!fits(card, tables, b, e, name), Fault::Step, b.here())?;
    refuse(b.depth == 0, Fault::Depth, b.here())?;
    Ok(e)
}

// The next step at a node whose parts are chosen from, where some may be taken: the part that it takes, 254 the left and 255 the right, or
// 18 (there is no step left) or 13 (no choice, or one of a part that may not be taken).
pub fn next_side(
    card: &[u8],
    steps: &[u8],
    b: Position,
    node: usize,
    first: bool,
    second: bool,
) -> Result<usize, Refusal>
    requires node_in_bounds { 16 + 5 * node ≤ length card.now }
    requires given { (b.at ≤ b.given) × ((b.given ≤ length steps.now) × (b.given ≤ 255)) }
    ensures { SideTaking card.now steps.now b node first second result }
{
    let c = next(steps, b)?;
    if c == 254 && first {
        return Ok(left(card, node));
    }
    if c == 255 && second {
        return Ok(right(card, node));
    }
    Err(Refusal {
        fault: Fault::Step,
        place: b.here(),
    })
}
