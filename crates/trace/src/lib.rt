// What is wrong with a given list, if anything: the walk of the goal (13, 17, 18), then the tests of its end (18) and of its items (19). Of a
// list that is right, the lines that it surely uses.
#![tactic(auto)]

ghost use Rattle.std.specs.Prelude.{false, ◌↔◌, ◌⊎◌, ◌≡◌, ◌≤◌, length, take};
ghost use Rattle.calculus.specs.Job.{Listed};
ghost use Rattle.calculus.specs.Inner.Trace.{Says};
ghost use Rattle.card.specs.Format.{step_limit};
ghost use Rattle.card.specs.Fault.{Sound};
ghost use Rattle.card.specs.Inner.Checks.{NoKind};
ghost use Rattle.card.specs.Decode.{job_of};
ghost use Rattle.lines.specs.Set.{is_empty_s, cut_s, Words};
ghost use Rattle.scope.specs.Inner.Sets.{strict_of, SureLines};
ghost use Rattle.summary.specs.Inner.Values.{start_p, MetCounted};
ghost use Rattle.trace.specs.Inner.Listing.{Covered, Ending, told_followed, HasLines, Following, SurelyFollows};

use card::format::{byte, kind, word};
use card::{Fault, Place, Refusal, refuse};
use lines::{LineSet, LineWord};
use scope::{Tables, strict_lines};
use summary::{Position, Summary};

// Where the walk of the card's goal begins.
#[tactic(auto, unfolding(summary::specs::Inner::Values::start_p))]
fn start(card: &[u8], k: usize) -> Position
    requires { Sound card.now }
    ensures { result ≡ start_p card.now k }
{
    let rules = byte(card, 3);
    Position {
        rules,
        given: k,
        at: 0,
        count: rules + byte(card, 4),
        depth: byte(card, 9),
        met: 0,
    }
}

// Whether every item of s is one of t. The words of both are those of the machine.
fn within(s: LineSet, t: LineSet) -> bool
    ensures value { result ≡ is_empty_s (cut_s s t) }
    ensures words { Words s × Words t }
{
    s.cut(t).is_empty()
}

// The items divided, they lie within the lines, and there is slack or every must line is among them: all of them are met.
fn covers(card: &[u8], w: Summary) -> bool
    requires sound { Sound card.now }
    requires met_counted { MetCounted (strict_of card.now) 0 w }
    ensures { Says result (Covered card.now w) }
{
    let lines = LineSet::full(byte(card, 4));
    let divided = w.alive && within(w.used, lines);
    divided && (w.slack || w.met == strict_lines(card).count())
}

// What is found of a list whose walk has ended: 18 where it ended before the last of the k steps, at the first that it did not want, then 19
// where the items do not divide; or the lines that the walk surely used.
fn ended(card: &[u8], w: Summary, k: usize) -> Result<LineWord, Refusal>
    requires sound { Sound card.now }
    requires at_bound { w.at ≤ 255 }
    requires k_bound { k ≤ 255 }
    requires met_counted { MetCounted (strict_of card.now) 0 w }
    ensures ending { Ending card.now w k (told_followed result) }
    ensures has_lines { HasLines w.sure result }
{
    refuse(w.at != k, Fault::StepCount, Place::Step(w.at as u16))?;
    refuse(!covers(card, w), Fault::Undivided, Place::Steps)?;
    Ok(w.sure)
}

// 13, 17, 18 and 19, of the first k of the steps, where they stand; or the lines that they surely use.
pub fn steps_check(card: &[u8], steps: &[u8], k: usize) -> Result<LineWord, Refusal>
    requires sound { Sound card.now }
    requires k_in_bounds { k ≤ length steps.now }
    requires k_bound { k ≤ step_limit card.now }
    ensures following { Following card.now (take k steps.now) (told_followed result) }
    ensures surely_follows { SurelyFollows card.now (take k steps.now) result }
{
    let mut tables = Tables::of(card);
    let w = walk::walk(card, steps, &mut tables, start(card, k), word(card, 7))?;
    ended(card, w, k)
}

// Whether some node of the card is of kind k.
fn has_kind(card: &[u8], k: usize) -> bool
    requires { Sound card.now }
    ensures { (result ≡ false) ↔ NoKind card.now k }
{
    for i in 0..word(card, 5) {
        if kind(card, i) == k {
            return true;
        }
    }
    false
}

// Whether a list of the card may use a line one way only: there is an "either way", and a "rest" that can leave the line.
fn may_differ(card: &[u8]) -> bool
    requires { Sound card.now }
    ensures { (result ≡ false) ↔ (NoKind card.now 5 ⊎ NoKind card.now 2) }
{
    has_kind(card, 5) && has_kind(card, 2)
}

// The lines that a list of the card, the first k of the steps, surely uses. Where no line can be used one way only these are all that stand
// in it, and it is not walked.
pub fn sure_lines(card: &[u8], steps: &[u8], k: usize) -> LineWord
    requires sound { Sound card.now }
    requires k_in_bounds { k ≤ length steps.now }
    requires listed { Listed (job_of card.now) (take k steps.now) }
    ensures { SureLines card.now (take k steps.now) result }
{
    if may_differ(card) {
        steps_check(card, steps, k).unwrap_or(LineWord::empty())
    } else {
        LineSet::full(byte(card, 4)).lines()
    }
}
