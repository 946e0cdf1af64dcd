// The checks 7 to 9: the goal, the rules and the lines.
#![tactic(auto)]

ghost use Rattle.std.specs.Prelude.{◌≡◌, ◌<◌};
ghost use Rattle.card.specs.Format.{rule_count, line_count};
ghost use Rattle.card.specs.Verdict.{told, first_of};
ghost use Rattle.card.specs.Fault.{goal_fault, rule_fault, line_fault};
ghost use Rattle.card.specs.Inner.Checks.{Framed};

use card::format::{byte, line_byte, line_node, rule_node, word};
use card::{Fault, Place, Refusal, refuse};
use kinds::{clause_part, goal_part};

// 7: the goal is not below N or not a goal.
pub fn goal_check(card: &[u8]) -> Result<(), Refusal>
    requires { Framed card.now }
    ensures { told result ≡ goal_fault card.now }
{
    let n = word(card, 5);
    let good = goal_part(card, n, word(card, 7));
    refuse(!good, Fault::Goal, Place::Card)
}

// 8 at rule i: its node is not below N or not a clause.
fn rule_check(card: &[u8], i: usize) -> Result<(), Refusal>
    requires framed { Framed card.now }
    requires i_bound { i < rule_count card.now }
    ensures { told result ≡ rule_fault card.now i }
{
    let n = word(card, 5);
    let good = clause_part(card, n, rule_node(card, i));
    refuse(!good, Fault::Rule, Place::Rule(i as u16))
}

// 8, by rising index.
pub fn rules_check(card: &[u8]) -> Result<(), Refusal>
    requires { Framed card.now }
    ensures { told result ≡ first_of (rule_count card.now) (rule_fault card.now) }
{
    for i in 0..byte(card, 3) {
        rule_check(card, i)?;
    }
    Ok(())
}

// 9 at line i: its node is not below N or not a clause, or its must/may byte is above 1.
fn line_check(card: &[u8], i: usize) -> Result<(), Refusal>
    requires framed { Framed card.now }
    requires i_bound { i < line_count card.now }
    ensures { told result ≡ line_fault card.now i }
{
    let n = word(card, 5);
    let good = clause_part(card, n, line_node(card, i)) && line_byte(card, i) <= 1;
    refuse(!good, Fault::Line, Place::Line(i as u16))
}

// 9, by rising index.
pub fn lines_check(card: &[u8]) -> Result<(), Refusal>
    requires { Framed card.now }
    ensures { told result ≡ first_of (line_count card.now) (line_fault card.now) }
{
    for i in 0..byte(card, 4) {
        line_check(card, i)?;
    }
    Ok(())
}
