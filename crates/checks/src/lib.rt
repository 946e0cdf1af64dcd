// The checks 1 to 9 in their order (01, "Refused, and where").
#![tactic(auto)]

ghost use Rattle.std.specs.Prelude.{◌≡◌, MatchResult};
ghost use Rattle.card.specs.Verdict.{sound, fault, number_of, where_of, told};
ghost use Rattle.card.specs.Fault.{first_fault};

use card::Refusal;
use card::sound::Card;
use front::front_check;
use nodes::nodes_check;
use roots::{goal_check, lines_check, rules_check};

// The first of 1 to 9 that applies, or that the card is sound.
pub fn check(card: &[u8]) -> Result<(), Refusal>
    ensures { told result ≡ first_fault card.now }
{
    // 1 to 5, then 6, 7, 8 and 9.
    front_check(card)?;
    nodes_check(card)?;
    goal_check(card)?;
    rules_check(card)?;
    lines_check(card)
}

// The card, if it is sound; or the first of 1 to 9 that applies.
pub fn sound_card(card: &[u8]) -> Result<Card<'_>, Refusal>
    ensures { MatchResult result (λ c. (c ≡ card.now) × (first_fault card.now ≡ sound))
        (λ r. first_fault card.now ≡ fault (number_of r.fault) (where_of r.place)) }
{
    check(card)?;
    Ok(Card::new(card))
}
