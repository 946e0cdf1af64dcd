// A given sheet's front (01, "Refused, and where"): check 12.
#![tactic(auto)]

ghost use Rattle.std.specs.Prelude.{◌≡◌};
ghost use Rattle.card.specs.Verdict.{told};
ghost use Rattle.card.specs.Inner.Checks.{Framed};
ghost use Rattle.sheet_front.specs.Front.{sheet_fits, sheet_fault};

use card::format::{byte, word};
use card::{Fault, Place, Refusal, refuse};

// The sheet has its own length, version 1, the card's T, and room for k steps and T marks and no more; k is within the step limit.
#[tactic(auto, unfolding(crate::specs::Front::sheet_fits))]
fn fits(card: &[u8], sheet: &[u8]) -> bool
    requires { Framed card.now }
    ensures { result ≡ sheet_fits card.now sheet.now }
{
    sheet.len() >= 5
        && word(sheet, 0) == sheet.len()
        && byte(sheet, 2) == 1
        && byte(sheet, 4) == byte(card, 4)
        && 5 + byte(sheet, 3) + byte(sheet, 4) == sheet.len()
        && byte(sheet, 3) <= byte(card, 10)
}

// 12: the sheet's front.
pub fn front_check(card: &[u8], sheet: &[u8]) -> Result<(), Refusal>
    requires { Framed card.now }
    ensures { told result ≡ sheet_fault card.now sheet.now }
{
    refuse(!fits(card, sheet), Fault::SheetFront, Place::Sheet)
}
