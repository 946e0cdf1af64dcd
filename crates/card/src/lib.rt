// The card (01, "The card"): access to its bytes, and the terms in which a check answers.
#![tactic(auto)]

pub mod faults;
pub mod format;
pub mod kinds;
pub mod sound;

ghost use Rattle.std.specs.Prelude.{◌≡◌};
ghost use Rattle.card.specs.Verdict.{told, refuse, number_of, where_of};

pub use faults::{Fault, Place, Refusal};

// A check whose test says whether it applies.
pub fn refuse(applies: bool, fault: Fault, place: Place) -> Result<(), Refusal>
    ensures { told result ≡ refuse applies (number_of fault) (where_of place) }
{
    if applies {
        return Err(Refusal { fault, place });
    }
    Ok(())
}
