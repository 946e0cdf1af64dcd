// The planner (01, "Refused, and where"): the checks in their order, the first list, and the sheet.
#![tactic(auto)]

ghost use Rattle.planning.specs.Plan.{told_plan, Planning};

use card::sound::Card;
use card::{Fault, Place, Refusal};

// 10, 11, and the sheet, which is written once the list and the lines that it surely uses are known.
fn plan_sound(card: &Card<'_>, sheet: &mut [u8]) -> Result<u8, Refusal>
    ensures { Planning card.now sheet.old (told_plan result) sheet.new }
{
    let bytes = card.bytes();
    planning::room_for(bytes, sheet.len())?;
    let mut tape = [0u8; 255];
    let Some(k) = search::first_list(bytes, &mut tape) else {
        return Err(Refusal {
            fault: Fault::NoList,
            place: Place::Card,
        });
    };
    let sure = trace::sure_lines(bytes, &tape, k);
    Ok(planning::write_plan(bytes, &tape[..k], sure, sheet))
}

// Plans a card: the first of 1 to 11 that applies, or the sheet of the card's first list at the buffer's start.
pub fn plan(card: &[u8], sheet: &mut [u8]) -> Result<u8, Refusal>
    ensures { Planning card.now sheet.old (told_plan result) sheet.new }
{
    let card = checks::sound_card(card)?;
    plan_sound(&card, sheet)
}
