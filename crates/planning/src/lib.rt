// The planner's outcome (01, "Refused, and where"): 10, and the sheet of a sound card's first list.
#![tactic(auto)]

ghost use Rattle.std.specs.Prelude.{◌≡◌, ◌≤◌, length};
ghost use Rattle.calculus.specs.Job.{First};
ghost use Rattle.card.specs.Verdict.{told};
ghost use Rattle.card.specs.Fault.{Sound};
ghost use Rattle.card.specs.Decode.{job_of};
ghost use Rattle.scope.specs.Inner.Sets.{SureLines};
ghost use Rattle.planning.specs.Inner.Room.{room_fault};
ghost use Rattle.planning.specs.Plan.{planned, room_of, Planning};

use card::format::byte;
use card::{Fault, Place, Refusal, refuse};
use lines::LineWord;

// 10: the buffer's length against 5 + s + T, so that it holds any sheet that the step limit lets a card have.
pub fn room_for(card: &[u8], size: usize) -> Result<(), Refusal>
    requires { 11 ≤ length card.now }
    ensures { told result ≡ room_fault card.now size }
{
    let s = byte(card, 10);
    let t = byte(card, 4);
    refuse(size < 5 + s + t, Fault::NoRoom, Place::Sheet)
}

// The sheet of the card's first list, where the lines of `sure` are surely used; how many steps it holds.
pub fn write_plan(card: &[u8], list: &[u8], sure: LineWord, sheet: &mut [u8]) -> u8
    requires sound { Sound card.now }
    requires first { First (job_of card.now) list.now }
    requires sure_lines { SureLines card.now list.now sure }
    requires room { room_of card.now ≤ length sheet.old }
    ensures { Planning card.now sheet.old (planned result) sheet.new }
{
    sheet::write(card, list, sure, sheet);
    list.len() as u8
}
