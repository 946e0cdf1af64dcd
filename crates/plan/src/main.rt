// Plans the card of standard input and prints the answer (01, "Trays tried by hand").
#![tactic(auto)]

ghost use Rattle.std.specs.Prelude.{◌≤◌, length};
ghost use Rattle.planning.specs.Plan.{room_for_any, told_plan, Planning, NeverShort};

use card::Refusal;
use show::Sheet;
use std::io;
use std::io::Write;

// A line for the number of steps, for each step, and for each line's mark.
// An Err is the writer's own; what was written before it stays written.
fn print_sheet(out: &mut impl Write, sheet: &Sheet) -> io::Result<()> {
    writeln!(out, "plan {}", sheet.steps.len())?;
    for step in sheet.steps {
        writeln!(out, "step {step}")?;
    }
    for (i, mark) in sheet.marks.iter().enumerate() {
        writeln!(out, "line {i} {mark}")?;
    }
    Ok(())
}

// 01: "plans with room enough for any sheet".
fn plan_with_room(card: &[u8], sheet: &mut [u8]) -> Result<u8, Refusal>
    requires { room_for_any ≤ length sheet.old }
    ensures planning { Planning card.now sheet.old (told_plan result) sheet.new }
    ensures never_short { NeverShort (told_plan result) }
{
    planner::plan(card, sheet)
}

// Plans the card into the buffer and prints the answer.
fn plan_into(out: &mut impl Write, card: &[u8], sheet: &mut [u8]) -> io::Result<()>
    requires { room_for_any ≤ length sheet.old }
{
    match plan_with_room(card, sheet) {
        Ok(k) => print_sheet(out, &Sheet::new(sheet, k)),
        Err(refusal) => writeln!(out, "refused {}", refusal.fault.number()),
    }
}

// The buffer has room for any sheet: 5 + 255 + 64 bytes. Of a longer input only the first 4,096 bytes are read.
fn main(rt: HostRuntime) -> io::Result<()> {
    let mut input = [0u8; 4096];
    let n = show::read_full(&mut rt.stdin(), &mut input)?;
    let mut sheet = [0u8; 324];
    plan_into(&mut rt.stdout(), &input[..n], &mut sheet)
}
