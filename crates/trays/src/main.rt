// Plans the cards of standard input and prints each outcome. A record of the input is a label (its length in one byte, then its bytes),
// the length of the buffer to be lent (two bytes; at most 324 are lent) and a card (its length in two bytes, then its bytes). The buffer is
// filled with one byte beforehand, and a byte outside the sheet that does not hold it afterwards is told.
#![tactic(auto)]

ghost use Rattle.std.specs.Prelude.{◌<◌, length, IfSome};

use show::{Input, Sheet};
use std::io;
use std::io::Write;

const FILL: u8 = 0xA5;

#[derive(Drop)]
struct Record<'a> {
    label: &'a [u8],
    size: usize,
    card: &'a [u8],
}

impl<'a> Record<'a> {
    fn read(input: &mut Input<'a>) -> Option<Self>
        ensures { IfSome result (λ _. length input.new < length input.old) }
    {
        let label = input.label()?;
        let size = input.word()?;
        let n = input.word()?;
        let card = input.part(n);
        Some(Record { label, size, card })
    }

    // An Err is the writer's own; what was written before it stays written.
    fn print(&self, out: &mut impl Write) -> io::Result<()> {
        let mut buffer = [FILL; 324];
        let size = self.size.min(buffer.len());
        let lent = &mut buffer[..size];
        // What stands before the outcome is written before the card is planned, which can take long.
        out.write_all(self.label)?;
        out.write_all(b": ")?;
        let end = match planner::plan(self.card, lent) {
            Ok(k) => {
                let sheet = Sheet::new(lent, k);
                write!(out, "{sheet}")?;
                sheet.end()
            }
            Err(refusal) => {
                write!(out, "{refusal}")?;
                0
            }
        };
        let spoiled = buffer[end..].iter().any(|byte| *byte != FILL);
        writeln!(out, "{}", if spoiled { " spoiled" } else { "" })
    }
}

fn main(rt: HostRuntime) -> io::Result<()> {
    let mut buffer = [0u8; 65536];
    let n = show::read_full(&mut rt.stdin(), &mut buffer)?;
    let mut out = rt.stdout();
    for record in Input::new(&buffer[..n]).records(Record::read) {
        record.print(&mut out)?;
    }
    Ok(())
}
