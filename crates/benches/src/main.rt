// Joins the pairs of cards of standard input and prints of each: the joined card, how many bytes behind it are as they were, its plan, and
// the source of every joined line and of one beyond; or the refusals. A record of the input is a label (its length in one byte, then its
// bytes), the length of the buffer to be lent (two bytes; at most 2,900 are lent), the lengths of both cards (two bytes each), and the
// cards. The buffer is filled with one byte beforehand.
#![tactic(auto)]

ghost use Rattle.std.specs.Prelude.{◌<◌, length, IfSome};

use bench::LineSource;
use show::{Hex, Input, Sheet};
use std::io;
use std::io::Write;

const FILL: u8 = 0xA5;

#[derive(Drop)]
struct Record<'a> {
    label: &'a [u8],
    size: usize,
    first: &'a [u8],
    second: &'a [u8],
}

impl<'a> Record<'a> {
    fn read(input: &mut Input<'a>) -> Option<Self>
        ensures { IfSome result (λ _. length input.new < length input.old) }
    {
        let label = input.label()?;
        let size = input.word()?;
        let n = input.word()?;
        let m = input.word()?;
        let first = input.part(n);
        let second = input.part(m);
        Some(Record {
            label,
            size,
            first,
            second,
        })
    }

    // An Err is the writer's own; what was written before it stays written.
    fn print(&self, out: &mut impl Write) -> io::Result<()> {
        let mut buffer = [FILL; 2900];
        let size = self.size.min(buffer.len());
        out.write_all(self.label)?;
        writeln!(out)?;
        self.print_joined(out, &mut buffer[..size])?;
        self.print_sources(out)
    }

    // Joins the cards into the buffer and prints the outcome.
    fn print_joined(&self, out: &mut impl Write, buffer: &mut [u8]) -> io::Result<()> {
        out.write_all(b"  ")?;
        match bench::join(self.first, self.second, buffer) {
            Ok(n) => {
                let (joined, rest) = buffer.split_at(n as usize);
                writeln!(out, "joined {n}:{}", Hex(joined))?;
                print_kept(out, rest)?;
                print_plan(out, joined)
            }
            Err(refusal) => {
                writeln!(out, "{refusal}")?;
                print_kept(out, buffer)
            }
        }
    }

    // Prints the source of every joined line and of one beyond: there are at most 64.
    fn print_sources(&self, out: &mut impl Write) -> io::Result<()> {
        for i in 0..65 {
            write!(out, "  line {i}: ")?;
            match bench::locate(self.first, self.second, i) {
                Ok(LineSource { card, at }) => {
                    let line = bench::source(self.first, self.second, i);
                    writeln!(out, "{card} card at {at}:{}", Hex(line))?;
                }
                Err(refusal) => return writeln!(out, "{refusal}"),
            }
        }
        Ok(())
    }
}

// How many bytes hold the fill byte, up to the first that does not.
fn print_kept(out: &mut impl Write, rest: &[u8]) -> io::Result<()> {
    let kept = rest.iter().take_while(|byte| **byte == FILL).count();
    writeln!(out, "  kept {kept}")
}

// Plans the card and prints the outcome.
fn print_plan(out: &mut impl Write, card: &[u8]) -> io::Result<()> {
    let mut buffer = [FILL; 324];
    // Before the card is planned, which can take long.
    out.write_all(b"  ")?;
    match planner::plan(card, &mut buffer) {
        Ok(k) => writeln!(out, "{}", Sheet::new(&buffer, k)),
        Err(refusal) => writeln!(out, "{refusal}"),
    }
}

fn main(rt: HostRuntime) -> io::Result<()> {
    let mut buffer = [0u8; 65536];
    let n = show::read_full(&mut rt.stdin(), &mut buffer)?;
    let mut out = rt.stdout();
    for record in Input::new(&buffer[..n]).records(Record::read) {
        record.print(&mut out)?;
    }
    Ok(())
}
