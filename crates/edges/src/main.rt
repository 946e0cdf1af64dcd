// Runs the checks 1 to 9 over the cards of standard input and prints what each finds. A record of the input is a label (its length in
// one byte, then its bytes) and a card (its length in two bytes, then its bytes).
#![tactic(auto)]

ghost use Rattle.std.specs.Prelude.{◌<◌, length, IfSome};

use show::Input;
use std::io;
use std::io::Write;

#[derive(Drop)]
struct Record<'a> {
    label: &'a [u8],
    card: &'a [u8],
}

impl<'a> Record<'a> {
    fn read(input: &mut Input<'a>) -> Option<Self>
        ensures { IfSome result (λ _. length input.new < length input.old) }
    {
        let label = input.label()?;
        let n = input.word()?;
        let card = input.part(n);
        Some(Record { label, card })
    }

    // An Err is the writer's own; what was written before it stays written.
    fn print(&self, out: &mut impl Write) -> io::Result<()> {
        out.write_all(self.label)?;
        out.write_all(b": ")?;
        match checks::check(self.card) {
            Ok(()) => writeln!(out, "sound"),
            Err(refusal) => writeln!(out, "{refusal}"),
        }
    }
}

fn main(rt: HostRuntime) -> io::Result<()> {
    let mut buffer = [0u8; 65536];
    let n = show::read_full(&mut rt.stdin(), &mut buffer)?;
    let mut out = rt.stdout();
    for record in Input::new(&buffer[..n]).records(Record::read) {
        record.print(&mut out)?;
    }
    Ok(())
}
