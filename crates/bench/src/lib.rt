// Two cards on one bench (02, #101): the joined card, and which card a joined line comes from.
#![tactic(auto)]

ghost use Rattle.std.specs.Prelude.{◌≡◌, ◌≤◌};
ghost use Rattle.card.specs.Format.{line_start};
ghost use Rattle.bench.specs.Bench.{Joining, told_join, source_of, source_part, told_source};

use benched::{BenchRefusal, Which, about, bench_cards};
use card::sound::Card;
use card::{Fault, Place, refuse};
use fields::joined_length;
use joining::put_joined;

// Where the three bytes of a joined line begin: in which card, and at which of its bytes.
#[derive(Clone, Copy, Debug, PartialEq, Eq)]
pub struct LineSource {
    pub card: Which,
    pub at: u16,
}

// Joins two cards: the first of 1 to 9, 15 and 10 that applies, or the length of the joined card at the buffer's start.
pub fn join(first: &[u8], second: &[u8], joined: &mut [u8]) -> Result<u16, BenchRefusal>
    ensures { Joining first.now second.now joined.old (told_join result) joined.new }
{
    let (first, second) = bench_cards(first, second)?;
    let long = joined_length(&first, &second);
    about(
        None,
        refuse(joined.len() < long, Fault::NoRoom, Place::Sheet),
    )?;
    put_joined(&first, &second, joined);
    Ok(long as u16)
}

// Where line i of a card begins.
fn line_start(card: &Card<'_>, i: usize) -> u16
    requires { i ≤ 64 }
    ensures { result ≡ line_start card.now i }
{
    let at = 11 + 5 * card.nodes() + 2 * card.rules() + 3 * i;
    at as u16
}

// Which card holds joined line i, and where; or the first of 1 to 9, 15 and 16 that applies.
pub fn locate(first: &[u8], second: &[u8], i: u16) -> Result<LineSource, BenchRefusal>
    ensures { told_source result ≡ source_of first.now second.now i }
{
    let (first, second) = bench_cards(first, second)?;
    let n = i as usize;
    let t = first.lines();
    about(
        None,
        refuse(t + second.lines() <= n, Fault::NoLine, Place::Line(i)),
    )?;
    if n < t {
        Ok(LineSource {
            card: Which::First,
            at: line_start(&first, n),
        })
    } else {
        Ok(LineSource {
            card: Which::Second,
            at: line_start(&second, n - t),
        })
    }
}

// The three bytes of joined line i, as they stand in whichever card holds them; nothing where the question is refused.
pub fn source<'a>(first: &'a [u8], second: &'a [u8], i: u16) -> &'a [u8]
    ensures { result.now ≡ source_part first.now second.now i }
{
    let Ok(found) = locate(first, second, i) else {
        return &[];
    };
    let start = found.at as usize;
    match found.card {
        Which::First => &first[start..start + 3],
        Which::Second => &second[start..start + 3],
    }
}
