// What both calls over two cards check first (02, #101): each card by itself, and whether the two fit on one.
#![tactic(auto)]

ghost use Rattle.std.specs.Prelude.{◌≡◌, MatchResult};
ghost use Rattle.card.specs.Verdict.{number_of, where_of, told};
ghost use Rattle.benched.specs.Benched.{fine, stopped, about, owner_of, bench_fault, told_bench};

use card::Refusal;
use card::sound::Card;
use checks::check;
use limits::limits_check;
use std::error::Error;
use std::fmt;

// One of the two cards.
#[derive(Clone, Copy, Debug, PartialEq, Eq)]
pub enum Which {
    First,
    Second,
}

// 02: a refusal, "told with which card" it is about; none, where it is about neither.
#[derive(Clone, Copy, Debug, PartialEq, Eq)]
pub struct BenchRefusal {
    pub card: Option<Which>,
    pub refusal: Refusal,
}

impl fmt::Display for Which {
    fn fmt<W: fmt::Write>(&self, f: &mut fmt::Formatter<W>) -> fmt::Result {
        match self {
            Which::First => write!(f, "first"),
            Which::Second => write!(f, "second"),
        }
    }
}

impl fmt::Display for BenchRefusal {
    fn fmt<W: fmt::Write>(&self, f: &mut fmt::Formatter<W>) -> fmt::Result {
        match self.card {
            Some(which) => write!(f, "{}, {which} card", self.refusal),
            None => write!(f, "{}, neither card", self.refusal),
        }
    }
}

impl Error for BenchRefusal {}

// A check, told with which card it is about.
pub fn about(card: Option<Which>, found: Result<(), Refusal>) -> Result<(), BenchRefusal>
    ensures { told_bench result ≡ about (owner_of card) (told found) }
{
    found.map_err(|refusal| BenchRefusal { card, refusal })
}

// Both cards, which are sound and fit on one; or the first of the first card's own 1 to 9, the second's, and 15 that applies.
pub fn bench_cards<'a>(
    first: &'a [u8],
    second: &'a [u8],
) -> Result<(Card<'a>, Card<'a>), BenchRefusal>
    ensures { MatchResult result
        (λ cards. ((cards.0 ≡ first.now) × (cards.1 ≡ second.now)) × (bench_fault first.now second.now ≡ fine))
        (λ r. bench_fault first.now second.now
        ≡ stopped (owner_of r.card) (number_of r.refusal.fault) (where_of r.refusal.place)) }
{
    about(Some(Which::First), check(first))?;
    about(Some(Which::Second), check(second))?;
    let a = Card::new(first);
    let b = Card::new(second);
    about(None, limits_check(&a, &b))?;
    Ok((a, b))
}

// The same check alone.
pub fn bench_check(first: &[u8], second: &[u8]) -> Result<(), BenchRefusal>
    ensures { told_bench result ≡ bench_fault first.now second.now }
{
    bench_cards(first, second)?;
    Ok(())
}
