// The answers of the calls over two cards packed into one number (include/kit_planner.h).
#![tactic(auto)]

ghost use Rattle.std.specs.Prelude.{◌≡◌, ◌<◌, ◌≤◌, IfErr};
ghost use Rattle.card.specs.Verdict.{number_of, where_of};
ghost use Rattle.numbers.specs.Numbers.{number_in, card_in, place_in, index_in, place_of, Plain};
ghost use Rattle.benched.specs.Benched.{neither, owner_of};
ghost use Rattle.bench.specs.Bench.{told_join, told_source};
ghost use Rattle.bench_numbers.specs.BenchNumbers.{owner_at, owner_in, join_in, source_in, Carded, Uncarded};

use bench::LineSource;
use benched::{BenchRefusal, Which};
use numbers::{packed, packed_refusal, packed_unnumbered};

// The number of a card: 1 the first, 2 the second, 0 neither.
#[tactic(auto, unfolding(crate::specs::BenchNumbers::owner_at, crate::specs::BenchNumbers::owners, benched::specs::Benched::owner_of))]
fn card_number(card: Option<Which>) -> u32
    ensures known { result < 3 }
    ensures owner { owner_at result ≡ owner_of card }
{
    match card {
        None => 0,
        Some(Which::First) => 1,
        Some(Which::Second) => 2,
    }
}

// A number that tells no card, with this card.
#[tactic(auto, unfolding(crate::specs::BenchNumbers::owners))]
fn with_card(card: Option<Which>, bare: u32) -> u32
    requires { card_in bare ≡ 0 }
    ensures parts { (number_in result ≡ number_in bare) × (place_in result ≡ place_in bare)
        × (index_in result ≡ index_in bare) }
    ensures owner { owner_in result ≡ owner_of card }
    ensures carded { Carded result }
{
    bare + (card_number(card) << 20)
}

// A refusal, told with which card.
fn packed_stop(stop: BenchRefusal) -> u32
    ensures parts { (number_in result ≡ number_of stop.refusal.fault)
        × (place_of (place_in result) (index_in result) ≡ where_of stop.refusal.place) }
    ensures owner { owner_in result ≡ owner_of stop.card }
    ensures carded { Carded result }
    ensures plain { Plain result }
{
    with_card(stop.card, packed_refusal(stop.refusal))
}

// A refusal with the number 0, told with which card; it is not read as none.
#[tactic(auto, unfolding(crate::specs::BenchNumbers::owners))]
fn packed_unnumbered_stop(stop: BenchRefusal) -> u32
    ensures parts { (number_in result ≡ 0) × (place_of (place_in result) (index_in result) ≡ where_of stop.refusal.place) }
    ensures placed { 1 ≤ place_in result }
    ensures owner { owner_in result ≡ owner_of stop.card }
    ensures carded { Carded result }
    ensures plain { Plain result }
{
    with_card(stop.card, packed_unnumbered(stop.refusal.place))
}

// What joining answers. Its refusal may have any number; one that has 0 and names a card tells that card, as `join` asks.
pub fn packed_join(answer: Result<u16, BenchRefusal>) -> u32
    ensures join { join_in result ≡ told_join answer }
    ensures plain { Plain result }
    ensures carded { Carded result }
    ensures uncarded { IfErr answer (λ stop. number_of stop.refusal.fault ≡ 0 → owner_of stop.card ≡ neither) → Uncarded result }
{
    match answer {
        Err(stop) if stop.refusal.fault.number() == 0 => packed_unnumbered_stop(stop),
        _ => packed_numbered_join(answer),
    }
}

// What asking answers. Its refusal may have any number.
pub fn packed_source(answer: Result<LineSource, BenchRefusal>) -> u32
    ensures source { source_in result ≡ told_source answer }
    ensures plain { Plain result }
    ensures carded { Carded result }
{
    match answer {
        Err(stop) if stop.refusal.fault.number() == 0 => packed_unnumbered_stop(stop),
        _ => packed_numbered_source(answer),
    }
}

// What joining answers, where a refusal has a number that is not 0.
#[tactic(auto, unfolding(crate::specs::BenchNumbers::owners))]
pub fn packed_numbered_join(answer: Result<u16, BenchRefusal>) -> u32
    requires { IfErr answer (λ stop. 1 ≤ number_of stop.refusal.fault) }
    ensures join { join_in result ≡ told_join answer }
    ensures plain { Plain result }
    ensures carded { Carded result }
    ensures uncarded { Uncarded result }
{
    match answer {
        Ok(n) => packed(0, 0, n),
        Err(stop) => packed_stop(stop),
    }
}

// What asking answers, where a refusal has such a number too.
pub fn packed_numbered_source(answer: Result<LineSource, BenchRefusal>) -> u32
    requires { IfErr answer (λ stop. 1 ≤ number_of stop.refusal.fault) }
    ensures source { source_in result ≡ told_source answer }
    ensures plain { Plain result }
    ensures carded { Carded result }
{
    match answer {
        Ok(source) => with_card(Some(source.card), packed(0, 0, source.at)),
        Err(stop) => packed_stop(stop),
    }
}

#[cfg(test)]
mod tests {
    use super::*;
    use card::{Fault, Place, Refusal};

    fn refused<T>(card: Option<Which>, fault: Fault, place: Place) -> Result<T, BenchRefusal> {
        let refusal = Refusal { fault, place };
        Err(BenchRefusal { card, refusal })
    }

    #[test]
    fn any_join_is_told(rt: HostRuntime) {
        let first = Some(Which::First);
        let second = Some(Which::Second);
        let answers = [
            (Ok(0), 0),
            (Ok(300), 300),
            (refused(None, Fault::Overfull, Place::Card), 15 << 24),
            (
                refused(second, Fault::Line, Place::Line(5)),
                (9 << 24) + (2 << 20) + (3 << 16) + 5,
            ),
            (
                refused(first, Fault::Short, Place::Card),
                (1 << 24) + (1 << 20),
            ),
            (refused(None, Fault::Other(0), Place::Card), 8 << 16),
            (
                refused(second, Fault::Other(0), Place::Card),
                (2 << 20) + (8 << 16),
            ),
        ];
        for (answer, number) in answers {
            assert_eq!(rt; packed_join(answer), number);
        }
    }

    #[test]
    fn any_source_is_told(rt: HostRuntime) {
        let first = Some(Which::First);
        let held = |card| Ok(LineSource { card, at: 40 });
        let answers = [
            (held(Which::First), (1 << 20) + 40),
            (held(Which::Second), (2 << 20) + 40),
            (
                refused(None, Fault::NoLine, Place::Line(9)),
                (16 << 24) + (3 << 16) + 9,
            ),
            (
                refused(first, Fault::Other(0), Place::Card),
                (1 << 20) + (8 << 16),
            ),
            (refused(None, Fault::Other(0), Place::Sheet), 4 << 16),
        ];
        for (answer, number) in answers {
            assert_eq!(rt; packed_source(answer), number);
        }
    }
}
