// An answer packed into one number (include/kit_planner.h).
#![tactic(auto)]

ghost use Rattle.std.specs.Prelude.{◌≡◌, ◌<◌, ◌≤◌, IfErr};
ghost use Rattle.card.specs.Verdict.{number_of, where_of};
ghost use Rattle.planning.specs.Plan.{told_plan};
ghost use Rattle.reader.specs.Read.{told_read};
ghost use Rattle.numbers.specs.Numbers.{number_in, card_in, place_in, index_in, place_of, Plain, plan_in, read_in};

use card::{Place, Refusal};

// The parts of a number that tells no card.
pub fn packed(number: u8, place: u8, index: u16) -> u32
    requires { place < 16 }
    ensures parts { (number_in result ≡ number) × (place_in result ≡ place) × (index_in result ≡ index) }
    ensures no_card { card_in result ≡ 0 }
{
    (u32::from(number) << 24) + (u32::from(place) << 16) + u32::from(index)
}

// A place's number and its index, 0 where it has none.
#[tactic(auto, unfolding(crate::specs::Numbers::place_of, crate::specs::Numbers::places, card::specs::Verdict::where_of))]
fn place_parts(place: Place) -> (u8, u16)
    ensures known { result.0 < 8 }
    ensures bare { place_of result.0 0 ≡ place_of result.0 1 → result.1 ≡ 0 }
    ensures placed { place_of result.0 result.1 ≡ where_of place }
{
    match place {
        Place::Card => (0, 0),
        Place::Node(i) => (1, i),
        Place::Rule(i) => (2, i),
        Place::Line(i) => (3, i),
        Place::Sheet => (4, 0),
        Place::Steps => (5, 0),
        Place::Mark(i) => (6, i),
        Place::Step(i) => (7, i),
    }
}

// A refusal, each place with its number and index.
#[tactic(auto, unfolding(crate::specs::Numbers::places))]
pub fn packed_refusal(refusal: Refusal) -> u32
    ensures parts { (number_in result ≡ number_of refusal.fault)
        × (place_of (place_in result) (index_in result) ≡ where_of refusal.place) }
    ensures plain { Plain result }
    ensures no_card { card_in result ≡ 0 }
{
    let (place, index) = place_parts(refusal.place);
    packed(refusal.fault.number(), place, index)
}

// A refusal with the number 0, at this place. It is not read as none: the card's place, which is 0, is told as 8, and read as the card too.
#[tactic(auto, unfolding(crate::specs::Numbers::place_of, crate::specs::Numbers::places))]
pub fn packed_unnumbered(place: Place) -> u32
    ensures parts { (number_in result ≡ 0) × (place_of (place_in result) (index_in result) ≡ where_of place) }
    ensures placed { 1 ≤ place_in result }
    ensures plain { Plain result }
    ensures no_card { card_in result ≡ 0 }
{
    let (p, index) = place_parts(place);
    packed(0, if p == 0 { 8 } else { p }, index)
}

// The planner's answer, or the reader's. Its refusal may have any number.
pub fn packed_answer(answer: Result<u8, Refusal>) -> u32
    ensures plan { plan_in result ≡ told_plan answer }
    ensures read { read_in result ≡ told_read answer }
    ensures plain { Plain result }
    ensures no_card { card_in result ≡ 0 }
{
    match answer {
        Err(refusal) if refusal.fault.number() == 0 => packed_unnumbered(refusal.place),
        _ => packed_numbered(answer),
    }
}

// The planner's answer, or the reader's, whose refusal has a number that is not 0.
pub fn packed_numbered(answer: Result<u8, Refusal>) -> u32
    requires { IfErr answer (λ refusal. 1 ≤ number_of refusal.fault) }
    ensures plan { plan_in result ≡ told_plan answer }
    ensures read { read_in result ≡ told_read answer }
    ensures plain { Plain result }
    ensures no_card { card_in result ≡ 0 }
{
    match answer {
        Ok(k) => packed(0, 0, u16::from(k)),
        Err(refusal) => packed_refusal(refusal),
    }
}

#[cfg(test)]
mod tests {
    use super::*;
    use card::Fault;

    #[test]
    fn any_number_is_told(rt: HostRuntime) {
        let refused = |fault, place| Err(Refusal { fault, place });
        let answers = [
            (Ok(0), 0),
            (Ok(7), 7),
            (refused(Fault::NoList, Place::Card), 11 << 24),
            (
                refused(Fault::Step, Place::Step(3)),
                (13 << 24) + (7 << 16) + 3,
            ),
            (refused(Fault::Other(0), Place::Card), 8 << 16),
            (refused(Fault::Other(0), Place::Sheet), 4 << 16),
            (
                refused(Fault::Other(200), Place::Node(300)),
                (200 << 24) + (1 << 16) + 300,
            ),
        ];
        for (answer, number) in answers {
            assert_eq!(rt; packed_answer(answer), number);
        }
    }
}
