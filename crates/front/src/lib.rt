// The checks 1 to 5: the card's front (01, "Refused, and where").
#![tactic(auto)]

ghost use Rattle.std.specs.Prelude.{◌≡◌, ◌≤◌, length};
ghost use Rattle.card.specs.Format.{card_length};
ghost use Rattle.card.specs.Verdict.{told};
ghost use Rattle.card.specs.Fault.{in_range, front_fault};

use card::format::{byte, word};
use card::{Fault, Place, Refusal, refuse};

// P, T, N and d are in range.
#[tactic(auto, unfolding(card::specs::Fault::in_range))]
fn in_range(card: &[u8]) -> bool
    requires { 11 ≤ length card.now }
    ensures { result ≡ in_range card.now }
{
    let p = byte(card, 3);
    let t = byte(card, 4);
    let n = word(card, 5);
    let d = byte(card, 9);
    p <= 64 && t <= 64 && 1 <= n && n <= 512 && d <= 16
}

// 11 + 5N + 2P + 3T
fn length_asked(card: &[u8]) -> usize
    requires { 11 ≤ length card.now }
    ensures { result ≡ card_length card.now }
{
    11 + 5 * word(card, 5) + 2 * byte(card, 3) + 3 * byte(card, 4)
}

// 1 to 5: the card's front.
pub fn front_check(card: &[u8]) -> Result<(), Refusal>
    ensures { told result ≡ front_fault card.now }
{
    // 1: fewer than 11 bytes.
    refuse(card.len() < 11, Fault::Short, Place::Card)?;
    // 2: the length field differs from the bytes lent.
    refuse(word(card, 0) != card.len(), Fault::LengthField, Place::Card)?;
    // 3: the version is not 1.
    refuse(byte(card, 2) != 1, Fault::Version, Place::Card)?;
    // 4: P, T, N or d is out of range.
    refuse(!in_range(card), Fault::Range, Place::Card)?;
    // 5: the length formula is not met.
    refuse(length_asked(card) != card.len(), Fault::Size, Place::Card)
}
