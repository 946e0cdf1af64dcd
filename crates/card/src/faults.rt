// What a refusal says (01, "Refused, and where").
ghost use Rattle.std.specs.Prelude.{◌≡◌};
ghost use Rattle.card.specs.Verdict.{number_of};

use std::error::Error;
use std::fmt;

// 01: "the place names its thing"; 02, #102: "place step i".
#[derive(Clone, Copy, Debug, PartialEq, Eq)]
pub enum Place {
    Card,
    Node(u16),
    Rule(u16),
    Line(u16),
    Sheet,
    Steps,
    Mark(u16),
    Step(u16),
}

// What each number of a refusal says.
#[derive(Clone, Copy, Debug, PartialEq, Eq)]
pub enum Fault {
    // 1 to 5: the card's front.
    Short,
    LengthField,
    Version,
    Range,
    Size,
    // 6 to 9: its nodes, its goal, its rules and its lines.
    Node,
    Goal,
    Rule,
    Line,
    // 10 and 11: no room for the sheet or the joined card, and no list.
    NoRoom,
    NoList,
    // 12 to 14: a sheet's front, its steps and its marks.
    SheetFront,
    Step,
    Mark,
    // 15 and 16: two cards do not fit on one, and no such line stands on the joined card.
    Overfull,
    NoLine,
    // 17 to 19: nested too deep, ended too early or too late, and items that do not divide.
    Depth,
    StepCount,
    Undivided,
    // A number that no check here tells: of who builds on these.
    Other(u8),
}

impl Fault {
    // 01's number, or another's.
    pub fn number(self) -> u8
        ensures { result ≡ number_of self }
    {
        match self {
            Fault::Short => 1,
            Fault::LengthField => 2,
            Fault::Version => 3,
            Fault::Range => 4,
            Fault::Size => 5,
            Fault::Node => 6,
            Fault::Goal => 7,
            Fault::Rule => 8,
            Fault::Line => 9,
            Fault::NoRoom => 10,
            Fault::NoList => 11,
            Fault::SheetFront => 12,
            Fault::Step => 13,
            Fault::Mark => 14,
            Fault::Overfull => 15,
            Fault::NoLine => 16,
            Fault::Depth => 17,
            Fault::StepCount => 18,
            Fault::Undivided => 19,
            Fault::Other(number) => number,
        }
    }
}

// 01: "A refusal is a number with a place".
#[derive(Clone, Copy, Debug, PartialEq, Eq)]
pub struct Refusal {
    pub fault: Fault,
    pub place: Place,
}

impl fmt::Display for Place {
    fn fmt<W: fmt::Write>(&self, f: &mut fmt::Formatter<W>) -> fmt::Result {
        match self {
            Place::Card => write!(f, "card"),
            Place::Node(i) => write!(f, "node {i}"),
            Place::Rule(i) => write!(f, "rule {i}"),
            Place::Line(i) => write!(f, "line {i}"),
            Place::Sheet => write!(f, "sheet"),
            Place::Steps => write!(f, "steps"),
            Place::Mark(i) => write!(f, "mark {i}"),
            Place::Step(i) => write!(f, "step {i}"),
        }
    }
}

impl fmt::Display for Refusal {
    fn fmt<W: fmt::Write>(&self, f: &mut fmt::Formatter<W>) -> fmt::Result {
        write!(f, "refused {} {}", self.fault.number(), self.place)
    }
}

impl Error for Refusal {}
