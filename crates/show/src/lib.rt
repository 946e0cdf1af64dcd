// What the programs share: reading the input and its records, and printing sheets and bytes.
#![tactic(auto)]

ghost use Rattle.std.specs.Prelude.{◌≡◌, ◌+◌, ◌^◌, ◌≤◌, ◌<◌, ℕ, List, length, take, drop, Some, IfOk, MatchOption};
ghost use Rattle.std.specs.Iterator.{at_most};
ghost use Rattle.std.specs.Int.{from_be_bytes, w16};
ghost use Rattle.std.specs.Io.KnownBytes.{Consumes, IsAtEnd};
ghost use Rattle.card.specs.Format.{byte_at};

use std::io::Read;
use std::marker::Model;
use std::{fmt, io};

// Reads until the buffer is full or the input ends, and tells how many bytes it put at the buffer's start. What the input has behind
// them is left alone.
// An Err is the reader's own: the buffer keeps its length, and of what was read before it nothing is said.
pub fn read_full<R: Read>(input: &mut R, buffer: &mut [u8]) -> io::Result<usize>
    ensures within { IfOk result (λ n. n ≤ length buffer.new) }
    ensures bytes { IfOk result (λ n. Consumes (R.remaining input.old) (R.remaining input.new) (take n buffer.new)) }
    ensures end { IfOk result (λ n. n < length buffer.new → IsAtEnd (R.remaining input.new)) }
{
    let mut done = 0;
    while done < buffer.len() {
        let n = input.read(&mut buffer[done..])?;
        if n == 0 {
            return Ok(done);
        }
        done += n;
    }
    Ok(done)
}

// The bytes of the input that are left, from which a record's parts are taken one after another.
#[derive(Drop)]
pub struct Input<'a> {
    rest: &'a [u8],
}

impl<'a> Model for Input<'a> {
    ghost Value = { List ℕ };

    ghost view = { λ input. input.rest.now };
}

impl<'a> Input<'a> {
    pub fn new(bytes: &'a [u8]) -> Self
        ensures { result ≡ bytes.now }
    {
        Input { rest: bytes }
    }

    // The next n bytes; all that are left where they are fewer.
    pub fn part(&mut self, n: usize) -> &'a [u8]
        ensures taken { result.now ≡ take n self.old }
        ensures left { self.new ≡ drop n self.old }
    {
        let (part, rest) = self.rest.split_at(n.min(self.rest.len()));
        self.rest = rest;
        part
    }

    // A number of one byte, where one is left.
    fn byte(&mut self) -> Option<usize>
        ensures { MatchOption result ((length self.old ≡ 0) × (self.new ≡ self.old))
            (λ n. (0 < length self.old) × (n ≡ byte_at self.old 0) × (self.new ≡ drop 1 self.old)) }
    {
        let (byte, rest) = self.rest.split_first()?;
        self.rest = rest;
        Some(*byte as usize)
    }

    // A number of two bytes, where two are left.
    pub fn word(&mut self) -> Option<usize>
        ensures { MatchOption result ((length self.old < 2) × (self.new ≡ self.old))
            (λ n. (2 ≤ length self.old) × (n ≡ from_be_bytes w16 (take 2 self.old)) × (self.new ≡ drop 2 self.old)) }
    {
        let (bytes, rest) = self.rest.split_first_chunk()?;
        self.rest = rest;
        Some(u16::from_be_bytes(*bytes) as usize)
    }

    // A label: its length in one byte, then its bytes.
    pub fn label(&mut self) -> Option<&'a [u8]>
        ensures { MatchOption result ((length self.old ≡ 0) × (self.new ≡ self.old)) (λ label. (0 < length self.old)
            × (label.now ≡ take (byte_at self.old 0) (drop 1 self.old))
            × (self.new ≡ drop (byte_at self.old 0) (drop 1 self.old))) }
    {
        let n = self.byte()?;
        Some(self.part(n))
    }

    // The records that are left.
    pub fn records<T, R: Fn(&mut Input<'a>) -> Option<T>>(self, read: R) -> Records<'a, R>
        ensures { (result.input ≡ self.entry) × (result.read ≡ read) }
    {
        Records { input: self, read }
    }
}

// The records of an input: `read` takes one after another, until there is none.
#[derive(Drop)]
pub struct Records<'a, R> {
    input: Input<'a>,
    read: R,
}

impl<'a, T, R: Fn(&mut Input<'a>) -> Option<T>> Iterator for Records<'a, R> {
    type Item = T;

    ghost can_next = { λ s. R.IsAlwaysCallable s.read
        × ((before : _) (item : _) (after : _) → R.post s.read before (Some item) after
        → length after.now < length before.now) };

    ghost next_gives = { λ s r t. (t.read ≡ s.read) × ((before : _) × (after : _) × R.post s.read before r after × (before.now ≡ s.input) × (after.now ≡ t.input)) };

    ghost remaining = { λ s. at_most (length s.input) };

    fn next(&mut self) -> Option<T> {
        (self.read)(&mut self.input)
    }
}

// Each byte as a number, a space before it.
// Of this and of all that is printed here: an Err is the writer's own. What is lent to be printed is as it was, and what was written
// before the error stays written.
#[derive(Drop)]
pub struct Numbers<'a>(pub &'a [u8]);

impl fmt::Display for Numbers<'_> {
    fn fmt<W: fmt::Write>(&self, f: &mut fmt::Formatter<W>) -> fmt::Result {
        for n in self.0 {
            write!(f, " {n}")?;
        }
        Ok(())
    }
}

// Each byte as two hexadecimal digits, a space before them.
#[derive(Drop)]
pub struct Hex<'a>(pub &'a [u8]);

impl fmt::Display for Hex<'_> {
    fn fmt<W: fmt::Write>(&self, f: &mut fmt::Formatter<W>) -> fmt::Result {
        for byte in self.0 {
            write!(f, " {byte:02x}")?;
        }
        Ok(())
    }
}

// A sheet's steps and marks, of each fewer than 256.
#[derive(Drop)]
pub struct Sheet<'a> {
    pub steps: &'a [u8],
    pub marks: &'a [u8],
    ghost counted: { (length steps.now < 256) × (length marks.now < 256) },
}

impl<'a> Sheet<'a> {
    // The sheet at the buffer's start, of k steps; its byte 4 says how many marks it has.
    pub fn new(buffer: &'a [u8], k: u8) -> Self
        requires { 5 + k + byte_at buffer.now 4 ≤ length buffer.now }
        ensures steps { result.steps.now ≡ take k (drop 5 buffer.now) }
        ensures marks { result.marks.now ≡ take (byte_at buffer.now 4) (drop (5 + k) buffer.now) }
    {
        let sheet = LongSheet::new(buffer, k);
        Sheet {
            steps: sheet.steps,
            marks: sheet.marks,
        }
    }

    // The same as one that may be longer.
    fn long(&self) -> LongSheet<'a>
        ensures { (result.steps ≡ self.now.steps) × (result.marks ≡ self.now.marks) }
    {
        LongSheet {
            steps: self.steps,
            marks: self.marks,
        }
    }

    // Where it ends.
    pub fn end(&self) -> usize
        ensures { result ≡ 5 + length self.now.steps.now + length self.now.marks.now }
    {
        self.long().end()
    }
}

impl fmt::Display for Sheet<'_> {
    fn fmt<W: fmt::Write>(&self, f: &mut fmt::Formatter<W>) -> fmt::Result {
        self.long().fmt(f)
    }
}

// Steps and marks of any number, few enough that their sheet's end is a usize.
#[derive(Drop)]
pub struct LongSheet<'a> {
    pub steps: &'a [u8],
    pub marks: &'a [u8],
    ghost fits: { 5 + length steps.now + length marks.now < 2 ^ 64 },
}

impl<'a> LongSheet<'a> {
    // The sheet at the buffer's start, of k steps and t marks.
    pub fn of(buffer: &'a [u8], k: usize, t: usize) -> Self
        requires { 5 + k + t ≤ length buffer.now }
        ensures steps { result.steps.now ≡ take k (drop 5 buffer.now) }
        ensures marks { result.marks.now ≡ take t (drop (5 + k) buffer.now) }
    {
        let (steps, rest) = buffer[5..].split_at(k);
        let marks = &rest[..t];
        LongSheet { steps, marks }
    }

    // The sheet at the buffer's start, of k steps; its byte 4 says how many marks it has.
    pub fn new(buffer: &'a [u8], k: u8) -> Self
        requires { 5 + k + byte_at buffer.now 4 ≤ length buffer.now }
        ensures steps { result.steps.now ≡ take k (drop 5 buffer.now) }
        ensures marks { result.marks.now ≡ take (byte_at buffer.now 4) (drop (5 + k) buffer.now) }
    {
        let t = buffer[4] as usize;
        LongSheet::of(buffer, k as usize, t)
    }

    // Where it ends.
    pub fn end(&self) -> usize
        ensures { result ≡ 5 + length self.now.steps.now + length self.now.marks.now }
    {
        5 + self.steps.len() + self.marks.len()
    }
}

impl fmt::Display for LongSheet<'_> {
    fn fmt<W: fmt::Write>(&self, f: &mut fmt::Formatter<W>) -> fmt::Result {
        let k = self.steps.len();
        write!(
            f,
            "plan {k}{} marks{}",
            Numbers(self.steps),
            Numbers(self.marks)
        )
    }
}

#[cfg(test)]
mod tests {
    use super::*;

    #[test]
    fn sheets_have_their_parts(rt: HostRuntime) {
        let buffer = [0, 9, 1, 2, 2, 3, 4, 1, 0, 9];
        let sheet = Sheet::new(&buffer, 2);
        assert_eq!(rt; sheet.steps, [3, 4].as_slice());
        assert_eq!(rt; sheet.marks, [1, 0].as_slice());
        assert_eq!(rt; sheet.end(), 9);
        let long = LongSheet::new(&buffer, 2);
        assert_eq!(rt; long.end(), 9);
        assert_eq!(rt; LongSheet::of(&[7; 600], 1, 594).end(), 600);
    }
}
