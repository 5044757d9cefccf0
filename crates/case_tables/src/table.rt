// A table as it is read, from its first byte to its last.
ghost use Rattle.std.specs.Prelude.{◌≡◌, ◌-◌, ◌+◌, ◌==◌, ◌≤◌, ◌<◌, ◌++◌, ◌∷◌, [], ℕ, length, take, count_by, decimal, position, not, IfOk, IfErr, OnOk, OnErr, IsTrue};
ghost use Rattle.std.specs.Char.{is_ascii_digit};
ghost use Rattle.case_tables.specs.CaseTexts.{ReadsPieces, ReadsPiece, bytes_text, repeated, counted, with_number, IsLine};
ghost use Rattle.case_tables.specs.TableFaults.{Lacks, LacksPiece, IsWrongAt};

use crate::fault::{Fault, TableFault};
use itoa::Buffer;
use std::alloc::AllocError;
use std::str;

/// The place of a number in the bytes of a `count` piece.
const PLACE: u8 = b'@';

/// A table, and how far it is read.
#[derive(Drop)]
pub struct Table<'t> {
    whole: &'t [u8],
    /// What is still to be read.
    pub rest: &'t [u8],
}

impl<'t> Table<'t> {
    /// A table of which nothing is read.
    pub fn new(whole: &'t [u8]) -> Table<'t>
        ensures whole { result.whole.now ≡ whole.now }
        ensures rest { result.rest.now ≡ whole.now }
    {
        Table { whole, rest: whole }
    }

    /// This fault at the line of what is to be read next.
    pub fn fault(&self, cause: TableFault) -> Fault
        ensures cause { result.cause ≡ cause }
        ensures line { result.line ≡ count_by (λ byte. byte == 10) (take (length self.now.whole.now - length self.now.rest.now) self.now.whole.now) + 1 }
    {
        let read = &self.whole[..self.whole.len().saturating_sub(self.rest.len())];
        let lines = read.iter().filter(|byte| **byte == b'\n').count();
        Fault {
            line: lines.saturating_add(1),
            cause,
        }
    }

    /// Reads this text, where it stands next.
    pub fn skip(&mut self, text: &str) -> bool
        ensures read { IsTrue result → self.old.rest.now ≡ text.now ++ self.new.rest.now }
        ensures unread { ¬ IsTrue result → self.new.rest.now ≡ self.old.rest.now }
        ensures lacks { ¬ IsTrue result → Lacks text.now self.new.rest.now }
    {
        match self.rest.strip_prefix(text.as_bytes()) {
            Some(rest) => {
                self.rest = rest;
                true
            }
            None => false,
        }
    }

    /// Reads this text, or answers the fault where another one stands next.
    pub fn want(&mut self, text: &str, fault: TableFault) -> Result<(), TableFault>
        ensures ok { OnOk result (self.old.rest.now ≡ text.now ++ self.new.rest.now) }
        ensures err { IfErr result (λ cause. (cause ≡ fault) × (self.new.rest.now ≡ self.old.rest.now) × Lacks text.now self.new.rest.now) }
        ensures shorter { length self.new.rest.now ≤ length self.old.rest.now }
    {
        if self.skip(text) { Ok(()) } else { Err(fault) }
    }

    /// Reads a number, which stands as it is printed.
    pub fn number(&mut self) -> Result<u32, TableFault>
        ensures ok { IfOk result (λ number. self.old.rest.now ≡ decimal number ++ self.new.rest.now) }
        ensures wrong { IfErr result (λ fault. IsWrongAt fault self.new.rest.now) }
        ensures shorter { length self.new.rest.now ≤ length self.old.rest.now }
    {
        let end = digits_end(self.rest).unwrap_or(self.rest.len());
        let digits = &self.rest[..end];
        let Ok(digits) = str::from_utf8(digits) else {
            return Err(TableFault::Number);
        };
        let Ok(number) = digits.parse::<u32>() else {
            return Err(TableFault::Number);
        };
        self.want(Buffer::new().format(number), TableFault::Number)?;
        Ok(number)
    }

    /// Reads a number and the end of its line.
    pub fn last_number(&mut self) -> Result<u32, TableFault>
        ensures ok { IfOk result (λ number. self.old.rest.now ≡ decimal number ++ 10 ∷ self.new.rest.now) }
        ensures wrong { IfErr result (λ fault. IsWrongAt fault self.new.rest.now) }
        ensures shorter { length self.new.rest.now ≤ length self.old.rest.now }
    {
        let number = self.number()?;
        self.want("\n", TableFault::LineFeed)?;
        Ok(number)
    }

    /// Reads a number and the blank behind it.
    pub fn first_number(&mut self) -> Result<u32, TableFault>
        ensures ok { IfOk result (λ number. self.old.rest.now ≡ decimal number ++ 32 ∷ self.new.rest.now) }
        ensures wrong { IfErr result (λ fault. IsWrongAt fault self.new.rest.now) }
        ensures shorter { length self.new.rest.now ≤ length self.old.rest.now }
    {
        let number = self.number()?;
        self.want(" ", TableFault::Blank)?;
        Ok(number)
    }

    /// Reads the rest of a line.
    pub fn line(&mut self) -> Result<&'t str, TableFault>
        ensures ok { IfOk result (λ text. self.old.rest.now ≡ text.now ++ 10 ∷ self.new.rest.now) }
        ensures line { IfOk result (λ text. IsLine text.now) }
        ensures wrong { IfErr result (λ fault. IsWrongAt fault self.new.rest.now) }
        ensures shorter { length self.new.rest.now ≤ length self.old.rest.now }
    {
        let end = line_end(self.rest).unwrap_or(self.rest.len());
        let (line, rest) = self.rest.split_at(end);
        let Ok(text) = str::from_utf8(line) else {
            return Err(TableFault::Utf8);
        };
        self.rest = rest;
        self.want("\n", TableFault::LineFeed)?;
        Ok(text)
    }

    /// Reads the length of bytes, the end of its line, the bytes and the line feed behind them.
    pub fn bytes(&mut self) -> Result<&'t [u8], TableFault>
        ensures ok { IfOk result (λ bytes. self.old.rest.now ≡ bytes_text bytes.now ++ self.new.rest.now) }
        ensures wrong { IfErr result (λ fault. IsWrongAt fault self.new.rest.now) }
        ensures shorter { length self.new.rest.now ≤ length self.old.rest.now }
    {
        let length = self.last_number()?;
        let Some((bytes, rest)) = self.rest.split_at_checked(length as usize) else {
            return Err(TableFault::BytesEnd(self.rest.len()));
        };
        self.rest = rest;
        self.want("\n", TableFault::LineFeed)?;
        Ok(bytes)
    }

    /// Reads bytes that are UTF-8. Where they are not, they are still to be read.
    pub fn text(&mut self) -> Result<&'t str, TableFault>
        ensures ok { IfOk result (λ text. self.old.rest.now ≡ bytes_text text.now ++ self.new.rest.now) }
        ensures wrong { IfErr result (λ fault. IsWrongAt fault self.new.rest.now) }
        ensures shorter { length self.new.rest.now ≤ length self.old.rest.now }
    {
        let start = self.rest;
        let bytes = self.bytes()?;
        match str::from_utf8(bytes) {
            Ok(text) => Ok(text),
            Err(_) => {
                self.rest = start;
                Err(TableFault::Utf8)
            }
        }
    }

    /// Appends the bytes of the pieces that stand next, up to where no piece begins.
    pub fn pieces(&mut self, into: &mut Vec<u8>) -> Result<(), TableFault>
        ensures ok { OnOk result (ReadsPieces self.old.rest.now self.new.rest.now into.old.items into.new.items) }
        ensures end { OnOk result (LacksPiece self.new.rest.now) }
        ensures wrong { IfErr result (λ fault. IsWrongAt fault self.new.rest.now) }
        ensures shorter { length self.new.rest.now ≤ length self.old.rest.now }
    {
        while self.piece(into)? {}
        Ok(())
    }

    /// Appends the bytes of the piece that stands next, and tells whether there was one.
    fn piece(&mut self, into: &mut Vec<u8>) -> Result<bool, TableFault>
        ensures shorter { length self.new.rest.now ≤ length self.old.rest.now }
        ensures less { IfOk result (λ read. IsTrue read → length self.new.rest.now < length self.old.rest.now) }
        ensures read { IfOk result (λ read. IsTrue read → ReadsPiece self.old.rest.now self.new.rest.now into.old.items into.new.items) }
        ensures unread { IfOk result (λ read. ¬ IsTrue read → (self.new.rest.now ≡ self.old.rest.now) × (into.new.items ≡ into.old.items) × LacksPiece self.new.rest.now) }
        ensures wrong { IfErr result (λ fault. IsWrongAt fault self.new.rest.now) }
    {
        if self.skip("text ") {
            into.extend_from_slice(self.bytes()?)?;
        } else if self.skip("repeat ") {
            let times = self.first_number()?;
            push_times(into, times, self.bytes()?)?;
        } else if self.skip("count ") {
            let from = self.first_number()?;
            let before = self.first_number()?;
            push_count(into, from, before, self.bytes()?)?;
        } else {
            return Ok(false);
        }
        Ok(true)
    }
}

/// The place of the first byte that is no digit.
fn digits_end(bytes: &[u8]) -> Option<usize>
    ensures { result ≡ position (λ byte. not (is_ascii_digit byte)) bytes.now }
{
    bytes.iter().position(|byte| !byte.is_ascii_digit())
}

/// The place of the first line feed.
fn line_end(bytes: &[u8]) -> Option<usize>
    ensures { result ≡ position (λ byte. byte == 10) bytes.now }
{
    bytes.iter().position(|byte| *byte == b'\n')
}

/// Appends the bytes so many times.
fn push_times(into: &mut Vec<u8>, times: u32, bytes: &[u8]) -> Result<(), AllocError>
    ensures { OnOk result (into.new.items ≡ into.old.items ++ repeated times bytes.now) }
{
    for _ in 0..times {
        into.extend_from_slice(bytes)?;
    }
    Ok(())
}

/// Appends the bytes for each number from `from` to before `before`.
fn push_count(into: &mut Vec<u8>, from: u32, before: u32, bytes: &[u8]) -> Result<(), AllocError>
    ensures { OnOk result (into.new.items ≡ into.old.items ++ counted from (before - from) bytes.now) }
{
    for number in from..before {
        push_numbered(into, number, bytes)?;
    }
    Ok(())
}

/// Appends the bytes with the digits of the number in the place of each `@`.
fn push_numbered(into: &mut Vec<u8>, number: u32, bytes: &[u8]) -> Result<(), AllocError>
    ensures { OnOk result (into.new.items ≡ into.old.items ++ with_number number bytes.now) }
{
    let mut buffer = Buffer::new();
    let digits = buffer.format(number).as_bytes();
    for byte in bytes {
        if *byte == PLACE {
            into.extend_from_slice(digits)?;
        } else {
            into.push(*byte)?;
        }
    }
    Ok(())
}
