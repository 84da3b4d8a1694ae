// Lines of an input, read in pieces.
ghost use Rattle.std.specs.Prelude.{◌≡◌, ◌≤◌, ◌<◌, ◌↔◌, ◌++◌, ◌∷◌, [], ℕ, List, true, false, length, take, slice_index, IsTrue, IfOk, IfErr, OnErr};
ghost use Rattle.failure.specs.Counts.{HasCause, Rose};
ghost use Rattle.wt_io.specs.Streams.{AtEnd, Gave};
ghost use Rattle.script_run.specs.Lines.{is_unbroken, GaveMore, IsFilled, NextLine, Takes};
ghost use Rattle.script_run.specs.declared.lines.NoLine.TheVariants.{Failed as OfSource, NoMemory as OfMemory};
ghost use Rattle.script_text.specs.declared.parse.TheConstants.{LINE_MAX};

use failure::{Failed, NoMemory};
use script_text::LINE_MAX;
use std::alloc::Global;
use std::marker::Model;
use wt_io::Source;

/// Why there is no line.
#[derive(Clone, Copy, PartialEq, Eq, Debug)]
pub enum NoLine {
    /// The source failed.
    Failed,
    /// Memory is wanted.
    NoMemory,
}

impl From<Failed> for NoLine {
    ghost from_gives = { λ _ e. e ≡ OfSource };

    fn from(_: Failed) -> Self {
        NoLine::Failed
    }
}

impl From<NoMemory> for NoLine {
    ghost from_gives = { λ _ e. e ≡ OfMemory };

    fn from(_: NoMemory) -> Self {
        NoLine::NoMemory
    }
}

/// A reader of lines. Its buffer and its line are used again for each.
#[derive(Drop)]
pub struct Lines {
    buffer: Vec<u8>,
    // The bytes of the buffer that are not taken yet.
    at: usize,
    end: usize,
    line: Vec<u8>,
    ended: bool,
}

impl Model for Lines {
    ghost use Rattle.std.specs.Prelude.{◌≤◌, ◌<◌, length, take, drop};
    ghost use Rattle.script_run.specs.Lines.{Held};

    ghost Value = { Held };

    ghost view = { λ l. record { behind = drop l.at (take l.end l.buffer.items); line = l.line.items; ended = l.ended } };

    ghost invariant = { λ l. (l.at ≤ l.end) × (l.end ≤ length l.buffer.items) × (0 < length l.buffer.items) };
}

// How much is read at once, in bytes.
const PIECE: usize = 4_096;

impl Lines {
    /// A reader that has read nothing.
    pub fn new(alloc: Global) -> Result<Lines, NoMemory>
        ensures { IfOk result (λ l. l ≡ record { behind = []; line = []; ended = false }) }
    {
        let buffer = vec![in alloc; 0u8; PIECE]?;
        Ok(Lines {
            buffer,
            at: 0,
            end: 0,
            line: Vec::new(alloc),
            ended: false,
        })
    }

    /// The line that was read last, without its newline.
    pub fn line(&self) -> &[u8]
        ensures { result.now ≡ self.now.line }
    {
        self.line.as_slice()
    }

    /// Reads the next line, and tells whether there is one. It ends at its newline, at the end of
    /// the input, or at its byte behind the greatest length. Behind the end nothing more is read.
    pub fn next<S: Source>(&mut self, input: &mut S) -> Result<bool, NoLine>
        requires { IsTrue self.old.ended → AtEnd (S.left input.old) }
        ensures line { (given : List ℕ) × GaveMore self.old.ended (S.left input.old) (S.left input.new) given × IfOk result (λ some. NextLine some self.old self.new given) }
        ensures ended { IfOk result (λ some. IsTrue self.new.ended → AtEnd (S.left input.new)) }
        ensures stays { IfOk result (λ some. IsTrue self.old.ended → IsTrue self.new.ended) }
        ensures failed { IfErr result (λ e. e ≡ NoLine.Failed → Rose (S.fault_count input.old) (S.fault_count input.new)) }
        ensures later { S.fault_count input.old ≤ S.fault_count input.new }
    {
        self.line.clear();
        if self.take_front()? {
            return Ok(true);
        }
        while !self.ended {
            self.fill(input)?;
            if self.take_front()? {
                return Ok(true);
            }
        }
        Ok(!self.line.is_empty())
    }

    // Reads into the buffer, all of which is taken.
    fn fill<S: Source>(&mut self, input: &mut S) -> Result<(), Failed>
        requires { self.old.behind ≡ [] }
        ensures gave { IfOk result (λ _. Gave (S.left input.old) (S.left input.new) self.new.behind) }
        ensures filled { IfOk result (λ _. IsFilled self.old self.new) }
        ensures ended { IfOk result (λ _. IsTrue self.new.ended → AtEnd (S.left input.new)) }
        ensures err { OnErr result (S.left input.new ≡ S.left input.old) }
        ensures cause { HasCause (S.fault_count input.old) (S.fault_count input.new) result }
    {
        let count = input.read(self.buffer.as_mut_slice())?;
        self.at = 0;
        self.end = count;
        self.ended = count == 0;
        Ok(())
    }

    // Takes bytes of the buffer to the line, and tells whether it ends there.
    fn take_front(&mut self) -> Result<bool, NoMemory>
        requires short { length self.old.line ≤ LINE_MAX }
        requires unbroken { is_unbroken self.old.line ≡ true }
        ensures { IfOk result (λ whole. Takes whole self.old self.new) }
    {
        let room = LINE_MAX + 1 - self.line.len();
        let piece = &self.buffer[self.at..self.end];
        let count = newline_at(piece).min(room);
        self.line.extend_from_slice(&piece[..count])?;
        self.at += count;
        if self.line.len() > LINE_MAX {
            return Ok(true);
        }
        if self.at == self.end {
            return Ok(false);
        }
        self.at += 1;
        Ok(true)
    }
}

// How many bytes stand before the first newline.
fn newline_at(piece: &[u8]) -> usize
    ensures within { result ≤ length piece.now }
    ensures front { is_unbroken (take result piece.now) ≡ true }
    ensures newline { result < length piece.now → slice_index piece.now result ≡ 10 }
{
    for (i, b) in piece.iter().enumerate() {
        if *b == b'\n' {
            return i;
        }
    }
    piece.len()
}
