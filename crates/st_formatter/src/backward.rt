// A text that is written from its end.
ghost use Rattle.std.specs.Prelude.{◌≡◌, ◌==◌, ◌<◌, [], ◌∷◌, ◌++◌, length, reverse, None, IfOk, OnOk, replicate};
ghost use Rattle.std.specs.List.{list_any};
ghost use Rattle.rb_base.specs.Names.{name_at};
ghost use Rattle.rb_base.specs.Doubling.{doubled};
ghost use Rattle.tree_model.specs.Tree.{map_names};
ghost use Rattle.tree_model.specs.AllNames.{AllNames};
ghost use Rattle.text_model.specs.Expressions.{expression_text};
ghost use Rattle.st_formatter.specs.Known.{AreKnown, AreKnown-prop};

use rb_base::{Memory, Names};
use st_tree::Node;
use std::alloc::Global;
use std::marker::Model;
use std::mem::replace;

/// An expression or a return of a sequence of this level, which is still to be written.
#[derive(Drop)]
pub(crate) struct Gap<'n, 's> {
    pub node: &'n Node,
    pub level: usize,
    pub names: &'s Names,
    ghost known: { AreKnown (length names.now) node.now } by { AreKnown-prop (length names.now) node.now },
}

/// A gap, and the bytes between it and the next one, from the last to the first.
#[derive(Drop)]
struct Part<'n, 's> {
    gap: Gap<'n, 's>,
    after: Vec<u8>,
}

/// A text that grows at its front: whether a block stands on one line is known only when what is in it has been seen,
/// so the end of a text is written before its beginning. What stands too deep in a tree is left out as a gap, so that
/// nothing recurs without a bound. Contracts see the text as it reads, with what belongs in its gaps.
#[derive(Drop)]
pub(crate) struct Backward<'n, 's> {
    alloc: Global,
    reversed: Vec<u8>,
    /// What stands after the bytes, from the last part to the first.
    behind: Vec<Part<'n, 's>>,
}

impl<'n, 's> Model for Backward<'n, 's> {
    ghost use Rattle.std.specs.Prelude.{ℕ, List, ◌++◌};
    ghost use Rattle.std.specs.Prelude.{reverse};

    ghost Value = { List ℕ };

    ghost use Rattle.st_formatter.specs.Parts.{parts_text};

    ghost view = { λ a. reverse a.reversed.items ++ parts_text a.behind.items };
}

impl<'n, 's> Backward<'n, 's> {
    ghost use Rattle.st_formatter.specs.Parts.{maybe_text};

    /// The empty text, with room for so many bytes.
    pub fn with_room(alloc: Global, bytes: usize) -> Result<Backward<'n, 's>, Memory>
        ensures { IfOk result (λ text. text ≡ []) }
    {
        let reversed = Vec::with_capacity(alloc, bytes)?;
        Ok(Backward {
            alloc,
            reversed,
            behind: Vec::new(alloc),
        })
    }

    /// What gives the memory.
    pub fn alloc(&self) -> Global {
        self.alloc
    }

    /// Writes a byte before the text.
    pub fn put_byte(&mut self, byte: u8) -> Result<(), Memory>
        ensures { OnOk result (self.new ≡ byte ∷ self.old) }
    {
        self.reversed.push(byte)?;
        Ok(())
    }

    /// Writes a piece before the text.
    pub fn put(&mut self, piece: &[u8]) -> Result<(), Memory>
        ensures { OnOk result (self.new ≡ piece.now ++ self.old) }
    {
        let at = self.reversed.len();
        self.reversed.extend_from_slice(piece)?;
        self.reversed[at..].reverse();
        Ok(())
    }

    /// Writes a piece with each quote in it doubled before the text.
    #[tactic(auto, using(crate::proofs::Pieces::quote_rules))]
    pub fn put_doubled(&mut self, piece: &[u8]) -> Result<(), Memory>
        ensures { OnOk result (self.new ≡ doubled 39 piece.now ++ self.old) }
    {
        if !has_quote(piece) {
            return self.put(piece);
        }
        let mut at = piece.len();
        while at > 0 {
            at -= 1;
            self.put_in_string(piece[at])?;
        }
        Ok(())
    }

    /// Writes a byte of a string before the text: a quote twice.
    fn put_in_string(&mut self, byte: u8) -> Result<(), Memory>
        ensures { OnOk result (self.new ≡ doubled 39 (byte ∷ []) ++ self.old) }
    {
        self.put_byte(byte)?;
        if byte == b'\'' {
            self.put_byte(byte)?;
        }
        Ok(())
    }

    /// Writes tabs before the text.
    pub fn put_tabs(&mut self, count: usize) -> Result<(), Memory>
        ensures { OnOk result (self.new ≡ replicate count 9 ++ self.old) }
    {
        for _ in 0..count {
            self.put_byte(b'\t')?;
        }
        Ok(())
    }

    /// Leaves a gap before the text for what is written of a node of a sequence of this level.
    pub fn put_gap(&mut self, node: &'n Node, level: usize, names: &'s Names) -> Result<(), Memory>
        requires { AllNames (λ n. n < length names.now) node.now }
        ensures { OnOk result (self.new ≡ expression_text level (map_names (name_at names.now) node.now) ++ self.old) }
    {
        let after = replace(&mut self.reversed, Vec::new(self.alloc));
        let gap = Gap { node, level, names };
        self.behind.push(Part { gap, after })?;
        Ok(())
    }

    /// Moves the text before the first gap after the bytes that are done, and takes that gap out.
    pub fn take_gap(&mut self, done: &mut Vec<u8>) -> Result<Option<Gap<'n, 's>>, Memory>
        ensures text { IfOk result (λ gap. done.new.items ++ (maybe_text gap ++ self.new) ≡ done.old.items ++ self.old) }
        ensures end { IfOk result (λ gap. gap ≡ None → self.new ≡ []) }
    {
        let bytes = replace(&mut self.reversed, Vec::new(self.alloc));
        append_turned(bytes, done)?;
        match self.behind.pop() {
            None => Ok(None),
            Some(Part { gap, after }) => {
                self.reversed = after;
                Ok(Some(gap))
            }
        }
    }
}

/// Appends bytes from the last to the first.
fn append_turned(bytes: Vec<u8>, done: &mut Vec<u8>) -> Result<(), Memory>
    ensures { OnOk result (done.new.items ≡ done.old.items ++ reverse bytes.items) }
{
    let mut turned = bytes;
    turned.reverse();
    if done.is_empty() {
        *done = turned;
        return Ok(());
    }
    done.append(&mut turned)?;
    Ok(())
}

/// Whether the bytes have a quote among them.
fn has_quote(bytes: &[u8]) -> bool
    ensures { result ≡ list_any (λ b. b == 39) bytes.now }
{
    bytes.iter().any(|byte| *byte == b'\'')
}
