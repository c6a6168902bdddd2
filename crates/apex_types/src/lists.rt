ghost use Rattle.std.specs.Prelude.{◌≡◌, [], ◌∷◌, ◌++◌, ◌<◌, ◌↔◌, length, IfOk, OnOk, OnErr, IsTrue, Contains, slice_get, Some};

use crate::codes::OutOfMemory;
use crate::kinds::CallKind;
use crate::text::Token;
use std::alloc::Global;
use std::marker::Model;

/// A list of numbers that grows.
#[derive(Drop)]
pub struct NumberList {
    content: Vec<u64>,
}

impl Model for NumberList {
    ghost use Rattle.std.specs.Prelude.{List, ℕ};

    ghost Value = { List ℕ };

    ghost view = { λ t. t.content.items };
}

impl NumberList {
    pub fn new(alloc: Global) -> NumberList
        ensures { result ≡ [] }
    {
        NumberList {
            content: Vec::new(alloc),
        }
    }

    /// Adds a number at the end. Without memory the list is as it was.
    pub fn push(&mut self, number: u64) -> Result<(), OutOfMemory>
        ensures ok { OnOk result (self.new ≡ self.old ++ number ∷ []) }
        ensures err { OnErr result (self.new ≡ self.old) }
    {
        self.content.push(number)?;
        Ok(())
    }

    /// Whether the list holds this number.
    pub fn has(&self, number: u64) -> bool
        ensures { IsTrue result ↔ Contains self.now number }
    {
        self.content.contains(&number)
    }
}

/// Which calls fail: pairs of a kind and a number, counted from 1 within the kind.
#[derive(Drop)]
pub struct FailList {
    content: Vec<(CallKind, u64)>,
}

impl Model for FailList {
    ghost use Rattle.std.specs.Prelude.{List, ℕ};
    ghost use Rattle.apex_types.specs.declared.kinds.CallKind.{CallKind};

    ghost Value = { List (CallKind × ℕ) };

    ghost view = { λ t. t.content.items };
}

impl FailList {
    pub fn new(alloc: Global) -> FailList
        ensures { result ≡ [] }
    {
        FailList {
            content: Vec::new(alloc),
        }
    }

    /// Adds a pair at the end. Without memory the list is as it was.
    pub fn push(&mut self, kind: CallKind, number: u64) -> Result<(), OutOfMemory>
        ensures ok { OnOk result (self.new ≡ self.old ++ (kind, number) ∷ []) }
        ensures err { OnErr result (self.new ≡ self.old) }
    {
        self.content.push((kind, number))?;
        Ok(())
    }

    /// Whether the list holds this pair.
    pub fn has(&self, kind: CallKind, number: u64) -> bool
        ensures listed { IsTrue result → Contains self.now (kind, number) }
        ensures all { Contains self.now (kind, number) → IsTrue result }
    {
        for call in &self.content {
            if call.0 == kind && call.1 == number {
                return true;
            }
        }
        false
    }
}

/// The words of a command line.
#[derive(Drop)]
pub struct Words {
    content: Vec<Token>,
}

impl Model for Words {
    ghost use Rattle.std.specs.Prelude.{List, ℕ};

    ghost Value = { List (List ℕ) };

    ghost view = { λ t. t.content.items };
}

impl Words {
    pub fn new(alloc: Global) -> Words
        ensures { result ≡ [] }
    {
        Words {
            content: Vec::new(alloc),
        }
    }

    /// Adds a word at the end. Without memory the list is as it was.
    pub fn push(&mut self, word: &[u8]) -> Result<(), OutOfMemory>
        ensures ok { OnOk result (self.new ≡ self.old ++ word.now ∷ []) }
        ensures err { OnErr result (self.new ≡ self.old) }
    {
        let token = Token::read(*self.content.allocator(), word)?;
        self.content.push(token)?;
        Ok(())
    }

    pub fn len(&self) -> usize
        ensures { result ≡ length self.now }
    {
        self.content.len()
    }

    pub fn word(&self, k: usize) -> &[u8]
        requires { k < length self.now }
        ensures { slice_get self.now k ≡ Some result.now }
    {
        self.content[k].bytes()
    }
}
