ghost use Rattle.std.specs.Prelude.{◌≡◌, ◌+◌, ◌<◌, ◌≤◌, [], take, drop, replicate, ◌++◌, length, slice_index_or, slice_set, IfOk, IfErr};

use hl_model::{Fault, filled};
use std::alloc::Global;
use std::marker::Model;

/// The words of all frames, one frame behind the other: a row that neither grows nor shrinks.
#[derive(Drop)]
pub(crate) struct Cells {
    words: Vec<u64>,
}

impl Model for Cells {
    ghost use Rattle.std.specs.Prelude.{◌≡◌, ℕ, List, length, vec_capacity};

    ghost Value = { List ℕ };

    ghost view = { λ a. a.words.items };

    ghost invariant = { λ a. vec_capacity a.words ≡ length a.words.items };
}

impl Cells {
    /// Returns so many words, all 0.
    ///
    /// `OutOfMemory` if memory for them was refused.
    pub(crate) fn zeros(alloc: Global, count: u64) -> Result<Cells, Fault>
        ensures ok { IfOk result (λ cells. cells ≡ replicate count 0) }
        ensures err { IfErr result (λ fault. fault ≡ Fault.OutOfMemory) }
    {
        let words = filled(alloc, count, 0)?;
        Ok(Cells { words })
    }

    /// The word of a cell.
    pub(crate) fn word(&self, cell: usize) -> u64
        requires { cell < length self.now }
        ensures { result ≡ slice_index_or self.now cell 0 }
    {
        self.words[cell]
    }

    /// Writes the word of a cell.
    pub(crate) fn set(&mut self, cell: usize, word: u64)
        requires { cell < length self.old }
        ensures { self.new ≡ slice_set self.old cell word }
    {
        self.words[cell] = word;
    }

    /// Zeroes len words from a cell on.
    pub(crate) fn zero(&mut self, start: usize, len: usize)
        requires { start + len ≤ length self.old }
        ensures { self.new ≡ take start self.old ++ (replicate len 0 ++ drop (start + len) self.old) }
    {
        self.words[start..start + len].fill(0);
    }

    /// The len words from a cell on.
    pub(crate) fn part(&self, start: usize, len: usize) -> &[u64]
        requires { start + len ≤ length self.now }
        ensures { result.now ≡ take len (drop start self.now) }
    {
        &self.words[start..start + len]
    }
}
