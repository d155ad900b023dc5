//! The log of one thread.
ghost use Rattle.std.specs.Prelude.{◌≡◌, ℕ, ◌+◌, ◌-◌, ◌*◌, ◌<◌, ◌≤◌, ◌↔◌, [], ◌∷◌, ◌++◌, length, slice_index, IfOk, IsTrue};
ghost use Rattle.std.specs.Bool.{OnTrue, OnFalse};
ghost use Rattle.load_log.specs.Values.{Rises, Falls};

use perp_base::{MOST_ACTIONS, NoMemory};
use std::alloc::Global;
use std::marker::Model;

/// A list of values, by iteration and then by column. Its room is reserved when it is made. In memory each column
/// stands apart.
#[derive(Drop)]
pub struct Log {
    columns: usize,
    /// How many words a column has, values or not yet.
    rows: usize,
    /// One column after another.
    words: Vec<u64>,
    /// Where the next value goes: the iteration and the column.
    row: usize,
    at: usize,
    /// Whether no value of a column so far is below the one before it.
    rises: [bool; MOST_ACTIONS],
}

impl Model for Log {
    ghost use Rattle.std.specs.Prelude.{◌≡◌, ◌+◌, ◌*◌, ◌<◌, ◌≤◌, length};
    ghost use Rattle.load_log.specs.Values.{AreMarked, Values, words_seen};
    ghost use Rattle.perp_base.specs.declared.limits.TheConstants.{MOST_ACTIONS};

    ghost Value = { Values };

    ghost view = { λ a. words_seen a.columns a.rows a.words.items (a.row * a.columns + a.at) };

    ghost invariant = { λ a. (length a.words.items ≡ a.columns * a.rows) × (0 < a.columns → a.at < a.columns)
        × (a.row * a.columns + a.at ≤ a.columns * a.rows) × (a.columns ≤ MOST_ACTIONS)
        × AreMarked a.rises (words_seen a.columns a.rows a.words.items (a.row * a.columns + a.at)) };
}

impl Log {
    /// An empty log with room for `n` values of each of at most 16 columns.
    pub fn reserve(alloc: Global, columns: usize, n: u32) -> Result<Log, NoMemory>
        requires few { columns ≤ MOST_ACTIONS }
        ensures made { IfOk result (λ log. log ≡ record { columns = columns; values = []; spare = columns * n }) }
    {
        let rows = n as usize;
        Ok(Log {
            columns,
            rows,
            words: vec![in alloc; 0; columns * rows]?,
            row: 0,
            at: 0,
            rises: [true; MOST_ACTIONS],
        })
    }

    /// Appends a value. It takes no memory.
    pub fn put(&mut self, value: u64)
        requires room { 1 ≤ self.old.spare }
        ensures appended { self.new ≡ record self.old {
          values = self.old.values ++ value ∷ [];
          spare = self.old.spare - 1;
        } }
    {
        let place = self.at * self.rows + self.row;
        self.rises[self.at] &= keeps_rising(&self.words, place, self.row, value);
        self.words[place] = value;
        self.at += 1;
        if self.at == self.columns {
            self.at = 0;
            self.row += 1;
        }
    }

    /// The value of a column in iteration `n`; both are counted from 0.
    #[inline(always)]
    pub fn get(&self, n: u32, column: usize) -> u64
        requires column { column < self.now.columns }
        requires there { n * self.now.columns + column < length self.now.values }
        ensures value { result ≡ slice_index self.now.values (n * self.now.columns + column) }
    {
        self.words[column * self.rows + n as usize]
    }

    /// How many values an iteration has.
    #[inline(always)]
    pub fn columns(&self) -> usize
        ensures { result ≡ self.now.columns }
    {
        self.columns
    }

    /// The values of a column, by iteration, and after them what is reserved.
    #[inline(always)]
    pub fn column(&self, column: usize) -> &[u64]
        requires column { column < self.now.columns }
        ensures values { (m : ℕ) → m * self.now.columns + column < length self.now.values
            → slice_index result.now m ≡ slice_index self.now.values (m * self.now.columns + column) }
        ensures room { length result.now * self.now.columns ≡ length self.now.values + self.now.spare }
    {
        let start = column * self.rows;
        &self.words[start..start + self.rows]
    }

    /// Whether no value of a column is below that of the iteration before, as where one thread writes the location that
    /// is read.
    #[inline(always)]
    pub fn rises(&self, column: usize) -> bool
        requires column { column < self.now.columns }
        ensures yes { OnTrue result (Rises self.now column) }
        ensures no { OnFalse result (Falls self.now column) }
    {
        self.rises[column]
    }

    /// How many values there are.
    #[inline(always)]
    pub fn len(&self) -> usize
        ensures { result ≡ length self.now.values }
    {
        self.row * self.columns + self.at
    }
}

/// Whether a value is not below that of the iteration before in its column, which stands in the word before its place.
#[inline(always)]
fn keeps_rising(words: &[u64], place: usize, row: usize, value: u64) -> bool
    requires there { place < length words.now }
    requires row { row ≤ place }
    ensures { IsTrue result ↔ (0 < row → slice_index words.now (place - 1) ≤ value) }
{
    row == 0 || words[place - 1] <= value
}
