// The marks of a row.
ghost use Rattle.std.specs.Prelude.{◌≡◌, ◌+◌, ◌<◌, ◌≤◌, [], ◌∷◌, ◌++◌, map, length};
ghost use Rattle.std.specs.List.Sorted.{IsNonDecreasingBy};
ghost use Rattle.cells.specs.Slots.{most_marks, column_of, code_of, marks_of};
ghost use Rattle.cells.specs.Marked.{StartsAt, EndsAt, IsRun, ChangesOnly, CutAt};

use crate::table::{MARKS, Mark};
use arrayvec::ArrayVec;
use std::ops::Range;

// The marks of all columns stand in the order of columns, and those of one column as they came. One place is always free.
#[derive(Drop)]
pub(crate) struct Marks {
    table: ArrayVec<Mark, MARKS>,
    ghost ordered: { IsNonDecreasingBy column_of table.items },
    ghost room: { length table.items < most_marks },
}

impl Marks {
    pub(crate) fn new() -> Marks
        ensures none { result.table.items ≡ [] }
    {
        Marks {
            table: ArrayVec::new(),
        }
    }

    pub(crate) fn len(&self) -> usize
        ensures value { result ≡ length self.now.table.items }
    {
        self.table.len()
    }

    // Where the marks of a column start, or would. A row is mostly written from left to right, and then there is nothing to search: no mark
    // stands behind.
    fn start(&self, column: usize) -> usize
        ensures starts { StartsAt column self.now.table.items result }
        ensures within { result ≤ length self.now.table.items }
    {
        match self.table.last() {
            Some(last) if column <= last.column => {
                self.table.partition_point(|mark| mark.column < column)
            }
            _ => self.table.len(),
        }
    }

    // Where the marks of a column end, or would, found in the same way.
    fn end(&self, column: usize) -> usize
        ensures ends { EndsAt column self.now.table.items result }
        ensures within { result ≤ length self.now.table.items }
    {
        match self.table.last() {
            Some(last) if column < last.column => {
                self.table.partition_point(|mark| mark.column <= column)
            }
            _ => self.table.len(),
        }
    }

    // Where the marks of a column stand, or would.
    fn run(&self, column: usize) -> Range<usize>
        ensures run { IsRun column self.now.table.items result.start result.end }
        ensures within { (result.start ≤ result.end) × (result.end ≤ length self.now.table.items) }
    {
        self.start(column)..self.end(column)
    }

    // The marks of a column, as they came.
    pub(crate) fn of(&self, column: usize) -> &[Mark]
        ensures value { map code_of result.now ≡ marks_of column self.now.table.items }
    {
        &self.table[self.run(column)]
    }

    // Puts a mark behind those of its column.
    pub(crate) fn add(&mut self, mark: Mark)
        requires room { length self.old.table.items + 1 < most_marks }
        ensures only { ChangesOnly mark.column (marks_of mark.column self.old.table.items ++ (mark.code ∷ [])) self.old.table.items self.new.table.items }
        ensures more { length self.new.table.items ≡ length self.old.table.items + 1 }
    {
        let end = self.end(mark.column);
        // A text puts most marks behind all others, where none has to move.
        if end == self.table.len() {
            self.table.push(mark);
        } else {
            self.table.insert(end, mark);
        }
    }

    // Takes the marks of a column away.
    pub(crate) fn remove(&mut self, column: usize)
        ensures only { ChangesOnly column [] self.old.table.items self.new.table.items }
        ensures fewer { length self.new.table.items ≤ length self.old.table.items }
    {
        let run = self.run(column);
        if !run.is_empty() {
            drop(self.table.drain(run));
        }
    }

    // Takes the marks away from a column on.
    pub(crate) fn truncate(&mut self, column: usize)
        ensures cut { CutAt column self.old.table.items self.new.table.items }
        ensures fewer { length self.new.table.items ≤ length self.old.table.items }
    {
        let start = self.start(column);
        self.table.truncate(start);
    }
}
