//! The log of a place: of the lines so far those that its two reach, with new numbers, and two that end it.

ghost use Rattle.std.specs.Prelude.{◌≤◌, ◌<◌, length};

use crate::lines::{Lines, add_line, number_at};
use crate::places::Derived;
use sat_log::Log;
use std::alloc::{AllocError, Global};

// Sets a mark.
fn set_mark(marks: &mut [bool], i: u64) {
    if i < marks.len() as u64 {
        marks[i as usize] = true;
    }
}

// Whether a mark is set.
fn is_set(marks: &[bool], i: u64) -> bool {
    i < marks.len() as u64 && marks[i as usize]
}

impl Lines {
    // The lines up to one that these two reach.
    fn reached(&self, alloc: Global, last: u64, known: Derived) -> Result<Vec<bool>, AllocError>
        requires { last ≤ length self.now.log }
    {
        let mut marks = vec![in alloc; false; last as usize]?;
        set_mark(&mut marks, known.least.saturating_sub(1));
        set_mark(&mut marks, known.place.saturating_sub(1));
        for n in 0..last {
            self.mark_from(&mut marks, last - 1 - n);
        }
        Ok(marks)
    }

    // Marks the lines that a line hints, if it is marked.
    fn mark_from(&self, marks: &mut [bool], i: u64)
        requires { i < length self.now.log }
    {
        if is_set(marks, i) {
            for hint in self.log.hints(i) {
                if *hint > self.given {
                    set_mark(marks, *hint - self.given - 1);
                }
            }
        }
    }

    /// The lines up to one that these two reach, and two that end the log.
    pub(crate) fn log_to(
        &self,
        alloc: Global,
        last: u64,
        known: Derived,
        x: i32,
    ) -> Result<Log, AllocError>
        requires { last ≤ length self.now.log }
    {
        let marks = self.reached(alloc, last, known)?;
        let log = self.collect(alloc, &marks, last, known, x);
        drop(marks);
        log
    }

    // The lines that are marked, and two that end the log.
    fn collect(
        &self,
        alloc: Global,
        marks: &[bool],
        last: u64,
        known: Derived,
        x: i32,
    ) -> Result<Log, AllocError>
        requires { last ≤ length self.now.log }
    {
        let mut log = Log::new(alloc);
        let mut numbers = Vec::new(alloc);
        self.keep_marked(alloc, marks, last, &mut numbers, &mut log)?;
        self.end_log(known, x, numbers.as_slice(), &mut log)?;
        Ok(log)
    }

    // Adds the lines that are marked.
    fn keep_marked(
        &self,
        alloc: Global,
        marks: &[bool],
        last: u64,
        numbers: &mut Vec<u64>,
        log: &mut Log,
    ) -> Result<(), AllocError>
        requires { last ≤ length self.now.log }
    {
        let mut hints = Vec::new(alloc);
        for i in 0..last {
            self.keep_line(marks, i, numbers, &mut hints, log)?;
        }
        Ok(())
    }

    // Adds a line's number, and the line if it is marked.
    fn keep_line(
        &self,
        marks: &[bool],
        i: u64,
        numbers: &mut Vec<u64>,
        hints: &mut Vec<u64>,
        log: &mut Log,
    ) -> Result<(), AllocError>
        requires { i < length self.now.log }
    {
        let question = self.given.saturating_add(3);
        numbers.push(question.saturating_add(log.len()).saturating_add(1))?;
        if is_set(marks, i) {
            self.copy_line(i, numbers.as_slice(), hints, log)
        } else {
            Ok(())
        }
    }

    // Adds a line, with new numbers.
    fn copy_line(
        &self,
        i: u64,
        numbers: &[u64],
        hints: &mut Vec<u64>,
        log: &mut Log,
    ) -> Result<(), AllocError>
        requires { i < length self.now.log }
    {
        self.renumber(self.log.hints(i), numbers, hints)?;
        add_line(log, self.log.clause(i), hints.as_slice())
    }

    // Adds the two lines that end the log.
    fn end_log(
        &self,
        known: Derived,
        x: i32,
        numbers: &[u64],
        log: &mut Log,
    ) -> Result<(), AllocError> {
        let question = self.given.saturating_add(3);
        let least = number_at(numbers, known.least.saturating_sub(1));
        let other = number_at(numbers, known.place.saturating_sub(1));
        let holds = question.saturating_add(log.len()).saturating_add(1);
        let one = self.given.saturating_add(1);
        let both = self.given.saturating_add(2);
        add_line(log, &[x], &[question, other, one])?;
        add_line(log, &[], &[question, holds, least, both])
    }

    // The hints with their new numbers, in place of what the buffer had.
    fn renumber(
        &self,
        old: &[u64],
        numbers: &[u64],
        hints: &mut Vec<u64>,
    ) -> Result<(), AllocError> {
        hints.clear();
        for hint in old {
            if *hint <= self.given {
                hints.push(*hint)?;
            } else {
                hints.push(number_at(numbers, *hint - self.given - 1))?;
            }
        }
        Ok(())
    }
}
