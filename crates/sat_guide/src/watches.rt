//! Two watched literals (Moskewicz and others, DAC 2001) with blocking literals, as in MiniSat 2.2: a clause stands in the rows
//! of two of its literals, and is looked at when one of them falls. The literals of a copy are moved about so that the two
//! that are watched come first; the clauses themselves stay as derivations name them. Rows and copies are hints.

ghost use Rattle.std.specs.Prelude.{◌<◌, ◌^◌};

use crate::cone::Near;
use crate::uses::Uses;
use cnf_store::{Clauses, Value};
use std::alloc::{AllocError, Global};
use std::mem;

/// What no literal is.
const NONE: u32 = 4294967295;

// A watch: where the clause's copy begins, and a literal of it. Where that one is true there is nothing to look at.
#[derive(Clone, Copy)]
struct Watch {
    place: u32,
    blocker: u32,
}

/// The watches of clauses from a number on.
#[derive(Drop)]
pub struct Watches {
    // the number of the first clause, and how many follow it
    base: usize,
    count: usize,
    // by literal: the clauses that watch it
    rows: Vec<Vec<Watch>>,
    // each clause as its place after the first one, its length, and its literals, of which the first two are watched
    copies: Vec<u32>,
}

/// A walk along the clauses that watch a literal that fell.
#[derive(Drop)]
pub struct Sweep {
    fallen: u32,
    row: Vec<Watch>,
    next: usize,
    kept: usize,
}

// What a visit of a clause does to its watch.
#[derive(Clone, Copy)]
enum Visit {
    // with this blocker
    Stays(u32),
    // to the row of this literal
    Moves(u32, u32),
    // the clause at this place after the first seems to have no more than this literal left
    Due(u32, u32),
}

// What a table of values has at a literal.
fn value_in(values: &[Value], lit: u32) -> Value {
    if (lit as usize) < values.len() {
        values[lit as usize]
    } else {
        Value::Free
    }
}

impl Sweep {
    // The watch at this place of the row.
    fn get(&self, i: usize) -> Watch {
        if i < self.row.len() {
            self.row[i]
        } else {
            Watch {
                place: NONE,
                blocker: NONE,
            }
        }
    }

    // Leaves a watch in the row.
    fn keep(&mut self, watch: Watch) {
        if self.kept < self.row.len() {
            self.row[self.kept] = watch;
            self.kept += 1;
        }
    }

    /// How many clauses it goes along.
    pub fn len(&self) -> usize {
        self.row.len()
    }
}

impl Watches {
    /// No clauses are watched.
    pub fn new(alloc: Global, vars: usize) -> Result<Watches, AllocError>
        requires { vars < 2 ^ 31 }
    {
        let mut watches = Watches {
            base: 0,
            count: 0,
            rows: Vec::with_capacity(alloc, 2 * vars)?,
            copies: Vec::new(alloc),
        };
        watches.widen(alloc, vars)?;
        Ok(watches)
    }

    /// Has room for the literals of so many variables.
    pub fn widen(&mut self, alloc: Global, vars: usize) -> Result<(), AllocError>
        requires { vars < 2 ^ 31 }
    {
        for _ in self.rows.len()..2 * vars {
            self.rows.push(Vec::new(alloc))?;
        }
        Ok(())
    }

    /// Watches no clause, and then those from this number on. It costs what was watched.
    pub fn clear(&mut self, base: usize) {
        self.empty_rows();
        self.copies.clear();
        self.base = base;
        self.count = 0;
    }

    // Empties the rows of the literals that are watched.
    fn empty_rows(&mut self) {
        let mut place = 0;
        for _ in 0..self.count {
            if let Some(copy) = copy_at(&self.copies, place) {
                self.empty_row(copy.first);
                self.empty_row(copy.second);
                place = copy.end;
            }
        }
    }

    fn empty_row(&mut self, lit: u32) {
        if (lit as usize) < self.rows.len() {
            self.rows[lit as usize].clear();
        }
    }

    // Adds a watch to the row of a literal.
    fn watch(&mut self, lit: u32, watch: Watch) -> Result<(), AllocError> {
        if (lit as usize) < self.rows.len() {
            self.rows[lit as usize].push(watch)?;
        }
        Ok(())
    }

    /// Watches the clauses that aren't watched yet, each by its two literals that fall last.
    pub fn attach(&mut self, db: &Clauses, lits: &[u32], at: &[usize]) -> Result<(), AllocError> {
        for number in self.base.saturating_add(self.count)..db.len() {
            self.add(db.get(number), lits, at)?;
        }
        Ok(())
    }

    // Watches one more clause, if it has two literals.
    fn add(&mut self, clause: &[u32], lits: &[u32], at: &[usize]) -> Result<(), AllocError> {
        let after = self.count;
        self.count = after.saturating_add(1);
        let place = self.copies.len();
        if clause.len() < 2 || clause.len() >= 1 << 31 || after >= 1 << 31 || place >= 1 << 31 {
            return Ok(());
        }
        self.copies.push(after as u32)?;
        self.copies.push(clause.len() as u32)?;
        self.copies.extend_from_slice(clause)?;
        let (first, second) = last_two(clause, lits, at);
        lead(&mut self.copies, place + 2, first, second);
        self.watch_both(first, second, place)
    }

    /// Begins a walk along the clauses that watch a literal, which leave its row for so long.
    pub fn begin(&mut self, alloc: Global, fallen: u32) -> Sweep {
        let row = if (fallen as usize) < self.rows.len() {
            mem::replace(&mut self.rows[fallen as usize], Vec::new(alloc))
        } else {
            Vec::new(alloc)
        };
        Sweep {
            fallen,
            row,
            next: 0,
            kept: 0,
        }
    }

    /// Goes on to the next clause that seems to have at most one literal left that isn't false, and answers its number, counted
    /// from 0. The clauses before it are satisfied, come to watch another literal, or have one left to which the search doesn't go.
    pub fn advance(
        &mut self,
        sweep: &mut Sweep,
        values: &[Value],
        near: &Near,
    ) -> Result<Option<usize>, AllocError> {
        for i in sweep.next..sweep.row.len() {
            let watch = sweep.get(i);
            match self.visit(watch, sweep.fallen, values) {
                Visit::Stays(blocker) => sweep.keep(Watch {
                    place: watch.place,
                    blocker,
                }),
                Visit::Moves(lit, blocker) => self.watch(
                    lit,
                    Watch {
                        place: watch.place,
                        blocker,
                    },
                )?,
                Visit::Due(after, lit) => {
                    sweep.keep(Watch {
                        place: watch.place,
                        blocker: lit,
                    });
                    if is_passed(lit, values, near) {
                        continue;
                    }
                    sweep.next = i.saturating_add(1);
                    return Ok(Some(self.base.saturating_add(after as usize)));
                }
            }
        }
        sweep.next = sweep.row.len();
        Ok(None)
    }

    // Looks at a clause of which a watched literal fell.
    fn visit(&mut self, watch: Watch, fallen: u32, values: &[Value]) -> Visit {
        if value_in(values, watch.blocker) == Value::True {
            return Visit::Stays(watch.blocker);
        }
        let place = watch.place as usize;
        if place + 2 > self.copies.len() {
            return Visit::Stays(watch.blocker);
        }
        let after = self.copies[place];
        let from = place + 2;
        let to = from + self.copies[place + 1] as usize;
        if to > self.copies.len() {
            return Visit::Stays(watch.blocker);
        }
        look(&mut self.copies[from..to], after, fallen, values)
    }

    /// Ends a walk: the clauses that it didn't come to stay in the row.
    pub fn end(&mut self, sweep: Sweep) {
        let mut sweep = sweep;
        for i in sweep.next..sweep.row.len() {
            let watch = sweep.get(i);
            sweep.keep(watch);
        }
        let Sweep {
            fallen,
            mut row,
            kept,
            ..
        } = sweep;
        row.truncate(kept);
        if (fallen as usize) < self.rows.len() {
            self.rows[fallen as usize] = row;
        }
    }
}

// Whether a literal that seems implied is of a variable to which the search doesn't go.
fn is_passed(lit: u32, values: &[Value], near: &Near) -> bool {
    !near.has(lit as usize / 2) && value_in(values, lit) == Value::Free
}

// Looks at the literals of a clause of which one of the first two fell.
fn look(clause: &mut [u32], after: u32, fallen: u32, values: &[Value]) -> Visit {
    if clause.len() < 2 {
        return Visit::Stays(fallen);
    }
    if clause[0] == fallen {
        clause[0] = clause[1];
        clause[1] = fallen;
    }
    let other = clause[0];
    if value_in(values, other) == Value::True {
        return Visit::Stays(other);
    }
    for i in 2..clause.len() {
        let lit = clause[i];
        if value_in(values, lit) != Value::False {
            clause[1] = lit;
            clause[i] = fallen;
            return Visit::Moves(lit, other);
        }
    }
    Visit::Due(after, other)
}

// What a copy says: its clause's place after the first one, the two literals that are watched, and where the copy ends.
#[derive(Clone, Copy)]
struct Copied {
    after: usize,
    first: u32,
    second: u32,
    end: usize,
}

// The copy that begins at this place.
fn copy_at(copies: &[u32], place: usize) -> Option<Copied> {
    if place >= copies.len() || copies.len() - place < 4 {
        return None;
    }
    let len = copies[place + 1] as usize;
    if len > copies.len() - place - 2 {
        return None;
    }
    Some(Copied {
        after: copies[place] as usize,
        first: copies[place + 2],
        second: copies[place + 3],
        end: place + 2 + len,
    })
}

// Has the literals of a copy begin with these two.
fn lead(copies: &mut [u32], from: usize, first: u32, second: u32) {
    bring(copies, from, first);
    bring(copies, from.saturating_add(1), second);
}

// Exchanges a literal with what stands at this place.
fn bring(copies: &mut [u32], to: usize, lit: u32) {
    for i in to..copies.len() {
        if copies[i] == lit {
            copies[i] = copies[to];
            copies[to] = lit;
            return;
        }
    }
}

// The two literals that fall last.
fn last_two(clause: &[u32], lits: &[u32], at: &[usize]) -> (u32, u32) {
    let mut first = (NONE, 0);
    let mut second = (NONE, 0);
    for lit in clause {
        let (a, b) = better(*lit, score(*lit, lits, at), first, second);
        first = a;
        second = b;
    }
    (first.0, second.0)
}

// How late a literal falls: those that are free or true, last.
fn score(lit: u32, lits: &[u32], at: &[usize]) -> usize {
    let var = lit as usize / 2;
    if var >= at.len() {
        return 1;
    }
    let place = at[var];
    if place == 0 {
        return usize::MAX;
    }
    if place <= lits.len() && lits[place - 1] == lit {
        usize::MAX
    } else {
        place
    }
}

fn better(
    lit: u32,
    points: usize,
    first: (u32, usize),
    second: (u32, usize),
) -> ((u32, usize), (u32, usize)) {
    if points > first.1 {
        ((lit, points), first)
    } else if points > second.1 {
        (first, (lit, points))
    } else {
        (first, second)
    }
}

impl Watches {
    /// Forgets the clauses that aren't to stay.
    pub fn forget(&mut self, uses: &Uses) -> Result<(), AllocError> {
        self.empty_rows();
        let mut from = 0;
        let mut to = 0;
        for _ in 0..self.count {
            if let Some(copy) = copy_at(&self.copies, from) {
                if uses.keeps(self.base.saturating_add(copy.after)) {
                    let end = move_down(&mut self.copies, from, copy.end, to);
                    self.watch_both(copy.first, copy.second, to)?;
                    to = end;
                }
                from = copy.end;
            }
        }
        self.copies.truncate(to);
        Ok(())
    }

    // Adds the watches of the copy at this place.
    fn watch_both(&mut self, first: u32, second: u32, place: usize) -> Result<(), AllocError> {
        let place = u32::try_from(place).unwrap_or(NONE);
        self.watch(
            first,
            Watch {
                place,
                blocker: second,
            },
        )?;
        self.watch(
            second,
            Watch {
                place,
                blocker: first,
            },
        )
    }
}

// Copies what stands from one place to another down to a third, and answers where it then ends.
fn move_down(copies: &mut [u32], from: usize, end: usize, to: usize) -> usize {
    let mut place = to;
    for i in from..end {
        if i < copies.len() && place < copies.len() {
            copies[place] = copies[i];
            place += 1;
        }
    }
    place
}
