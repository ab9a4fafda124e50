//! Which variables a question rests on. Where a clause of two or three literals defines its greatest variable by the others,
//! as those of gates and latches do, the cone of a question is what its variables come down to, with the variables that these
//! are equal to. It is a hint: the solver decides the variables of the cone first, the greatest before the others, and implies
//! no others while it does, and no fact rests on it.

use crate::ordering::Order;
use cnf_store::Arena;
use std::alloc::{AllocError, Global};

// What a variable comes down to: two lower ones, and one that it is equal to besides; from 1 on, or 0 for none.
#[derive(Clone, Copy)]
struct Lower {
    first: u32,
    second: u32,
    equal: u32,
}

/// For each variable what it comes down to.
#[derive(Drop)]
pub struct Cone {
    lower: Vec<Lower>,
}

/// The variables on which a question rests, and whether the search keeps to them.
#[derive(Drop)]
pub struct Near {
    // by variable: the turn in which it was met
    met: Vec<u32>,
    turn: u32,
    // those that are still to be lifted, and those that are
    stack: Vec<u32>,
    lifted: Vec<u32>,
    whole: bool,
}

impl Near {
    /// None of these variables is met.
    pub fn new(alloc: Global, vars: usize) -> Result<Near, AllocError> {
        Ok(Near {
            met: vec![in alloc; 0; vars]?,
            turn: 0,
            stack: Vec::new(alloc),
            lifted: Vec::new(alloc),
            whole: false,
        })
    }

    /// Whether the search goes to this variable. Those that are the question's own are always near.
    pub fn has(&self, var: usize) -> bool {
        self.whole || var >= self.met.len() || self.met[var] == self.turn
    }

    /// Whether the search goes to all variables.
    pub fn is_whole(&self) -> bool {
        self.whole
    }

    /// From now on the search goes to all variables.
    pub fn open(&mut self) {
        self.whole = true;
    }

    // Forgets what was met.
    fn clear(&mut self) {
        self.stack.clear();
        self.lifted.clear();
        self.whole = false;
        self.turn = self.turn.wrapping_add(1);
        if self.turn == 0 {
            self.met.fill(0);
            self.turn = 1;
        }
    }

    // Meets a variable, from 1 on, and says whether for the first time.
    fn meet(&mut self, var: u32) -> bool {
        let row = (var as usize).saturating_sub(1);
        if var == 0 || row >= self.met.len() || self.met[row] == self.turn {
            return false;
        }
        self.met[row] = self.turn;
        true
    }

    // Meets a variable that is to be lifted.
    fn meet_to_lift(&mut self, var: u32) -> Result<(), AllocError> {
        if self.meet(var) {
            self.stack.push(var.saturating_sub(1))?;
        }
        Ok(())
    }

    // Meets the variables of a clause.
    fn meet_all(&mut self, clause: &[u32]) -> Result<(), AllocError> {
        for lit in clause {
            self.meet_to_lift((*lit / 2).saturating_add(1))?;
        }
        Ok(())
    }
}

// What a clause has beside its greatest variable.
struct Parts {
    top: u32,
    first: u32,
    second: u32,
}

// The variables of a clause of at most three, from 1 on.
fn parts_of(clause: &[u32]) -> Parts {
    let mut parts = Parts {
        top: 0,
        first: 0,
        second: 0,
    };
    for lit in clause {
        parts = with(parts, *lit / 2 + 1);
    }
    parts
}

// The parts with one variable more.
fn with(parts: Parts, var: u32) -> Parts {
    let Parts { top, first, second } = parts;
    if var > top {
        Parts {
            top: var,
            first: top,
            second: if first == 0 { second } else { first },
        }
    } else if first == 0 {
        Parts {
            top,
            first: var,
            second,
        }
    } else {
        Parts {
            top,
            first,
            second: var,
        }
    }
}

// A row with one more variable, which stands with the row's own in a clause of two.
fn with_one(row: Lower, var: u32) -> Lower {
    if var == row.first || var == row.second {
        row
    } else if row.first == 0 {
        Lower { first: var, ..row }
    } else {
        Lower { equal: var, ..row }
    }
}

// A row with two more variables, which stand with the row's own in a clause of three.
fn with_two(row: Lower, first: u32, second: u32) -> Lower {
    let equal = if row.first == first || row.first == second {
        row.equal
    } else {
        row.first
    };
    Lower {
        first,
        second,
        equal: if equal == first || equal == second {
            0
        } else {
            equal
        },
    }
}

impl Cone {
    /// By the clauses of a formula.
    pub fn new(alloc: Global, vars: usize, db: &Arena<u32>) -> Result<Cone, AllocError> {
        let none = Lower {
            first: 0,
            second: 0,
            equal: 0,
        };
        let mut cone = Cone {
            lower: vec![in alloc; none; vars]?,
        };
        for number in 0..db.len() {
            cone.note(db.get(number));
        }
        Ok(cone)
    }

    // A clause of three says more of its greatest variable than one of two.
    fn note(&mut self, clause: &[u32]) {
        if clause.len() < 2 || clause.len() > 3 {
            return;
        }
        let Parts { top, first, second } = parts_of(clause);
        let var = (top as usize).saturating_sub(1);
        if var >= self.lower.len() {
            return;
        }
        let row = self.lower[var];
        self.lower[var] = if clause.len() == 3 {
            with_two(row, first, second)
        } else {
            with_one(row, first)
        };
    }

    /// Has the order begin with the cone of these clauses, and the search keep to it.
    pub fn lead(
        &self,
        clauses: &Arena<u32>,
        order: &mut Order,
        near: &mut Near,
    ) -> Result<(), AllocError> {
        near.clear();
        for number in 0..clauses.len() {
            near.meet_all(clauses.get(number))?;
        }
        for _ in 0..self.lower.len() {
            let Some(var) = near.stack.pop() else {
                self.meet_equals(near);
                return Ok(());
            };
            order.lift(var as usize);
            near.lifted.push(var)?;
            self.descend(var as usize, near)?;
        }
        self.meet_equals(near);
        Ok(())
    }

    // What a variable comes down to.
    fn lower(&self, var: usize) -> Lower {
        if var < self.lower.len() {
            self.lower[var]
        } else {
            Lower {
                first: 0,
                second: 0,
                equal: 0,
            }
        }
    }

    // Meets the two below a variable.
    fn descend(&self, var: usize, near: &mut Near) -> Result<(), AllocError> {
        let lower = self.lower(var);
        near.meet_to_lift(lower.first)?;
        near.meet_to_lift(lower.second)
    }

    // Meets what those that are lifted are equal to: two of them may be equal by way of one that isn't lifted.
    fn meet_equals(&self, near: &mut Near) {
        for i in 0..near.lifted.len() {
            if i < near.lifted.len() {
                let equal = self.lower(near.lifted[i] as usize).equal;
                let _ = near.meet(equal);
            }
        }
    }
}
