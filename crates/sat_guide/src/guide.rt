//! Where a search looks and what it decides first, kept from question to question: a question costs what it touches.

ghost use Rattle.std.specs.Prelude.{◌≡◌, ◌<◌, ◌^◌, []};

use crate::cone::Near;
use crate::hints::{Hints, list_units};
use crate::ordering::Order;
use crate::watches::Watches;
use cnf_store::{Arena, Clauses, Joined, Value};
use std::alloc::{AllocError, Global};

/// The watches of the clauses that questions share; those of the question's own and of what it learned; the order in which
/// variables are decided; and the question's clauses of one literal.
#[derive(Drop)]
pub struct Guide {
    mark: u64,
    vars: usize,
    pub shared: Watches,
    pub extra: Watches,
    pub order: Order,
    /// The clauses of at most one literal, counted from 0: those that are shared, and the question's own.
    pub shared_units: Vec<u32>,
    pub units: Vec<u32>,
    /// The variables on which the question rests.
    pub near: Near,
}

impl Guide {
    /// For questions over a formula of so many variables.
    pub fn new(
        alloc: Global,
        vars: usize,
        clauses: &Arena<u32>,
        hints: &Hints,
    ) -> Result<Guide, AllocError>
        requires { vars < 2 ^ 31 }
    {
        Ok(Guide {
            mark: hints.mark,
            vars,
            shared: watched(alloc, vars, clauses)?,
            extra: Watches::new(alloc, vars)?,
            order: Order::new(alloc, vars)?,
            shared_units: Vec::from_slice(alloc, hints.units.as_slice())?,
            units: Vec::new(alloc),
            near: Near::new(alloc, vars)?,
        })
    }

    /// Whether it is one for this formula.
    pub fn serves(&self, vars: usize, hints: &Hints) -> bool {
        self.vars == vars && self.mark == hints.mark
    }

    /// Begins a question over so many variables, with these clauses of its own after those that are shared. No variable has
    /// a value.
    pub fn begin(
        &mut self,
        alloc: Global,
        vars: usize,
        hints: &Hints,
        own: &Arena<u32>,
        first: usize,
    ) -> Result<(), AllocError>
        requires { vars < 2 ^ 31 }
    {
        self.shared.widen(alloc, vars)?;
        self.extra.widen(alloc, vars)?;
        self.extra.clear(first);
        self.order.begin(self.vars, vars)?;
        self.units.clear();
        list_units(own, first, &mut self.units)?;
        hints.cone.lead(own, &mut self.order, &mut self.near)?;
        self.order.grant();
        Ok(())
    }

    /// Whether the search, which kept to the variables on which the question rests, is done with them and is to go to all.
    pub fn opens(&mut self, values: &[Value]) -> bool {
        if self.near.is_whole() {
            return false;
        }
        let goes = match self.order.peek(values) {
            Some(var) => !self.near.has(var),
            None => true,
        };
        if goes {
            self.near.open();
        }
        goes
    }

    /// Watches the clauses that aren't watched yet.
    pub fn attach(&mut self, db: &Clauses, lits: &[u32], at: &[usize]) -> Result<(), AllocError> {
        self.extra.attach(db, lits, at)
    }

    /// Ends a question: keeps the values of these literals, which are then taken back, for the next.
    pub fn end(&mut self, lits: &[u32]) -> Result<(), AllocError> {
        for lit in lits {
            self.order.release(*lit)?;
        }
        Ok(())
    }
}

// The watches of a formula of which nothing is decided.
fn watched(alloc: Global, vars: usize, clauses: &Arena<u32>) -> Result<Watches, AllocError>
    requires { vars < 2 ^ 31 }
{
    let none = Arena::new(alloc);
    let db = Clauses::new(Joined::new(clauses, &none)?, Arena::new(alloc));
    let mut watches = Watches::new(alloc, vars)?;
    watches.attach(&db, &[], &[])?;
    Ok(watches)
}
