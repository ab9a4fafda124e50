//! The solver of questions over cones, in memory that it keeps from question to question.
ghost use Rattle.std.specs.Prelude.{◌≡◌, [], IfOk};
ghost use Rattle.sat_core.specs.Answers.{IsAnswer};

use crate::activity::Activity;
use crate::cone::Cone;
use cnf_store::Cnf;
use sat_core::{Answer, Ready, Workspace};
use std::alloc::{AllocError, Global};

/// A solver of formulas that share no clauses.
#[derive(Drop)]
pub(crate) struct ConeSolver {
    nothing: Ready,
    work: Workspace,
    row: Vec<u32>,
    ghost empty: { nothing ≡ record { vars = 0; clauses = [] } },
}

impl ConeSolver {
    /// Nothing was asked yet.
    pub fn new(alloc: Global) -> Result<ConeSolver, AllocError> {
        let none = Cnf::new(alloc, 0)?;
        Ok(ConeSolver {
            nothing: Ready::new(alloc, &none)?,
            work: Workspace::new(),
            row: Vec::new(alloc),
        })
    }

    // Decides on these clauses.
    fn solve(&mut self, alloc: Global, cnf: &Cnf) -> Result<Answer, AllocError>
        ensures { IfOk result (IsAnswer cnf.now) }
    {
        let _vars = cnf.vars();
        self.nothing.solve_in(alloc, &mut self.work, cnf)
    }

    // Decides on the clauses of a window.
    fn decide_window(&mut self, alloc: Global, cnf: &Cnf) -> Result<Answer, AllocError>
        ensures { IfOk result (IsAnswer cnf.now) }
    {
        self.work.begin_with(&[])?;
        self.solve(alloc, cnf)
    }

    /// Has the next question begin with the activities of its members' nodes. The first two members, the nodes of its literals,
    /// begin as the most active of all, so that they are decided first, as assumptions are in an incremental solver, until
    /// conflicts have raised others above them.
    pub fn begin_with(&mut self, activity: &Activity, members: &[u32]) -> Result<(), AllocError> {
        self.row.clear();
        for n in members {
            self.row.push(activity.at(*n))?;
        }
        if self.row.len() > 1 {
            self.row[0] = u32::MAX;
            self.row[1] = u32::MAX;
        }
        self.work.begin_with(self.row.as_slice())
    }

    /// Decides on the clauses of a whole cone, whose question began with activities.
    pub fn decide(&mut self, alloc: Global, cone: &Cone) -> Result<Answer, AllocError>
        ensures { IfOk result (IsAnswer cone.now.cnf) }
    {
        self.solve(alloc, &cone.cnf)
    }

    /// Has nodes be as active as the last question left them.
    pub fn leave(&self, activity: &mut Activity, members: &[u32]) -> Result<(), AllocError> {
        for j in 0..members.len() {
            activity.note(members[j], self.work.activity(j))?;
        }
        Ok(())
    }

    // All of it, of one cone.
    fn decide_whole(
        &mut self,
        alloc: Global,
        cone: &Cone,
        activity: &mut Activity,
    ) -> Result<Answer, AllocError>
        ensures { IfOk result (IsAnswer cone.now.cnf) }
    {
        let members = cone.members.as_slice();
        self.begin_with(activity, members)?;
        let answer = self.decide(alloc, cone)?;
        self.leave(activity, members)?;
        Ok(answer)
    }

    /// Decides on the clauses of a cone: a window, or a whole one, which begins with activities and leaves some.
    pub fn decide_on(
        &mut self,
        alloc: Global,
        cone: &Cone,
        is_whole: bool,
        activity: &mut Activity,
    ) -> Result<Answer, AllocError>
        ensures { IfOk result (IsAnswer cone.now.cnf) }
    {
        if is_whole {
            self.decide_whole(alloc, cone, activity)
        } else {
            self.decide_window(alloc, &cone.cnf)
        }
    }
}
