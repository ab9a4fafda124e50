//! What a trail says of a clause. Nothing here rests on which clauses are looked at.

ghost use Rattle.std.specs.Prelude.{◌≡◌, ◌<◌, ◌*◌, ℕ, IfSome, IfNone, length, slice_index, true};
ghost use Rattle.std.specs.List.{All};
ghost use Rattle.cnf_store.specs.Codes.{AreWithin};
ghost use Rattle.sat_trail.specs.Looking.{IsStatus, IsLook};

use crate::trail::Trail;
use cnf_store::{Clauses, Value};

/// What a clause is under the trail.
#[derive(Clone, Copy, PartialEq, Eq)]
pub enum ClauseStatus {
    /// Some literal is true.
    Holds,
    /// Some literal is free, and isn't known to be the only one.
    Open,
    /// This literal is free, and all others are false.
    Unit(u32),
    /// All literals are false.
    Wrong,
}

/// What a look at all clauses comes to: it ends at the first that isn't true or open. Clauses are counted from 1.
#[derive(Clone, Copy, PartialEq, Eq)]
pub enum Look {
    /// This literal is implied, by this clause.
    Implied(u32, u64),
    /// This clause is false.
    Conflict(u64),
    /// Each clause is true or open.
    Quiet,
}

impl Trail {
    /// Looks at a clause.
    pub fn inspect(&self, clause: &[u32]) -> ClauseStatus
        requires within { All (λ l. l < 2 * length self.now.at.items) clause.now }
        ensures { IsStatus self.now.lits.items self.now.at.items clause.now result }
    {
        let mut unit = None;
        for lit in clause {
            match self.value(*lit) {
                Value::True => return ClauseStatus::Holds,
                Value::False => {}
                Value::Free => match unit {
                    Some(_) => return ClauseStatus::Open,
                    None => unit = Some(*lit),
                },
            }
        }
        match unit {
            Some(lit) => ClauseStatus::Unit(lit),
            None => ClauseStatus::Wrong,
        }
    }

    /// Looks at all clauses.
    pub fn look_through(&self, db: &Clauses) -> Look
        requires { AreWithin (length self.now.at.items) db.now }
        ensures { IsLook db.now self.now.lits.items self.now.at.items result }
    {
        for i in 0..db.len() {
            match self.inspect(db.get(i)) {
                ClauseStatus::Holds => {}
                ClauseStatus::Open => {}
                ClauseStatus::Unit(lit) => return Look::Implied(lit, i as u64 + 1),
                ClauseStatus::Wrong => return Look::Conflict(i as u64 + 1),
            }
        }
        Look::Quiet
    }

    /// A variable without a value.
    pub fn free(&self) -> Option<usize>
        ensures some { IfSome result (λ v. (v < length self.now.at.items) × (slice_index self.now.at.items v ≡ 0)) }
        ensures none { IfNone result ((v : ℕ) → v < length self.now.at.items → 0 < slice_index self.now.at.items v) }
    {
        for v in 0..self.at.len() {
            match self.value(2 * v as u32) {
                Value::Free => return Some(v),
                Value::True => {}
                Value::False => {}
            }
        }
        None
    }
}

#[cfg(test)]
mod tests {
    use super::{ClauseStatus, Look};
    use crate::trail::Trail;
    use cnf_store::{Arena, Clauses, Joined};
    use std::test::Fail;

    // Whether a clause is of the trail's variables.
    fn is_within(trail: &Trail, clause: &[u32]) -> bool
        ensures { result ≡ true → All (λ l. l < 2 * length trail.now.at.items) clause.now }
    {
        for lit in clause {
            if *lit as usize / 2 >= trail.at.len() {
                return false;
            }
        }
        true
    }

    // Whether all clauses are.
    fn are_within(trail: &Trail, db: &Clauses) -> bool
        ensures { result ≡ true → AreWithin (length trail.now.at.items) db.now }
    {
        for i in 0..db.len() {
            if !is_within(trail, db.get(i)) {
                return false;
            }
        }
        true
    }

    // Assigns literals by choice.
    fn decide(trail: &mut Trail, lits: &[u32]) {
        for lit in lits {
            let var = *lit as usize / 2;
            if var < trail.at.len() && trail.at[var] == 0 {
                trail.decide(*lit);
            }
        }
    }

    // Whether this is what a clause is.
    fn looks(trail: &Trail, clause: &[u32], status: ClauseStatus) -> bool {
        is_within(trail, clause) && trail.inspect(clause) == status
    }

    #[test]
    fn a_clause_is_what_its_literals_are(rt: HostRuntime) -> Result<(), Fail> {
        let mut trail = Trail::new(rt.alloc(), 4)?;
        decide(&mut trail, &[0, 3]);
        assert!(rt; looks(&trail, &[], ClauseStatus::Wrong));
        assert!(rt; looks(&trail, &[1, 2], ClauseStatus::Wrong));
        assert!(rt; looks(&trail, &[1, 4, 2], ClauseStatus::Unit(4)));
        assert!(rt; looks(&trail, &[4, 1, 6], ClauseStatus::Open));
        assert!(rt; looks(&trail, &[1, 0], ClauseStatus::Holds));
        assert!(rt;
            is_within(&trail, &[1, 2]) && trail.top(&[1, 2], 9) == 2 && trail.top(&[1, 2], 2) == 1
        );
        assert!(rt; trail.level_below(1) == 1 && trail.free() == Some(2));
        Ok(())
    }

    #[test]
    fn the_first_clause_that_says_something_is_told(rt: HostRuntime) -> Result<(), Fail> {
        let mut trail = Trail::new(rt.alloc(), 4)?;
        let mut shared = Arena::new(rt.alloc());
        let mut own = Arena::new(rt.alloc());
        shared.add(&[0, 6])?;
        own.add(&[1, 4])?;
        own.add(&[1, 2])?;
        let db = Clauses::new(Joined::new(&shared, &own)?, Arena::new(rt.alloc()));
        assert!(rt; are_within(&trail, &db) && trail.look_through(&db) == Look::Quiet);
        decide(&mut trail, &[0]);
        assert!(rt; are_within(&trail, &db) && trail.look_through(&db) == Look::Implied(4, 2));
        decide(&mut trail, &[4, 3]);
        assert!(rt; are_within(&trail, &db) && trail.look_through(&db) == Look::Conflict(3));
        Ok(())
    }
}
