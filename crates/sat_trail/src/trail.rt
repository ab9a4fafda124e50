//! The trail. Its literals stand in one row from the oldest on, with their reasons beside them; a table by variable says
//! where each stands, and a table by literal what each is.

ghost use Rattle.std.specs.Prelude.{MatchOption, IfOk, ◌≡◌, ◌≢◌, ◌≤◌, ◌<◌, ◌+◌, ◌-◌, ◌*◌, ◌/◌, ◌^◌, ◌++◌, ◌∷◌, [], ℕ, List, length, slice_index, take, vec_capacity, ◌⊎◌, true};
ghost use Rattle.std.specs.List.{All, Any, Contains};
ghost use Rattle.cnf_store.specs.Codes.{neg};
ghost use Rattle.sat_trail.specs.Trail.{IsPlaced, AreStarts, AreValues, IsLevelOf};
ghost use Rattle.sat_trail.specs.Looking.{IsWorth};

use cnf_store::Value;
use std::alloc::{AllocError, Global};

/// What is assigned.
#[derive(Drop)]
pub struct Trail {
    /// The literals from the oldest on; a place is one here, counted from 0.
    pub lits: Vec<u32>,
    /// Beside each the number of the clause that implied it, from 1 on, or 0 where it was decided.
    pub reasons: Vec<u64>,
    /// By variable: one past its place, or 0 where it has none.
    pub at: Vec<usize>,
    /// The places of the decisions.
    pub starts: Vec<usize>,
    /// By literal.
    pub values: Vec<Value>,
    ghost placed: { IsPlaced (length at.items) lits.items at.items },
    ghost valued: { AreValues lits.items at.items values.items },
    ghost same: { length reasons.items ≡ length lits.items },
    ghost levels: { AreStarts reasons.items starts.items },
    ghost few: { length at.items < 2 ^ 31 },
    ghost lits_room: { length at.items ≤ vec_capacity lits },
    ghost reasons_room: { length at.items ≤ vec_capacity reasons },
    ghost starts_room: { length at.items ≤ vec_capacity starts },
}

impl Trail {
    /// A trail for so many variables, with nothing assigned and room for all.
    pub fn new(alloc: Global, vars: usize) -> Result<Trail, AllocError>
        requires { vars < 2 ^ 31 }
        ensures lits { IfOk result (λ t. t.lits.items ≡ []) }
        ensures reasons { IfOk result (λ t. t.reasons.items ≡ []) }
        ensures starts { IfOk result (λ t. t.starts.items ≡ []) }
        ensures size { IfOk result (λ t. length t.at.items ≡ vars) }
    {
        let at = vec![in alloc; 0; vars]?;
        let lits = Vec::with_capacity(alloc, vars)?;
        let reasons = Vec::with_capacity(alloc, vars)?;
        let starts = Vec::with_capacity(alloc, vars)?;
        let values = vec![in alloc; Value::Free; 2 * vars]?;
        Ok(Trail {
            lits,
            reasons,
            at,
            starts,
            values,
        })
    }

    /// Assigns a literal that a clause implies.
    pub fn imply(&mut self, lit: u32, reason: u64)
        requires within { lit / 2 < length self.old.at.items }
        requires free { slice_index self.old.at.items (lit / 2) ≡ 0 }
        requires reason { 0 < reason }
        ensures lits { self.new.lits.items ≡ self.old.lits.items ++ lit ∷ [] }
        ensures reasons { self.new.reasons.items ≡ self.old.reasons.items ++ reason ∷ [] }
        ensures starts { self.new.starts.items ≡ self.old.starts.items }
        ensures size { length self.new.at.items ≡ length self.old.at.items }
    {
        let Trail {
            lits,
            reasons,
            at,
            values,
            ..
        } = self;
        assign(lits, at, values, lit);
        reasons.push_reserved(reason);
    }

    /// Assigns a literal by choice: it opens a level.
    pub fn decide(&mut self, lit: u32)
        requires within { lit / 2 < length self.old.at.items }
        requires free { slice_index self.old.at.items (lit / 2) ≡ 0 }
        ensures lits { self.new.lits.items ≡ self.old.lits.items ++ lit ∷ [] }
        ensures reasons { self.new.reasons.items ≡ self.old.reasons.items ++ 0 ∷ [] }
        ensures starts { self.new.starts.items ≡ self.old.starts.items ++ length self.old.lits.items ∷ [] }
        ensures size { length self.new.at.items ≡ length self.old.at.items }
    {
        let Trail {
            lits,
            reasons,
            at,
            starts,
            values,
        } = self;
        let place = lits.len();
        assign(lits, at, values, lit);
        reasons.push_reserved(0);
        starts.push_reserved(place);
    }

    /// Unassigns all from the start of a level on. Levels are counted from 0 here: so many are kept.
    pub fn back_to(&mut self, level: usize)
        requires { level < length self.old.starts.items }
        ensures lits { self.new.lits.items ≡ take (slice_index self.old.starts.items level) self.old.lits.items }
        ensures reasons { self.new.reasons.items ≡ take (slice_index self.old.starts.items level) self.old.reasons.items }
        ensures starts { self.new.starts.items ≡ take level self.old.starts.items }
        ensures size { length self.new.at.items ≡ length self.old.at.items }
    {
        let Trail {
            lits,
            reasons,
            at,
            starts,
            values,
        } = self;
        let cut = starts[level];
        unwind(lits, at, values, cut);
        reasons.truncate(cut);
        starts.truncate(level);
    }

    /// Unassigns all.
    pub fn clear(&mut self)
        ensures lits { self.new.lits.items ≡ [] }
        ensures reasons { self.new.reasons.items ≡ [] }
        ensures starts { self.new.starts.items ≡ [] }
        ensures size { length self.new.at.items ≡ length self.old.at.items }
    {
        let Trail {
            lits,
            reasons,
            at,
            starts,
            values,
        } = self;
        unwind(lits, at, values, 0);
        reasons.truncate(0);
        starts.truncate(0);
    }

    /// The value of a literal.
    pub fn value(&self, lit: u32) -> Value
        requires { lit / 2 < length self.now.at.items }
        ensures { IsWorth self.now.lits.items self.now.at.items lit result }
    {
        self.values[lit as usize]
    }

    /// The level of a variable, where it is assigned: how many decisions stand at or below its place.
    pub fn level(&self, var: usize) -> Option<usize>
        requires { var < length self.now.at.items }
        ensures { MatchOption result (slice_index self.now.at.items var ≡ 0) (λ n. (0 < slice_index self.now.at.items var) × IsLevelOf self.now.starts.items (slice_index self.now.at.items var - 1) n) }
    {
        let place = self.at[var];
        if place == 0 {
            None
        } else {
            Some(self.level_below(place))
        }
    }

    /// The number of the clause that implied a variable, where one did.
    pub fn reason(&self, var: usize) -> Option<u64>
        requires { var < length self.now.at.items }
        ensures { MatchOption result ((slice_index self.now.at.items var ≡ 0) ⊎ (slice_index self.now.reasons.items (slice_index self.now.at.items var - 1) ≡ 0)) (λ r. (0 < slice_index self.now.at.items var) × (0 < r) × (r ≡ slice_index self.now.reasons.items (slice_index self.now.at.items var - 1))) }
    {
        let place = self.at[var];
        if place == 0 {
            None
        } else {
            given(self.reasons[place - 1])
        }
    }

    /// How many levels begin below a place.
    pub fn level_below(&self, place: usize) -> usize
        ensures within { result ≤ length self.now.starts.items }
        ensures below { 0 < result → slice_index self.now.starts.items (result - 1) < place }
        ensures above { result < length self.now.starts.items → place ≤ slice_index self.now.starts.items result }
    {
        let mut level = self.starts.len();
        'down: while level > 0 && self.starts[level - 1] >= place {
            level -= 1;
        }
        level
    }

    /// One past the greatest place of a literal of the clause, but for this one.
    pub fn top(&self, clause: &[u32], skip: u32) -> usize
        requires within { All (λ l. l < 2 * length self.now.at.items) clause.now }
        ensures most { (l : ℕ) → Contains clause.now l → (l ≡ skip) ⊎ (slice_index self.now.at.items (l / 2) ≤ result) }
        ensures met { (result ≡ 0) ⊎ Any (λ l. (l ≢ skip) × (slice_index self.now.at.items (l / 2) ≡ result)) clause.now }
    {
        let mut most = 0;
        for lit in clause {
            most = self.higher(*lit, skip, most);
        }
        most
    }

    // The greater of a literal's place and this.
    fn higher(&self, lit: u32, skip: u32, most: usize) -> usize
        requires { lit / 2 < length self.now.at.items }
        ensures most { most ≤ result }
        ensures here { (lit ≡ skip) ⊎ (slice_index self.now.at.items (lit / 2) ≤ result) }
        ensures met { (result ≡ most) ⊎ ((lit ≢ skip) × (slice_index self.now.at.items (lit / 2) ≡ result)) }
    {
        let place = self.at[lit as usize / 2];
        if lit == skip || place <= most {
            most
        } else {
            place
        }
    }
}

/// The complement of a literal.
pub fn complement(lit: u32) -> u32
    ensures { result ≡ neg lit }
{
    lit ^ 1
}

// The reason, where it is one.
fn given(reason: u64) -> Option<u64>
    ensures { MatchOption result (reason ≡ 0) (λ r. (0 < r) × (r ≡ reason)) }
{
    if reason == 0 { None } else { Some(reason) }
}

// Gives a literal the next place.
fn assign(lits: &mut Vec<u32>, at: &mut Vec<usize>, values: &mut Vec<Value>, lit: u32)
    requires placed { IsPlaced (length at.old.items) lits.old.items at.old.items }
    requires valued { AreValues lits.old.items at.old.items values.old.items }
    requires within { lit / 2 < length at.old.items }
    requires free { slice_index at.old.items (lit / 2) ≡ 0 }
    requires room { length at.old.items ≤ vec_capacity lits.old }
    ensures placed { IsPlaced (length at.old.items) lits.new.items at.new.items }
    ensures valued { AreValues lits.new.items at.new.items values.new.items }
    ensures lits { lits.new.items ≡ lits.old.items ++ lit ∷ [] }
    ensures room { vec_capacity lits.new ≡ vec_capacity lits.old }
{
    at[lit as usize / 2] = lits.len() + 1;
    lits.push_reserved(lit);
    values[lit as usize] = Value::True;
    values[complement(lit) as usize] = Value::False;
}

// Unassigns the newest literals, down to a place.
fn unwind(lits: &mut Vec<u32>, at: &mut Vec<usize>, values: &mut Vec<Value>, cut: usize)
    requires placed { IsPlaced (length at.old.items) lits.old.items at.old.items }
    requires valued { AreValues lits.old.items at.old.items values.old.items }
    requires cut { cut ≤ length lits.old.items }
    ensures placed { IsPlaced (length at.old.items) lits.new.items at.new.items }
    ensures valued { AreValues lits.new.items at.new.items values.new.items }
    ensures lits { lits.new.items ≡ take cut lits.old.items }
    ensures room { vec_capacity lits.new ≡ vec_capacity lits.old }
{
    'back: while lits.len() > cut {
        if let Some(lit) = lits.pop() {
            at[lit as usize / 2] = 0;
            values[lit as usize] = Value::Free;
            values[complement(lit) as usize] = Value::Free;
        }
    }
}

#[cfg(test)]
mod tests {
    use super::{Trail, complement};
    use cnf_store::Value;
    use std::test::Fail;

    fn is_free(trail: &Trail, lit: u32) -> bool
        ensures { result ≡ true → (lit / 2 < length trail.now.at.items) × (slice_index trail.now.at.items (lit / 2) ≡ 0) }
    {
        let var = lit as usize / 2;
        var < trail.at.len() && trail.at[var] == 0
    }

    // What is done to a trail.
    enum Step {
        Imply(u32, u64),
        Decide(u32),
        BackTo(usize),
    }

    // Takes a step, where it may be taken.
    fn take(trail: &mut Trail, step: Step) -> bool {
        match step {
            Step::Imply(lit, reason) => {
                if is_free(trail, lit) && reason > 0 {
                    trail.imply(lit, reason);
                    return true;
                }
            }
            Step::Decide(lit) => {
                if is_free(trail, lit) {
                    trail.decide(lit);
                    return true;
                }
            }
            Step::BackTo(level) => {
                if level < trail.starts.len() {
                    trail.back_to(level);
                    return true;
                }
            }
        }
        false
    }

    // Whether this is what a trail says of a literal and of its variable.
    fn says(
        trail: &Trail,
        lit: u32,
        value: Value,
        level: Option<usize>,
        reason: Option<u64>,
    ) -> bool {
        let var = lit as usize / 2;
        var < trail.at.len()
            && trail.value(lit) == value
            && trail.level(var) == level
            && trail.reason(var) == reason
    }

    #[test]
    fn going_back_unassigns_what_has_a_greater_level(rt: HostRuntime) -> Result<(), Fail> {
        let mut trail = Trail::new(rt.alloc(), 4)?;
        assert!(rt; says(&trail, 0, Value::Free, None, None));
        assert!(rt; take(&mut trail, Step::Imply(0, 1)) && take(&mut trail, Step::Decide(3)));
        assert!(rt; take(&mut trail, Step::Imply(4, 2)) && take(&mut trail, Step::Decide(6)));
        assert!(rt; says(&trail, 0, Value::True, Some(0), Some(1)));
        assert!(rt; says(&trail, 2, Value::False, Some(1), None));
        assert!(rt; says(&trail, 4, Value::True, Some(1), Some(2)));
        assert!(rt; says(&trail, complement(6), Value::False, Some(2), None));
        assert!(rt; take(&mut trail, Step::BackTo(1)));
        assert!(rt; says(&trail, 4, Value::True, Some(1), Some(2)));
        assert!(rt;
            says(&trail, 6, Value::Free, None, None) && says(&trail, 7, Value::Free, None, None)
        );
        assert!(rt; take(&mut trail, Step::BackTo(0)));
        assert!(rt;
            says(&trail, 0, Value::True, Some(0), Some(1))
                && says(&trail, 3, Value::Free, None, None)
        );
        trail.clear();
        assert!(rt; says(&trail, 0, Value::Free, None, None) && trail.lits.len() == 0);
        Ok(())
    }
}
