//! The search: propagation, decisions, what is learned from conflicts, and restarts.

ghost use Rattle.std.specs.Prelude.{◌≡◌, ◌<◌, IfOk, OnOk, length, true};
ghost use Rattle.implied_clauses.specs.Implied.{AreSteps};

use crate::analysis::Analysis;
use crate::queue::Queue;
use crate::rows::{NONE, clause_in, item, lengthen, put};
use crate::trail::Trail;
use crate::watches::{Look, Watches};
use cnf_store::Value;
use implied_clauses::{Implied, Step, complement};
use sat_guide::Pace;
use std::alloc::{AllocError, Global};

/// What a search comes to.
#[derive(Clone, Copy)]
pub(crate) enum Ending {
    /// The newest clause says that the two literals aren't true together.
    Refuted,
    /// All variables of the question have values.
    Found,
    /// It was left.
    Left,
}

// What comes next where nothing is implied.
#[derive(Clone, Copy)]
enum Next {
    Decided,
    // this literal is to be true, and is false
    Refused(u32),
    Nothing,
}

// The two best of a clause's literals to watch: those that are free or true, and else those of the highest levels.
#[derive(Clone, Copy)]
struct Pair {
    first: u32,
    first_rank: u32,
    second: u32,
    second_rank: u32,
}

/// All that the search works in. None of it is believed.
#[derive(Drop)]
pub(crate) struct Search {
    trail: Trail,
    watches: Watches,
    analysis: Analysis,
    queue: Queue,
    pace: Pace,
    // from which place on the trail nothing is propagated yet, and to which place each literal of the lowest level has a clause of its own
    head: usize,
    settled: usize,
    // a clause that is false on the lowest level, or none
    broken: u32,
    // those that are decided when the question's own have values, and whether it came to them; and the question's own, sorted
    beside: Vec<u32>,
    own: Vec<u32>,
    is_open: bool,
    // by level: the conflict in which it was counted
    counted: Vec<u32>,
    conflict: u32,
}

// Whether each step is of a code and a clause that there are.
fn are_steps(steps: &[Step], codes: u32, clauses: usize) -> bool
    ensures { result ≡ true → AreSteps codes clauses steps.now }
{
    for step in steps {
        if step.pivot >= codes || step.clause as usize >= clauses {
            return false;
        }
    }
    true
}

// Derives the clause of a chain, where it is one of clauses that there are, and answers its number, or `NONE`.
fn derive(store: &mut Implied, analysis: &Analysis) -> Result<u32, AllocError>
    ensures { store.new.given ≡ store.old.given }
{
    let number = store.len();
    if analysis.first as usize >= number || number >= NONE as usize {
        return Ok(NONE);
    }
    if !are_steps(analysis.steps.as_slice(), store.codes(), number) {
        return Ok(NONE);
    }
    store.derive(analysis.first as usize, analysis.steps.as_slice())?;
    Ok(u32::try_from(number).unwrap_or(NONE))
}

impl Search {
    /// Before the first question.
    pub fn new(alloc: Global) -> Result<Search, AllocError> {
        Ok(Search {
            trail: Trail::new(alloc),
            watches: Watches::new(alloc),
            analysis: Analysis::new(alloc),
            queue: Queue::new(alloc),
            pace: Pace::new(),
            head: 0,
            settled: 0,
            broken: NONE,
            beside: Vec::new(alloc),
            own: Vec::new(alloc),
            is_open: false,
            counted: Vec::new(alloc),
            conflict: 0,
        })
    }

    /// Forgets all clauses.
    pub fn clear(&mut self) -> Result<(), AllocError> {
        self.back_to(0)?;
        self.trail.clear();
        self.watches.clear();
        self.head = 0;
        self.settled = 0;
        self.broken = NONE;
        self.beside.clear();
        Ok(())
    }

    // Has room for so many variables.
    fn widen(&mut self, vars: usize) -> Result<(), AllocError> {
        self.trail.widen(vars)?;
        self.watches.widen(vars)?;
        self.analysis.widen(vars)?;
        self.queue.widen(vars)
    }

    /// A literal's value.
    pub fn value(&self, lit: u32) -> Value {
        self.trail.value(lit)
    }

    /// Has a variable be decided, too, when those of a question have values.
    pub fn add_beside(&mut self, var: u32) -> Result<(), AllocError> {
        self.beside.push(var)?;
        Ok(())
    }

    /// Begins with a question that rests on these variables: the greatest are decided first.
    pub fn turn_to(&mut self, store: &Implied, question: &[u32]) -> Result<(), AllocError> {
        self.back_to(0)?;
        let vars = store.codes() as usize / 2;
        self.widen(vars)?;
        self.queue.begin();
        self.is_open = false;
        self.own.clear();
        self.own.extend_from_slice(question)?;
        self.own.sort()?;
        for i in 0..self.own.len() {
            let var = item(&self.own, i);
            self.queue.push_front(var);
        }
        self.queue.rewind();
        Ok(())
    }

    // Takes back what stands above a level.
    fn back_to(&mut self, level: u32) -> Result<(), AllocError> {
        for _ in 0..self.trail.lits.len() {
            let Some(lit) = self.trail.take_back(level) else {
                break;
            };
            self.queue.release(lit);
        }
        self.trail.close(level);
        self.head = self.head.min(self.trail.lits.len());
        Ok(())
    }

    // Goes along the clauses that watch a literal that fell. Answers one that is false, or `NONE`.
    fn visit(&mut self, fallen: u32) -> Result<u32, AllocError> {
        let mut before = NONE;
        let mut watch = self.watches.head(fallen);
        for _ in 0..self.watches.count() {
            if watch == NONE {
                return Ok(NONE);
            }
            let next = self.watches.next(watch);
            match self.watches.look(watch, &self.trail.values) {
                Look::Holds => before = watch,
                Look::Moves(lit) => {
                    self.watches.skip(fallen, before, next);
                    self.watches.link(watch, lit);
                }
                Look::Due(lit) => {
                    if self.trail.value(lit) == Value::False {
                        return Ok(watch / 2);
                    }
                    self.trail.assign(lit, watch / 2)?;
                    before = watch;
                }
            }
            watch = next;
        }
        Ok(NONE)
    }

    // Takes in what is implied. Answers a clause that is false, or `NONE`.
    fn propagate(&mut self) -> Result<u32, AllocError> {
        for _ in 0..usize::MAX {
            if self.head >= self.trail.lits.len() {
                return Ok(NONE);
            }
            let lit = self.trail.lit(self.head);
            self.head = self.head.saturating_add(1);
            let found = self.visit(complement(lit))?;
            if found != NONE {
                return Ok(found);
            }
        }
        Ok(NONE)
    }

    // How late a literal falls.
    fn rank(&self, lit: u32) -> u32 {
        if self.trail.value(lit) == Value::False {
            self.trail.level_of(lit / 2)
        } else {
            NONE
        }
    }

    // The two literals of a clause that fall last.
    fn best(&self, clause: &[u32]) -> Pair {
        let mut pair = Pair {
            first: NONE,
            first_rank: 0,
            second: NONE,
            second_rank: 0,
        };
        for lit in clause {
            pair = self.better(pair, *lit);
        }
        pair
    }

    fn better(&self, pair: Pair, lit: u32) -> Pair {
        let rank = self.rank(lit);
        if pair.first == NONE || rank > pair.first_rank {
            Pair {
                first: lit,
                first_rank: rank,
                second: pair.first,
                second_rank: pair.first_rank,
            }
        } else if pair.second == NONE || rank > pair.second_rank {
            Pair {
                second: lit,
                second_rank: rank,
                ..pair
            }
        } else {
            pair
        }
    }

    // Watches a clause, and takes in what it implies. Answers it where it is false, or else `NONE`.
    fn attach(&mut self, store: &Implied, number: u32) -> Result<u32, AllocError> {
        let clause = clause_in(store, number);
        let pair = self.best(clause);
        self.watches.add(clause, pair.first, pair.second)?;
        if pair.first == NONE || self.trail.value(pair.first) == Value::False {
            return Ok(number);
        }
        let is_due = pair.second == NONE || self.trail.value(pair.second) == Value::False;
        if is_due && self.trail.value(pair.first) == Value::Free {
            self.trail.assign(pair.first, number)?;
        }
        Ok(NONE)
    }

    // Watches the clauses that aren't watched yet. Answers one that is false, or `NONE`.
    fn attach_all(&mut self, store: &Implied) -> Result<u32, AllocError> {
        for number in self.watches.len()..store.len() {
            let found = self.attach(store, u32::try_from(number).unwrap_or(NONE))?;
            if found != NONE {
                return Ok(found);
            }
        }
        Ok(NONE)
    }

    // Has each literal of the lowest level be implied by a clause of its own.
    fn settle(&mut self, store: &mut Implied) -> Result<(), AllocError>
        ensures { store.new.given ≡ store.old.given }
    {
        for place in self.settled..self.trail.lits.len() {
            let lit = self.trail.lit(place);
            let reason = self.trail.reason_of(lit / 2);
            if clause_in(store, reason).len() > 1 {
                self.settle_one(store, lit)?;
            }
        }
        self.settled = self.trail.lits.len();
        Ok(())
    }

    // Has a literal of the lowest level be implied by a clause of its own.
    fn settle_one(&mut self, store: &mut Implied, lit: u32) -> Result<(), AllocError>
        ensures { store.new.given ≡ store.old.given }
    {
        self.analysis.settle(store, &self.trail, lit)?;
        let number = derive(store, &self.analysis)?;
        if number != NONE {
            self.trail.explain(lit / 2, number);
            self.watches.add(clause_in(store, number), lit, NONE)?;
        }
        Ok(())
    }

    // Decides what comes next: the two literals that are to be true, each on a level of its own, and then the question's variables.
    fn decide(&mut self, a: u32, b: u32) -> Result<Next, AllocError> {
        let level = self.trail.level();
        if level < 2 {
            let lit = if level == 0 { a } else { b };
            return self.suppose(lit);
        }
        let Some(var) = self.pick() else {
            return Ok(Next::Nothing);
        };
        self.trail.open()?;
        let lit = self.queue.by_phase(var);
        self.trail.assign(lit, NONE)?;
        Ok(Next::Decided)
    }

    // Supposes that a literal is true.
    fn suppose(&mut self, lit: u32) -> Result<Next, AllocError> {
        let value = self.trail.value(lit);
        if value == Value::False {
            return Ok(Next::Refused(lit));
        }
        self.trail.open()?;
        if value == Value::Free {
            self.trail.assign(lit, NONE)?;
        }
        Ok(Next::Decided)
    }

    // A variable that is to be decided.
    fn pick(&mut self) -> Option<u32> {
        if let Some(var) = self.queue.pick(&self.trail.values) {
            return Some(var);
        }
        if self.is_open {
            return None;
        }
        self.is_open = true;
        for i in 0..self.beside.len() {
            let var = item(&self.beside, i);
            self.queue.push_back(var);
        }
        self.queue.rewind();
        self.queue.pick(&self.trail.values)
    }

    // Learns from a clause that is false, on a level above those of the two literals.
    fn learn(&mut self, store: &mut Implied, conflict: u32) -> Result<u32, AllocError>
        ensures { store.new.given ≡ store.old.given }
    {
        self.analysis.learn(store, &self.trail, conflict)?;
        let number = derive(store, &self.analysis)?;
        self.raise();
        let clause = clause_in(store, number);
        let pair = self.best(clause);
        let spread = self.spread(clause)?;
        self.pace.note(spread);
        let level = if pair.second == NONE {
            0
        } else {
            pair.second_rank
        };
        self.back_to(level)?;
        if self.pace.is_due() {
            self.pace.rest();
            self.back_to(2)?;
        }
        self.attach_all(store)
    }

    // Raises the variables that analysis met.
    fn raise(&mut self) {
        for var in self.analysis.met.as_slice() {
            self.queue.raise(*var);
        }
    }

    // On how many levels the literals of a clause stand.
    fn spread(&mut self, clause: &[u32]) -> Result<u32, AllocError> {
        self.conflict = self.conflict.wrapping_add(1);
        let levels = self.trail.level() as usize + 1;
        lengthen(&mut self.counted, levels, 0)?;
        let mut spread: u32 = 0;
        for lit in clause {
            let level = self.trail.level_of(*lit / 2) as usize;
            if item(&self.counted, level) != self.conflict {
                put(&mut self.counted, level, self.conflict);
                spread = spread.saturating_add(1);
            }
        }
        Ok(spread)
    }

    // Derives from a clause what was supposed to be so that one of its variables is as it says, or so that it is false.
    fn conclude(
        &mut self,
        store: &mut Implied,
        first: u32,
        stays: u32,
    ) -> Result<Ending, AllocError>
        ensures { store.new.given ≡ store.old.given }
    {
        self.analysis.conclude(store, &self.trail, first, stays)?;
        let number = derive(store, &self.analysis)?;
        if number == NONE {
            return Ok(Ending::Left);
        }
        Ok(Ending::Refuted)
    }

    // Takes in what is implied, and what follows from conflicts on higher levels. Answers a clause that is false under what is supposed, or `NONE`.
    fn imply(&mut self, store: &mut Implied, found: u32) -> Result<u32, AllocError>
        ensures { store.new.given ≡ store.old.given }
    {
        let conflict = if found == NONE {
            self.propagate()?
        } else {
            found
        };
        if self.trail.level() == 0 {
            self.broken = conflict;
            self.settle(store)?;
        }
        Ok(conflict)
    }

    // A turn of the search: what it ends with, or none where it goes on; with a clause that is false, where there is one.
    fn go_on(&mut self, store: &mut Implied, found: u32, a: u32, b: u32) -> Result<Turn, AllocError>
        ensures { store.new.given ≡ store.old.given }
    {
        let conflict = self.imply(store, found)?;
        if conflict != NONE {
            if self.trail.level() <= 2 {
                return Ok(Turn::Ends(self.conclude(store, conflict, NONE)?));
            }
            return Ok(Turn::Goes(self.learn(store, conflict)?));
        }
        match self.decide(a, b)? {
            Next::Decided => Ok(Turn::Goes(NONE)),
            Next::Refused(lit) => {
                let reason = self.trail.reason_of(lit / 2);
                Ok(Turn::Ends(self.conclude(store, reason, lit / 2)?))
            }
            Next::Nothing => Ok(Turn::Ends(Ending::Found)),
        }
    }

    /// Searches for values under which two literals are true.
    pub fn run(&mut self, store: &mut Implied, a: u32, b: u32) -> Result<Ending, AllocError>
        ensures { store.new.given ≡ store.old.given }
    {
        self.back_to(0)?;
        self.widen(store.codes() as usize / 2)?;
        let mut found = if self.broken == NONE {
            self.attach_all(store)?
        } else {
            self.broken
        };
        for _ in 0..usize::MAX {
            match self.go_on(store, found, a, b)? {
                Turn::Ends(ending) => return Ok(ending),
                Turn::Goes(next) => found = next,
            }
        }
        Ok(Ending::Left)
    }
}

// Whether the search ends, or goes on with a clause that is false or with `NONE`.
#[derive(Clone, Copy)]
enum Turn {
    Ends(Ending),
    Goes(u32),
}
