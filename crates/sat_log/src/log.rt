//! A log: the lines of a derivation, their clauses in one row and their hints in another.

ghost use Rattle.std.specs.Prelude.{◌≡◌, ◌<◌, ◌++◌, ◌∷◌, [], List, OnOk, OnErr, length};
ghost use Rattle.std.specs.List.{All};
ghost use Rattle.cnf_store.specs.Clauses.{AreLiterals};
ghost use Rattle.sat_log.specs.Derivations.{Line, line_at};
ghost use Rattle.sat_log.specs.Lines.{AreLines};

use cnf_store::Arena;
use std::alloc::{AllocError, Global};
use std::marker::Model;

/// The lines of a derivation. Contracts see it as the list of them, each a clause with its hints.
#[derive(Drop)]
pub struct Log {
    clauses: Arena<i32>,
    hints: Arena<u64>,
}

impl Model for Log {
    ghost use Rattle.std.specs.Prelude.{List};
    ghost use Rattle.sat_log.specs.Derivations.{Line};
    ghost use Rattle.sat_log.specs.Lines.{lines_of, AreRows};

    ghost Value = { List Line };

    ghost view = { λ l. lines_of l.clauses l.hints };

    ghost invariant = { λ l. AreRows l.clauses l.hints };
}

impl Log {
    /// A log without lines.
    pub fn new(alloc: Global) -> Log
        ensures { result ≡ [] }
    {
        Log {
            clauses: Arena::new(alloc),
            hints: Arena::new(alloc),
        }
    }

    /// Appends a line. An `Err` changes nothing.
    pub fn add(&mut self, clause: &[i32], hints: &[u64]) -> Result<(), AllocError>
        requires literals { AreLiterals 2147483647 clause.now }
        requires hints { All (λ h. 0 < h) hints.now }
        ensures added { OnOk result (self.new ≡ self.old ++ record { literals = clause.now; hints = hints.now } ∷ []) }
        ensures unchanged { OnErr result (self.new ≡ self.old) }
    {
        add_both(&mut self.clauses, &mut self.hints, clause, hints)?;
        Ok(())
    }

    /// How many lines it has.
    pub fn len(&self) -> u64
        ensures value { result ≡ length self.now }
        ensures lines { AreLines self.now }
    {
        self.clauses.len() as u64
    }

    /// The literals of line i, counted from 0.
    pub fn clause(&self, i: u64) -> &[i32]
        requires { i < length self.now }
        ensures value { result.now ≡ (line_at self.now i).literals }
        ensures literals { AreLiterals 2147483647 result.now }
    {
        self.clauses.get(i as usize)
    }

    /// The hints of line i, counted from 0: numbers of clauses, from 1.
    pub fn hints(&self, i: u64) -> &[u64]
        requires { i < length self.now }
        ensures value { result.now ≡ (line_at self.now i).hints }
        ensures given { All (λ h. 0 < h) result.now }
    {
        self.hints.get(i as usize)
    }
}

// Appends to both, or to none.
fn add_both(
    clauses: &mut Arena<i32>,
    rows: &mut Arena<u64>,
    clause: &[i32],
    hints: &[u64],
) -> Result<(), AllocError>
    ensures clauses { OnOk result (clauses.new ≡ clauses.old ++ clause.now ∷ []) }
    ensures rows { OnOk result (rows.new ≡ rows.old ++ hints.now ∷ []) }
    ensures same_clauses { OnErr result (clauses.new ≡ clauses.old) }
    ensures same_rows { OnErr result (rows.new ≡ rows.old) }
{
    let before = clauses.len();
    clauses.add(clause)?;
    match rows.add(hints) {
        Ok(()) => Ok(()),
        Err(e) => {
            clauses.cut(before);
            Err(e)
        }
    }
}
