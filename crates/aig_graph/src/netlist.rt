//! Netlists that are sound, and the values of their literals in a row.
ghost use Rattle.std.specs.Prelude.{◌≡◌, ◌<◌, ◌≤◌, ◌+◌, ◌*◌, ◌/◌, ◌%◌, ℕ, List, Bool, false, length, slice_index, slice_index_or, Contains};
ghost use Rattle.circ_model.specs.Netlist.{own, variables, IsSound, IsDefined};
ghost use Rattle.circ_model.specs.Meaning.{bit, literal_value, product, value};
ghost use Rattle.aig_graph.specs.Eval.{leaves_in, HasValues, IsEvaluated};
ghost use Rattle.aig_graph.specs.Levels.{IsLevelOf, IsHeld};

use bit_rows::BitRow;
use circ_model::{Gate, Latch, Lit};
use std::marker::Model;

/// A sound netlist: each variable is defined at most once, each used one is defined, and the gates stand in the order of
/// (level, variable). Contracts see it as the record of its lists.
#[derive(Drop)]
pub struct Netlist {
    max_var: u32,
    inputs: Vec<u32>,
    latches: Vec<Latch>,
    outputs: Vec<Lit>,
    gates: Vec<Gate>,
    // the level of each variable from 0 to max_var
    levels: Vec<u32>,
}

impl Model for Netlist {
    ghost use Rattle.circ_model.specs.Netlist.{Netlist as Net};
    ghost use Rattle.aig_graph.specs.Levels.{IsHeld};

    ghost Value = { Net };

    ghost view = { λ n. record { max_var = n.max_var; inputs = n.inputs.items; latches = n.latches.items; outputs = n.outputs.items; gates = n.gates.items } };

    ghost invariant = { λ n. IsHeld (record { max_var = n.max_var; inputs = n.inputs.items; latches = n.latches.items; outputs = n.outputs.items; gates = n.gates.items }) n.levels.items };
}

/// The value of a literal in a row with a bit for each variable, or for each place of a pair.
pub fn literal_bit(row: &BitRow, lit: Lit) -> bool
    requires { lit / 2 < length row.now }
    ensures { result ≡ literal_value (bit row.now) lit }
{
    let plain = row.get(lit.var());
    if lit.complement() { !plain } else { plain }
}

// The product of a gate's literals.
fn product_of(row: &BitRow, gate: &Gate) -> bool
    requires left { gate.now.left / 2 < length row.now }
    requires right { gate.now.right / 2 < length row.now }
    ensures { result ≡ product (bit row.now) gate.now }
{
    literal_bit(row, gate.left) && literal_bit(row, gate.right)
}

impl Netlist {
    /// A netlist of these parts, which are sound.
    pub(crate) fn of(
        max_var: u32,
        inputs: Vec<u32>,
        latches: Vec<Latch>,
        outputs: Vec<Lit>,
        gates: Vec<Gate>,
        levels: Vec<u32>,
    ) -> Netlist
        requires { IsHeld (record { max_var = max_var; inputs = inputs.items; latches = latches.items; outputs = outputs.items; gates = gates.items }) levels.items }
        ensures { result ≡ record { max_var = max_var; inputs = inputs.items; latches = latches.items; outputs = outputs.items; gates = gates.items } }
    {
        Netlist {
            max_var,
            inputs,
            latches,
            outputs,
            gates,
            levels,
        }
    }

    /// The greatest variable, which need not be defined.
    pub fn max_var(&self) -> u32
        ensures same { result ≡ self.now.max_var }
        ensures few { result ≤ 1000000 }
    {
        self.max_var
    }

    /// The variables of the inputs, in the order in which they were given.
    pub fn inputs(&self) -> &[u32]
        ensures same { result.now ≡ self.entry.now.inputs }
        ensures sound { IsSound self.entry.now }
    {
        self.inputs.as_slice()
    }

    /// The latches, in the order in which they were given.
    pub fn latches(&self) -> &[Latch]
        ensures { result.now ≡ self.entry.now.latches }
    {
        self.latches.as_slice()
    }

    /// The output literals, in the order in which they were given.
    pub fn outputs(&self) -> &[Lit]
        ensures same { result.now ≡ self.entry.now.outputs }
        ensures few { length result.now ≤ 1000000 }
    {
        self.outputs.as_slice()
    }

    /// The gates, in the order of (level, variable).
    pub fn gates(&self) -> &[Gate]
        ensures { result.now ≡ self.entry.now.gates }
    {
        self.gates.as_slice()
    }

    /// The number of latches and gates.
    pub fn own_count(&self) -> u32
        ensures count { result ≡ length (own self.now) }
        ensures few { result ≤ 1000001 }
    {
        let _sound = self.inputs();
        self.latches().len() as u32 + self.gates().len() as u32
    }

    /// The number of variables: the constant, the inputs, the latches and the gates.
    pub fn variable_count(&self) -> u32
        ensures count { result ≡ length (variables self.now) }
        ensures few { result ≤ 1000001 }
    {
        1 + self.inputs().len() as u32 + self.own_count()
    }

    /// The variable at a place of that list: the constant, the inputs, the latches and the gates, in their orders.
    pub fn variable_at(&self, place: u32) -> u32
        requires { place < length (variables self.now) }
        ensures { result ≡ slice_index (variables self.now) place }
    {
        if place == 0 {
            return 0;
        }
        let inputs = self.inputs();
        let i = place as usize - 1;
        if i < inputs.len() {
            return inputs[i];
        }
        let latches = self.latches();
        let k = i - inputs.len();
        if k < latches.len() {
            return latches[k].var;
        }
        self.gates()[k - latches.len()].var
    }

    /// The level of a variable: 0 for the constant, an input or a latch, and for a gate one more than the greater level of what it multiplies.
    pub fn level(&self, var: u32) -> u32
        requires { Contains (variables self.now) var }
        ensures { IsLevelOf self.now var result }
    {
        self.levels[var as usize]
    }

    /// The value of a literal, where the row has the values of all variables, as `eval` leaves them.
    pub fn value(&self, lit: Lit, row: &BitRow) -> bool
        requires size { length row.now ≡ self.now.max_var + 1 }
        requires defined { IsDefined self.now lit }
        requires values { HasValues self.now (leaves_in self.now row.now) row.now }
        ensures { result ≡ literal_value (value self.now (leaves_in self.now row.now)) lit }
    {
        let _top = &self.max_var;
        literal_bit(row, lit)
    }

    /// Writes the constant and the gates from the inputs and latches that the row holds.
    pub fn eval(&self, row: &mut BitRow)
        requires { length row.old ≡ self.now.max_var + 1 }
        ensures { IsEvaluated self.now row.old row.new }
    {
        row.set(0, false);
        for gate in self.gates.iter() {
            let bit = product_of(row, gate);
            row.set(gate.var, bit);
        }
    }
}
