//! What a netlist is built from, call by call.
ghost use Rattle.std.specs.Prelude.{◌≡◌, ◌≤◌, ◌<◌, ◌*◌, [], IfOk, Some, length};
ghost use Rattle.aig_graph.specs.Finish.{Finishes};
ghost use Rattle.aig_graph.specs.Given.{Adds, with_input, with_latch, with_output, with_gate, reset_of};

use crate::fault::BuildFault;
use crate::levels::levels_of;
use crate::netlist::Netlist;
use crate::order::sort_gates;
use crate::undefined::lowest_used;
use circ_model::{Gate, Latch, Lit, Reset};
use std::alloc::{AllocError, Global};
use std::marker::Model;

/// What a netlist is built from. Contracts see it as what it was given, in order: a netlist that need not be sound.
#[derive(Drop)]
pub struct NetBuilder {
    max_var: u32,
    inputs: Vec<u32>,
    latches: Vec<Latch>,
    outputs: Vec<Lit>,
    gates: Vec<Gate>,
    // by variable: 0 where it is not defined, 1 for an input or a latch, 2 plus a gate's number
    defined_as: Vec<u32>,
}

impl Model for NetBuilder {
    ghost use Rattle.circ_model.specs.Netlist.{Netlist as Net};
    ghost use Rattle.aig_graph.specs.Kept.{IsKept};

    ghost Value = { Net };

    ghost view = { λ b. record { max_var = b.max_var; inputs = b.inputs.items; latches = b.latches.items; outputs = b.outputs.items; gates = b.gates.items } };

    ghost invariant = { λ b. IsKept b.defined_as.items (record { max_var = b.max_var; inputs = b.inputs.items; latches = b.latches.items; outputs = b.outputs.items; gates = b.gates.items }) };
}

// What a reset literal means for the latch of this variable.
fn reset_from(var: u32, reset: Lit) -> Option<Reset>
    ensures { result ≡ reset_of var reset }
{
    if reset.var() == 0 {
        Some(if reset.complement() {
            Reset::One
        } else {
            Reset::Zero
        })
    } else if reset.var() == var && !reset.complement() {
        Some(Reset::Free)
    } else {
        None
    }
}

/// The literal that gives this reset to the latch of a variable, as `latch` takes it.
pub fn reset_literal(var: u32, reset: Reset) -> Lit
    requires few { var ≤ 1000000 }
    ensures { 0 < var → reset_of var result ≡ Some reset }
{
    match reset {
        Reset::Zero => Lit::of(0, false),
        Reset::One => Lit::of(0, true),
        Reset::Free => Lit::of(var, false),
    }
}

impl NetBuilder {
    /// A builder of a netlist with this greatest variable. Nothing is given so far.
    pub fn new(alloc: Global, max_var: u32) -> Result<NetBuilder, AllocError>
        requires { max_var ≤ 1000000 }
        ensures { IfOk result (λ b. b ≡ record { max_var = max_var; inputs = []; latches = []; outputs = []; gates = [] }) }
    {
        let defined_as = vec![in alloc; 0u32; max_var as usize + 1]?;
        Ok(NetBuilder {
            max_var,
            inputs: Vec::new(alloc),
            latches: Vec::new(alloc),
            outputs: Vec::new(alloc),
            gates: Vec::new(alloc),
            defined_as,
        })
    }

    /// Adds an input.
    pub fn input(&mut self, var: u32) -> Result<(), BuildFault>
        ensures { Adds result (with_input self.old var) self.old self.new }
    {
        if var == 0 || var > self.max_var {
            return Err(BuildFault::Literal);
        }
        if self.defined_as[var as usize] != 0 {
            return Err(BuildFault::Redefined);
        }
        self.inputs.push(var)?;
        self.defined_as[var as usize] = 1;
        Ok(())
    }

    /// Adds a latch. Its reset literal is 0, 1, or its own, which leaves its start free.
    pub fn latch(&mut self, var: u32, next: Lit, reset: Lit) -> Result<(), BuildFault>
        ensures { Adds result (with_latch self.old var next reset) self.old self.new }
    {
        if var == 0 || var > self.max_var || next.var() > self.max_var {
            return Err(BuildFault::Literal);
        }
        if self.defined_as[var as usize] != 0 {
            return Err(BuildFault::Redefined);
        }
        let Some(reset) = reset_from(var, reset) else {
            return Err(BuildFault::Reset);
        };
        self.latches.push(Latch { var, next, reset })?;
        self.defined_as[var as usize] = 1;
        Ok(())
    }

    /// Adds an output. A netlist has at most 1,000,000.
    pub fn output(&mut self, lit: Lit) -> Result<(), BuildFault>
        requires { length self.old.outputs < 1000000 }
        ensures { Adds result (with_output self.old lit) self.old self.new }
    {
        if lit.var() > self.max_var {
            return Err(BuildFault::Literal);
        }
        self.outputs.push(lit)?;
        Ok(())
    }

    /// Adds a gate, the product of two literals. It may stand before the gates that it uses.
    pub fn gate(&mut self, var: u32, left: Lit, right: Lit) -> Result<(), BuildFault>
        ensures { Adds result (with_gate self.old var left right) self.old self.new }
    {
        if var == 0
            || var > self.max_var
            || left.var() > self.max_var
            || right.var() > self.max_var
        {
            return Err(BuildFault::Literal);
        }
        if self.defined_as[var as usize] != 0 {
            return Err(BuildFault::Redefined);
        }
        let number = self.gates.len() as u32;
        self.gates.push(Gate { var, left, right })?;
        self.defined_as[var as usize] = number + 2;
        Ok(())
    }

    /// The netlist of exactly what was given, its gates put into the order of (level, variable), or what is wrong with the whole.
    pub fn finish(self, alloc: Global) -> Result<Netlist, BuildFault>
        ensures { Finishes result self }
    {
        let NetBuilder {
            max_var,
            inputs,
            latches,
            outputs,
            mut gates,
            defined_as,
        } = self;
        let none = max_var + 1;
        let least = lowest_used(&defined_as, none, &latches, &outputs, &gates);
        if least < none {
            return Err(BuildFault::Undefined(least));
        }
        let Some(levels) = levels_of(alloc, &defined_as, &gates)? else {
            return Err(BuildFault::Cyclic);
        };
        sort_gates(&mut gates, &levels)?;
        Ok(Netlist::of(max_var, inputs, latches, outputs, gates, levels))
    }
}
