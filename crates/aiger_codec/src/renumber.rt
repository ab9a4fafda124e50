//! New numbers for the variables of a netlist: the inputs, the latches and the gates from 1 up, in their order. They stand
//! in a table, an entry for each variable.
ghost use Rattle.std.specs.Prelude.{◌≡◌, ◌<◌, ◌≤◌, ◌/◌, IfOk, length, slice_index};
ghost use Rattle.circ_model.specs.Netlist.{IsSound, variables};
ghost use Rattle.circ_model.specs.Meaning.{literal_by};
ghost use Rattle.aiger_codec.specs.Renumbering.{IsNumbering, says};

use aig_graph::Netlist;
use circ_model::Lit;
use std::alloc::{AllocError, Global};

// The new number of each variable that there is.
pub(crate) fn numbering(alloc: Global, net: &Netlist) -> Result<Vec<u32>, AllocError>
    requires { IsSound net.now }
    ensures { IfOk result (λ t. IsNumbering net.now (length (variables net.now)) t.items) }
{
    let size = net.max_var() as usize + 1;
    let count = net.variable_count();
    let mut table = vec![in alloc; 0u32; size]?;
    for number in 0..count {
        let v = net.variable_at(number) as usize;
        table[v] = number;
    }
    Ok(table)
}

// A literal with the new number of its variable.
pub(crate) fn renamed(table: &[u32], lit: Lit) -> u32
    requires within { lit / 2 < length table.now }
    requires room { slice_index table.now (lit / 2) < 2147483648 }
    ensures { result ≡ literal_by (says table.now) lit }
{
    2 * table[lit.var() as usize] + if lit.complement() { 1 } else { 0 }
}
