//! Between places and signals, and what a gate is in literals of the pair.
ghost use Rattle.std.specs.Prelude.{◌≡◌, ◌<◌, ◌≤◌, ◌+◌, ◌-◌, ◌*◌, ◌/◌, ℕ, List, length, Contains, IfSome, IfNone, slice_index, slice_index_or};
ghost use Rattle.circ_model.specs.Netlist.{IsSound, own, variables};
ghost use Rattle.circ_model.specs.Meaning.{IsSoundPair, places_of};
ghost use Rattle.product_machine.specs.declared.cell.Cell.TheVariants.{Low, Product as ProductOf};
ghost use Rattle.product_machine.specs.Cells.{signals};
ghost use Rattle.product_machine.specs.Signals.{signal_at, cell_at, IsGate};
ghost use Rattle.product_machine.specs.Tables.{Places, IsOwnPlace};

use crate::cell::Cell;
use crate::product::Product;
use aig_graph::Netlist;
use circ_model::{Lit, Signal};

impl Product {
    /// The signal at a place.
    pub fn signal(&self, place: u32) -> Signal
        requires { place < places_of self.now }
        ensures { result ≡ signal_at self.now place }
    {
        let _cells = self.cells();
        let given = self.inputs();
        let own_left = self.left().own_count();
        if place == 0 {
            Signal::Const
        } else if place <= given {
            Signal::Input(place - 1)
        } else if place <= given + own_left {
            Signal::Left(self.left().variable_at(place))
        } else {
            Signal::Right(self.right().variable_at(place - own_left))
        }
    }

    /// The place of a signal, or none where the pair has no such signal.
    pub fn place(&self, signal: Signal) -> Option<u32>
        ensures within { IfSome result (λ p. p < places_of self.now) }
        ensures found { IfSome result (λ p. signal_at self.now p ≡ signal) }
        ensures none { IfNone result (Contains (signals self.now) signal → ⊥) }
    {
        let _cells = self.cells();
        match signal {
            Signal::Const => Some(0),
            Signal::Input(i) => { if i < self.inputs() { Some(1 + i) } else { None } }
            Signal::Left(v) => own_place(self.left(), self.left_places(), 0, v),
            Signal::Right(v) => {
                own_place(
                    self.right(),
                    self.right_places(),
                    self.left().own_count(),
                    v,
                )
            }
        }
    }

    /// The two literals of the gate at a place, left and right, as literals of the pair.
    pub fn gate(&self, place: u32) -> (Lit, Lit)
        requires within { place < places_of self.now }
        requires gate { IsGate (cell_at self.now place) }
        ensures { cell_at self.now place ≡ ProductOf result.0 result.1 }
    {
        gate_of(self.cells(), place)
    }
}

// The gate that stands at this place.
fn gate_of(table: &[Cell], place: u32) -> (Lit, Lit)
    requires within { place < length table.now }
    requires gate { IsGate (slice_index_or table.now place Low) }
    ensures { slice_index_or table.now place Low ≡ ProductOf result.0 result.1 }
{
    match table[place as usize] {
        Cell::Product(left, right) => (left, right),
        _ => unreachable!(),
    }
}

// The place of a netlist's latch or gate by its variable. The table may hold anything at other variables, so it is asked
// what stands at the place that it gives.
fn own_place(net: &Netlist, table: &[u32], shift: u32, v: u32) -> Option<u32>
    requires sound { IsSound net.now }
    requires table { Places net.now shift table.now }
    requires room { shift ≤ 1000001 }
    ensures found { IfSome result (λ p. IsOwnPlace net.now shift v p) }
    ensures none { IfNone result (Contains (own net.now) v → ⊥) }
{
    let at = v as usize;
    if at >= table.len() {
        return None;
    }
    let place = table[at];
    let count = net.variable_count();
    let shared = count - net.own_count();
    if place < shared + shift || place >= count + shift {
        return None;
    }
    if net.variable_at(place - shift) == v {
        Some(place)
    } else {
        None
    }
}
