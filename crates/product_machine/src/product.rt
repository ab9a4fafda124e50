//! A pair of netlists on shared inputs. What stands at each place is kept in one table, made once, so that a frame is one
//! pass over it; next literals and outputs have arrays of their own. The product machine is van Eijk's (2000).
ghost use Rattle.std.specs.Prelude.{◌≡◌, ◌<◌, ◌≤◌, ◌+◌, ◌*◌, ◌/◌, ℕ, List, Bool, false, length};
ghost use Rattle.circ_model.specs.Meaning.{bit};
ghost use Rattle.circ_model.specs.Meaning.{IsSoundPair, row, places_of, outputs_of, latches_of, resets, next_state, value_in};
ghost use Rattle.circ_model.specs.declared.netlist.Reset.TheVariants.{Free};
ghost use Rattle.product_machine.specs.States.{nexts, output_pair, output_pairs, ArePartners, IsTiedLatch};
ghost use Rattle.std.specs.Prelude.{map, slice_index, slice_index_or, true, IfSome, IfNone, IfOk, OnOk, Err};
ghost use Rattle.std.specs.Result.{IfErr};
ghost use Rattle.product_machine.specs.Cells.{EachAt, like_in};
ghost use Rattle.product_machine.specs.Eval.{IsFrame, Ready};
ghost use Rattle.product_machine.specs.Cells.{cells};
ghost use Rattle.product_machine.specs.Faults.{Pairs};
ghost use Rattle.product_machine.specs.Tables.{Places, AreTables};
ghost use Rattle.circ_model.specs.Netlist.{own};

use crate::build::{Tables, cells_of, free_count, nexts_of, outputs_of, tables_of};
use crate::rows::both;
use crate::{Cell, Start};
use aig_graph::{Netlist, literal_bit};
use bit_rows::BitRow;
use circ_model::{Lit, Reset};
use std::alloc::{AllocError, Global};
use std::marker::Model;

/// Two netlists on shared inputs, seen as the pair of them, tied or not.
#[derive(Drop)]
pub struct Product {
    left: Netlist,
    right: Netlist,
    table: Vec<Cell>,
    next_literals: Vec<Lit>,
    output_literals: Vec<(Lit, Lit)>,
    tables: Tables,
    tied: bool,
}

impl Model for Product {
    ghost use Rattle.std.specs.Prelude.{◌≡◌};
    ghost use Rattle.circ_model.specs.Meaning.{Pair, IsSoundPair};
    ghost use Rattle.product_machine.specs.Cells.{cells};
    ghost use Rattle.product_machine.specs.States.{nexts, output_pairs};
    ghost use Rattle.product_machine.specs.Tables.{AreTables};

    ghost Value = { Pair };

    ghost view = { λ p. record { left = p.left; right = p.right; tied = p.tied } };

    ghost invariant = { λ p. IsSoundPair (record { left = p.left; right = p.right; tied = p.tied })
        × (p.table.items ≡ cells (record { left = p.left; right = p.right; tied = p.tied }))
        × (p.next_literals.items ≡ nexts (record { left = p.left; right = p.right; tied = p.tied }))
        × (p.output_literals.items ≡ output_pairs (record { left = p.left; right = p.right; tied = p.tied }))
        × AreTables p.left p.right p.tables.left.items p.tables.right.items };
}

/// Why two netlists are no pair.
#[derive(Drop, Debug)]
pub enum PairFault {
    Inputs(u32, u32),
    Outputs(u32, u32),
    /// The numbers of free latches, where these were to be tied.
    Free(u32, u32),
    Memory,
}

impl From<AllocError> for PairFault {
    ghost use Rattle.product_machine.specs.declared.product.PairFault.TheVariants.{Memory};

    ghost from_gives = { λ _ e. e ≡ Memory };

    fn from(_: AllocError) -> PairFault {
        PairFault::Memory
    }
}

// What a pair keeps beside its netlists.
struct Parts {
    table: Vec<Cell>,
    next_literals: Vec<Lit>,
    output_literals: Vec<(Lit, Lit)>,
    tables: Tables,
}

// Whether the counts of two netlists agree, or the first that differs.
fn compare(left: &Netlist, right: &Netlist, tied: bool) -> Result<(), PairFault>
    ensures agree { OnOk result (IsSoundPair (record { left = left.now; right = right.now; tied = tied })) }
    ensures differ { IfErr result (λ fault. Pairs tied left.now right.now (Err fault)) }
{
    let inputs = (left.inputs().len() as u32, right.inputs().len() as u32);
    if inputs.0 != inputs.1 {
        return Err(PairFault::Inputs(inputs.0, inputs.1));
    }
    let outputs = (left.outputs().len() as u32, right.outputs().len() as u32);
    if outputs.0 != outputs.1 {
        return Err(PairFault::Outputs(outputs.0, outputs.1));
    }
    let free = (free_count(left), free_count(right));
    if tied && free.0 != free.1 {
        return Err(PairFault::Free(free.0, free.1));
    }
    Ok(())
}

fn parts_of(alloc: Global, left: &Netlist, right: &Netlist, tied: bool) -> Result<Parts, AllocError>
    requires { IsSoundPair (record { left = left.now; right = right.now; tied = tied }) }
    ensures { IfOk result (λ parts. (parts.table.items ≡ cells (record { left = left.now; right = right.now; tied = tied }))
        × (parts.next_literals.items ≡ nexts (record { left = left.now; right = right.now; tied = tied }))
        × (parts.output_literals.items ≡ output_pairs (record { left = left.now; right = right.now; tied = tied }))
        × AreTables left.now right.now parts.tables.left.items parts.tables.right.items) }
{
    let tables = tables_of(alloc, left, right)?;
    Ok(Parts {
        table: cells_of(alloc, left, right, tied, &tables)?,
        next_literals: nexts_of(alloc, left, right, &tables)?,
        output_literals: outputs_of(alloc, left, right, &tables)?,
        tables,
    })
}

impl Product {
    /// The pair of two netlists, where their counts agree. Each free latch starts with a bit of its own.
    pub fn new(alloc: Global, left: Netlist, right: Netlist) -> Result<Product, PairFault>
        ensures { Pairs false left right result }
    {
        Product::paired(alloc, left, right, false)
    }

    /// The pair of two netlists, where their counts agree, those of free latches too. The j-th free latch of the right
    /// netlist starts as the j-th of the left.
    pub fn tied(alloc: Global, left: Netlist, right: Netlist) -> Result<Product, PairFault>
        ensures { Pairs true left right result }
    {
        Product::paired(alloc, left, right, true)
    }

    fn paired(
        alloc: Global,
        left: Netlist,
        right: Netlist,
        tied: bool,
    ) -> Result<Product, PairFault>
        ensures { Pairs tied left right result }
    {
        compare(&left, &right, tied)?;
        let Parts {
            table,
            next_literals,
            output_literals,
            tables,
        } = parts_of(alloc, &left, &right, tied)?;
        Ok(Product {
            left,
            right,
            table,
            next_literals,
            output_literals,
            tables,
            tied,
        })
    }

    /// Writes the value of each place.
    pub fn eval(&self, state: &BitRow, inputs: &BitRow, values: &mut BitRow)
        requires frame { IsFrame self.now state.now inputs.now }
        requires size { length values.old ≡ places_of self.now }
        ensures { values.new ≡ row self.now state.now inputs.now }
    {
        let given = self.left.inputs().len() as u32;
        let lefts = self.left.latches().len() as u32;
        let gates = self.left.gates().len() as u32;
        let rights = self.right.latches().len() as u32;
        let widths = Widths {
            given,
            lefts,
            gates,
            rights,
        };
        place_free(state, inputs, values, &widths);
        self.fill(state, inputs, values);
    }

    // Writes the constant and the gates.
    fn fill(&self, state: &BitRow, inputs: &BitRow, values: &mut BitRow)
        requires frame { IsFrame self.now state.now inputs.now }
        requires size { length values.old ≡ places_of self.now }
        requires ready { EachAt (Ready values.old (row self.now state.now inputs.now)) 0 (cells self.now) }
        ensures { values.new ≡ row self.now state.now inputs.now }
    {
        let n = self.table.len() as u32;
        for p in 0..n {
            match self.table[p as usize] {
                Cell::Low => values.set(p, false),
                Cell::Product(left, right) => {
                    let bit = both(values, left, right);
                    values.set(p, bit);
                }
                Cell::Given => {}
                Cell::Held(_, _) => {}
            }
        }
    }

    /// What stands at each place.
    pub fn cells(&self) -> &[Cell]
        ensures pair { IsSoundPair self.entry.now }
        ensures cells { result.now ≡ cells self.entry.now }
    {
        self.table.as_slice()
    }

    /// The number of places, which is that of the signals.
    pub fn len(&self) -> u32
        ensures places { result ≡ places_of self.now }
        ensures few { result ≤ 2000001 }
    {
        self.table.len() as u32
    }

    /// The number of inputs, which both netlists share by position.
    pub fn inputs(&self) -> u32
        ensures { result ≡ length self.now.left.inputs }
    {
        self.left.inputs().len() as u32
    }

    /// The number of outputs, paired by position.
    pub fn outputs(&self) -> u32
        ensures { result ≡ outputs_of self.now }
    {
        self.output_literals.len() as u32
    }

    /// The number of latches of both netlists: the length of a state, in which the left netlist's stand first.
    pub fn latches(&self) -> u32
        ensures { result ≡ latches_of self.now }
    {
        self.next_literals.len() as u32
    }

    /// Output j of the left and of the right netlist, as literals of the pair.
    pub fn output(&self, j: u32) -> (Lit, Lit)
        requires { j < outputs_of self.now }
        ensures { result ≡ output_pair self.now j }
    {
        self.output_literals[j as usize]
    }

    /// The reset of latch i of the state.
    pub fn reset(&self, i: u32) -> Reset
        requires { i < latches_of self.now }
        ensures { result ≡ slice_index_or (resets self.now) i Free }
    {
        let lefts = self.left.latches().len();
        let i = i as usize;
        if i < lefts {
            self.left.latches()[i].reset
        } else {
            self.right.latches()[i - lefts].reset
        }
    }

    /// Whether the free latches of both netlists start equal.
    pub fn is_tied(&self) -> bool
        ensures { result ≡ self.now.tied }
    {
        self.tied
    }

    /// The left partner of latch i of the state, which starts equal; none where latch i isn't a free latch of the right
    /// netlist of a tied pair.
    pub fn tie(&self, i: u32) -> Option<u32>
        requires { i < latches_of self.now }
        ensures some { IfSome result (ArePartners self.now i) }
        ensures none { IfNone result (IsTiedLatch self.now i → ⊥) }
    {
        let cells = self.cells();
        let lefts = self.left().latches().len() as u32;
        if i < lefts {
            return None;
        }
        let from = 1 + self.inputs();
        match place_like(cells[(from + self.left().own_count() + (i - lefts)) as usize]) {
            None => None,
            Some(place) => Some(place - from),
        }
    }

    /// The next literal of latch i of the state, as a literal of the pair.
    pub fn next(&self, i: u32) -> Lit
        requires { i < latches_of self.now }
        ensures { result ≡ slice_index (nexts self.now) i }
    {
        self.next_literals[i as usize]
    }

    /// Writes the state of the next frame from the values of this one: each latch gets its next literal's value.
    pub fn next_state(&self, values: &BitRow, state: &mut BitRow)
        requires values { length values.now ≡ places_of self.now }
        requires state { length state.old ≡ latches_of self.now }
        ensures values { state.new ≡ map (value_in values.now) (nexts self.now) }
        ensures next { (inputs : List Bool) → IsFrame self.now state.old inputs → values.now ≡ row self.now state.old inputs
            → state.new ≡ next_state self.now state.old inputs }
    {
        for i in 0..state.len() {
            let bit = literal_bit(values, self.next_literals[i as usize]);
            state.set(i, bit);
        }
    }

    // The place of each variable of the left netlist, and of the right one.
    pub(crate) fn left_places(&self) -> &[u32]
        ensures { Places self.entry.now.left 0 result.now }
    {
        self.tables.left.as_slice()
    }

    pub(crate) fn right_places(&self) -> &[u32]
        ensures { Places self.entry.now.right (length (own self.entry.now.left)) result.now }
    {
        self.tables.right.as_slice()
    }

    /// The left netlist.
    pub fn left(&self) -> &Netlist
        ensures { result.now ≡ self.entry.now.left }
    {
        &self.left
    }

    /// The right netlist.
    pub fn right(&self) -> &Netlist
        ensures { result.now ≡ self.entry.now.right }
    {
        &self.right
    }
}

// The place as which a latch starts.
fn place_like(cell: Cell) -> Option<u32>
    ensures { result ≡ like_in cell }
{
    match cell {
        Cell::Held(Start::Like(place), _) => Some(place),
        _ => None,
    }
}

// How many inputs, latches and gates of the left side, and latches of the right side there are.
#[derive(Drop)]
struct Widths {
    given: u32,
    lefts: u32,
    gates: u32,
    rights: u32,
}

// Writes the bits of inputs and latches at their places.
fn place_free(state: &BitRow, inputs: &BitRow, values: &mut BitRow, widths: &Widths)
    requires states { length state.now ≡ widths.now.lefts + widths.now.rights }
    requires inputs { length inputs.now ≡ widths.now.given }
    requires size { 1 + widths.now.given + widths.now.lefts + widths.now.gates + widths.now.rights ≤ length values.old }
    requires room { 1 + widths.now.given + widths.now.lefts + widths.now.gates + widths.now.rights < 4294967296 }
    ensures size { length values.new ≡ length values.old }
    ensures inputs { (k : ℕ) → k < widths.now.given → bit values.new (1 + k) ≡ bit inputs.now k }
    ensures left { (k : ℕ) → k < widths.now.lefts → bit values.new (1 + widths.now.given + k) ≡ bit state.now k }
    ensures right { (k : ℕ) → k < widths.now.rights → bit values.new (1 + widths.now.given + widths.now.lefts + widths.now.gates + k) ≡ bit state.now (widths.now.lefts + k) }
{
    let right_at = 1 + widths.given + widths.lefts + widths.gates;
    values.copy_bits(1, inputs, 0, widths.given);
    values.copy_bits(1 + widths.given, state, 0, widths.lefts);
    values.copy_bits(right_at, state, widths.lefts, widths.rights);
}
