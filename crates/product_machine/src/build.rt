//! The arrays of a pair, made from its two netlists: where each variable stands, what stands at each place, and the next
//! literals and outputs, all as literals of the pair.
ghost use Rattle.std.specs.Prelude.{◌≡◌, ◌<◌, ◌≤◌, ◌+◌, ◌-◌, ◌*◌, ◌/◌, ◌%◌, ◌++◌, ℕ, List, Bool, [], length, map, IfOk, OnOk, All, slice_index};
ghost use Rattle.circ_model.specs.Netlist.{IsSound, variables};
ghost use Rattle.std.specs.Prelude.{◌∷◌};
ghost use Rattle.std.specs.Prelude.{if◌then◌else◌, true, false, slice_get};
ghost use Rattle.circ_model.specs.Meaning.{free_latches, is_free, literal_by, IsSoundPair};
ghost use Rattle.circ_model.specs.Netlist.{own};
ghost use Rattle.product_machine.specs.declared.cell.Cell.TheVariants.{Low, Given};
ghost use Rattle.product_machine.specs.Cells.{own_cells, latch_cells, gate_cell, start_by, partners, cells};
ghost use Rattle.product_machine.specs.Tables.{IsTable, AreTables, outputs_by, moved, says};
ghost use Rattle.product_machine.specs.States.{nexts, output_pairs};

use crate::{Cell, Start};
use aig_graph::Netlist;
use circ_model::{Gate, Latch, Lit, Reset};
use std::alloc::{AllocError, Global};

// The place of each variable.
pub(crate) fn place_table(
    alloc: Global,
    net: &Netlist,
    n: u32,
    shift: u32,
) -> Result<Vec<u32>, AllocError>
    requires sound { IsSound net.now }
    requires all { n ≡ length (variables net.now) }
    requires room { n + shift < 2147483648 }
    ensures { IfOk result (λ t. IsTable net.now shift n t.items) }
{
    let size = net.max_var() as usize + 1;
    let given = net.inputs().len();
    let mut table = vec![in alloc; 0u32; size]?;
    for q in 0..n {
        let place = if (q as usize) < 1 + given {
            q
        } else {
            q + shift
        };
        let v = net.variable_at(q) as usize;
        table[v] = place;
    }
    Ok(table)
}

// A literal by its table.
fn translated(table: &[u32], lit: Lit) -> Lit
    requires within { lit / 2 < length table.now }
    requires room { slice_index table.now (lit / 2) < 2147483648 }
    ensures { result ≡ literal_by (says table.now) lit }
{
    Lit::of(table[lit.var() as usize], lit.complement())
}

// What a latch with this reset starts with, where so many free ones stand before it.
fn start_of(reset: Reset, partners: &[u32], used: usize) -> Start
    ensures { result ≡ start_by reset (slice_get partners.now used) }
{
    match reset {
        Reset::Zero => Start::Zero,
        Reset::One => Start::One,
        Reset::Free => {
            if used < partners.len() {
                Start::Like(partners[used])
            } else {
                Start::Free
            }
        }
    }
}

// How many free latches it is.
fn free_number(reset: Reset) -> usize
    ensures { result ≡ (if is_free reset then 1 else 0) }
{
    match reset {
        Reset::Zero => 0,
        Reset::One => 0,
        Reset::Free => 1,
    }
}

// The cells of latches. The partners are the places as which the free ones start, in their order.
fn push_latches(
    cells: &mut Vec<Cell>,
    latches: &[Latch],
    partners: &[u32],
    table: &[u32],
) -> Result<(), AllocError>
    requires within { All (λ l. l.next / 2 < length table.now) latches.now }
    requires room { All (λ p. p < 2147483648) table.now }
    ensures { OnOk result (cells.new.items ≡ cells.old.items ++ latch_cells (literal_by (says table.now)) partners.now latches.now) }
{
    let mut used = 0;
    for k in 0..latches.len() {
        let latch = latches[k];
        let start = start_of(latch.reset, partners, used);
        used += free_number(latch.reset);
        cells.push(Cell::Held(start, translated(table, latch.next)))?;
    }
    Ok(())
}

// The places of a netlist's free latches, in their order, where its latches stand from a place on.
fn free_places(alloc: Global, net: &Netlist, from: u32) -> Result<Vec<u32>, AllocError>
    requires { from + length net.now.latches < 2147483648 }
    ensures { IfOk result (λ v. v.items ≡ map (λ k. from + k) (free_latches net.now)) }
{
    let mut places = Vec::new(alloc);
    let latches = net.latches();
    for k in 0..latches.len() {
        push_free(&mut places, latches[k].reset, from + k as u32)?;
    }
    Ok(places)
}

// The place of a latch, where it is free.
fn push_free(places: &mut Vec<u32>, reset: Reset, place: u32) -> Result<(), AllocError>
    ensures { OnOk result (places.new.items ≡ places.old.items ++ (if is_free reset then place ∷ [] else [])) }
{
    match reset {
        Reset::Zero => {}
        Reset::One => {}
        Reset::Free => places.push(place)?,
    }
    Ok(())
}

// The partners of the right netlist's free latches.
fn partners_of(
    alloc: Global,
    left: &Netlist,
    right: &Netlist,
    tied: bool,
) -> Result<Vec<u32>, AllocError>
    requires { IsSound left.now }
    ensures { IfOk result (λ v. v.items ≡ partners (record { left = left.now; right = right.now; tied = tied })) }
{
    if tied {
        let places = free_places(alloc, left, 1 + left.inputs().len() as u32)?;
        return Ok(places);
    }
    Ok(Vec::new(alloc))
}

// The number of free latches.
pub(crate) fn free_count(net: &Netlist) -> u32
    requires { IsSound net.now }
    ensures { result ≡ length (free_latches net.now) }
{
    let mut count = 0;
    let latches = net.latches();
    for k in 0..latches.len() {
        count += free_number(latches[k].reset);
    }
    count as u32
}

// The cells of gates.
fn push_gates(cells: &mut Vec<Cell>, gates: &[Gate], table: &[u32]) -> Result<(), AllocError>
    requires left { All (λ g. g.left / 2 < length table.now) gates.now }
    requires right { All (λ g. g.right / 2 < length table.now) gates.now }
    requires room { All (λ p. p < 2147483648) table.now }
    ensures { OnOk result (cells.new.items ≡ cells.old.items ++ map (gate_cell (literal_by (says table.now))) gates.now) }
{
    for gate in gates {
        cells.push(Cell::Product(translated(table, gate.left), translated(table, gate.right)))?;
    }
    Ok(())
}

// A side's latches and gates.
fn push_side(
    cells: &mut Vec<Cell>,
    net: &Netlist,
    partners: &[u32],
    table: &[u32],
) -> Result<(), AllocError>
    requires sound { IsSound net.now }
    requires size { length table.now ≡ net.now.max_var + 1 }
    requires room { All (λ p. p < 2147483648) table.now }
    ensures { OnOk result (cells.new.items ≡ cells.old.items ++ own_cells (literal_by (says table.now)) partners.now net.now) }
{
    push_latches(cells, net.latches(), partners, table)?;
    push_gates(cells, net.gates(), table)?;
    Ok(())
}

// The constant and the inputs.
fn push_shared(cells: &mut Vec<Cell>, inputs: &[u32]) -> Result<(), AllocError>
    ensures { OnOk result (cells.new.items ≡ cells.old.items ++ (Low ∷ map (λ v. Given) inputs.now)) }
{
    cells.push(Cell::Low)?;
    push_inputs(cells, inputs)?;
    Ok(())
}

fn push_inputs(cells: &mut Vec<Cell>, inputs: &[u32]) -> Result<(), AllocError>
    ensures { OnOk result (cells.new.items ≡ cells.old.items ++ map (λ v. Given) inputs.now) }
{
    for _input in inputs {
        cells.push(Cell::Given)?;
    }
    Ok(())
}

// The next literals of latches.
fn push_nexts(nexts: &mut Vec<Lit>, latches: &[Latch], table: &[u32]) -> Result<(), AllocError>
    requires within { All (λ l. l.next / 2 < length table.now) latches.now }
    requires room { All (λ p. p < 2147483648) table.now }
    ensures { OnOk result (nexts.new.items ≡ nexts.old.items ++ map (λ l. literal_by (says table.now) l.next) latches.now) }
{
    for latch in latches {
        nexts.push(translated(table, latch.next))?;
    }
    Ok(())
}

// The outputs of both sides.
fn push_outputs(
    outputs: &mut Vec<(Lit, Lit)>,
    left: &[Lit],
    right: &[Lit],
    left_table: &[u32],
    right_table: &[u32],
) -> Result<(), AllocError>
    requires none { outputs.old.items ≡ [] }
    requires same { length right.now ≡ length left.now }
    requires left_within { All (λ o. o / 2 < length left_table.now) left.now }
    requires right_within { All (λ o. o / 2 < length right_table.now) right.now }
    requires left_room { All (λ p. p < 2147483648) left_table.now }
    requires right_room { All (λ p. p < 2147483648) right_table.now }
    ensures { OnOk result (outputs.new.items ≡ outputs_by (says left_table.now) (says right_table.now) left.now right.now) }
{
    for j in 0..left.len() {
        let first = translated(left_table, left[j]);
        let second = translated(right_table, right[j]);
        outputs.push((first, second))?;
    }
    Ok(())
}

// The place of each variable of both sides.
#[derive(Drop)]
pub(crate) struct Tables {
    pub left: Vec<u32>,
    pub right: Vec<u32>,
}

pub(crate) fn tables_of(
    alloc: Global,
    left: &Netlist,
    right: &Netlist,
) -> Result<Tables, AllocError>
    requires { IsSoundPair (record { left = left.now; right = right.now; tied = false }) }
    ensures { IfOk result (λ t. AreTables left.now right.now t.left.items t.right.items) }
{
    let lefts = left.variable_count();
    let rights = right.variable_count();
    let shift = left.own_count();
    Ok(Tables {
        left: place_table(alloc, left, lefts, 0)?,
        right: place_table(alloc, right, rights, shift)?,
    })
}

// The cells of a pair, tied or not.
pub(crate) fn cells_of(
    alloc: Global,
    left: &Netlist,
    right: &Netlist,
    tied: bool,
    tables: &Tables,
) -> Result<Vec<Cell>, AllocError>
    requires sound { IsSoundPair (record { left = left.now; right = right.now; tied = tied }) }
    requires tables { AreTables left.now right.now tables.now.left.items tables.now.right.items }
    ensures { IfOk result (λ v. v.items ≡ cells (record { left = left.now; right = right.now; tied = tied })) }
{
    let partners = partners_of(alloc, left, right, tied)?;
    let mut table = Vec::new(alloc);
    push_shared(&mut table, left.inputs())?;
    push_side(&mut table, left, &[], tables.left.as_slice())?;
    push_side(
        &mut table,
        right,
        partners.as_slice(),
        tables.right.as_slice(),
    )?;
    Ok(table)
}

// The next literals of a pair's latches.
pub(crate) fn nexts_of(
    alloc: Global,
    left: &Netlist,
    right: &Netlist,
    tables: &Tables,
) -> Result<Vec<Lit>, AllocError>
    requires sound { IsSoundPair (record { left = left.now; right = right.now; tied = false }) }
    requires tables { AreTables left.now right.now tables.now.left.items tables.now.right.items }
    ensures { IfOk result (λ v. v.items ≡ nexts (record { left = left.now; right = right.now; tied = false })) }
{
    let mut nexts = Vec::new(alloc);
    push_nexts(&mut nexts, left.latches(), tables.left.as_slice())?;
    push_nexts(&mut nexts, right.latches(), tables.right.as_slice())?;
    Ok(nexts)
}

// The outputs of a pair.
pub(crate) fn outputs_of(
    alloc: Global,
    left: &Netlist,
    right: &Netlist,
    tables: &Tables,
) -> Result<Vec<(Lit, Lit)>, AllocError>
    requires sound { IsSoundPair (record { left = left.now; right = right.now; tied = false }) }
    requires tables { AreTables left.now right.now tables.now.left.items tables.now.right.items }
    ensures { IfOk result (λ v. v.items ≡ output_pairs (record { left = left.now; right = right.now; tied = false })) }
{
    let mut outputs = Vec::new(alloc);
    push_outputs(
        &mut outputs,
        left.outputs(),
        right.outputs(),
        tables.left.as_slice(),
        tables.right.as_slice(),
    )?;
    Ok(outputs)
}
