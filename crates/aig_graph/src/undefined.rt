//! The lowest variable that is used and not defined.
ghost use Rattle.std.specs.Prelude.{◌≡◌, ◌<◌, ◌/◌, ◌++◌, map, length};
ghost use Rattle.std.specs.List.{All};
ghost use Rattle.circ_model.specs.declared.netlist.Latch.{Latch};
ghost use Rattle.circ_model.specs.declared.netlist.Gate.{Gate};
ghost use Rattle.aig_graph.specs.Finish.{right_literals, lower, lowest};

use circ_model::{Gate, Latch, Lit};

// The lower of two variables without a definition.
fn lower(defs: &[u32], least: u32, lit: Lit) -> u32
    requires { lit / 2 < length defs.now }
    ensures { result ≡ lower defs.now least lit }
{
    let var = lit.var();
    if 0 < var && defs[var as usize] == 0 && var < least {
        var
    } else {
        least
    }
}

fn in_outputs(defs: &[u32], least: u32, outputs: &[Lit]) -> u32
    requires { All (λ lit. lit / 2 < length defs.now) outputs.now }
    ensures { result ≡ lowest defs.now least outputs.now }
{
    let mut low = least;
    for lit in outputs {
        low = lower(defs, low, *lit);
    }
    low
}

fn in_latches(defs: &[u32], least: u32, latches: &[Latch]) -> u32
    requires { All (λ (l : Latch). l.next / 2 < length defs.now) latches.now }
    ensures { result ≡ lowest defs.now least (map (λ (l : Latch). l.next) latches.now) }
{
    let mut low = least;
    for latch in latches {
        low = lower(defs, low, latch.next);
    }
    low
}

fn in_gates(defs: &[u32], least: u32, gates: &[Gate]) -> u32
    requires { All (λ (g : Gate). (g.left / 2 < length defs.now) × (g.right / 2 < length defs.now)) gates.now }
    ensures { result ≡ lowest defs.now least (right_literals gates.now) }
{
    let mut low = least;
    for gate in gates {
        low = lower(defs, lower(defs, low, gate.left), gate.right);
    }
    low
}

/// The lowest variable that is used and has no definition, or the start where each has one.
pub fn lowest_used(
    defs: &[u32],
    start: u32,
    latches: &[Latch],
    outputs: &[Lit],
    gates: &[Gate],
) -> u32
    requires latches { All (λ (l : Latch). l.next / 2 < length defs.now) latches.now }
    requires outputs { All (λ lit. lit / 2 < length defs.now) outputs.now }
    requires gates { All (λ (g : Gate). (g.left / 2 < length defs.now) × (g.right / 2 < length defs.now)) gates.now }
    ensures { result ≡ lowest defs.now start (map (λ (l : Latch). l.next) latches.now ++ outputs.now ++ right_literals gates.now) }
{
    let low = in_latches(defs, start, latches);
    let low = in_outputs(defs, low, outputs);
    in_gates(defs, low, gates)
}
