//! Laws over the definitions. Each function has an empty body; its contract is the law.
ghost use Rattle.std.specs.Prelude.{List};
ghost use Rattle.and_graph.specs.declared.node.Node.{Node as GraphNode};
ghost use Rattle.and_graph.specs.Graphs.{HasOneValuation, HasValuations, IsGraph};

/// Whatever the leaves are, some valuation has their values: no merge binds a leaf, and gates stand after their operands.
pub fn leaves_are_free()
    ensures { (nodes : List GraphNode) → IsGraph nodes → HasValuations nodes }
{}

/// The values of the leaves settle those of all nodes.
pub fn leaves_settle_all()
    ensures { (nodes : List GraphNode) → IsGraph nodes → HasOneValuation nodes }
{}
