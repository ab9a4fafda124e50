//! The product of two literals in a row.
ghost use Rattle.std.specs.Prelude.{◌≡◌, ◌<◌, ◌/◌, ◌&&◌, length};
ghost use Rattle.circ_model.specs.Meaning.{bit, literal_value};

use aig_graph::literal_bit;
use bit_rows::BitRow;
use circ_model::Lit;

// The product of two.
pub(crate) fn both(values: &BitRow, left: Lit, right: Lit) -> bool
    requires left { left / 2 < length values.now }
    requires right { right / 2 < length values.now }
    ensures { result ≡ (literal_value (bit values.now) left && literal_value (bit values.now) right) }
{
    literal_bit(values, left) && literal_bit(values, right)
}
