//! Classes that are known to pair nothing but what the greatest correspondence pairs, for induction over some number of frames: that of
//! fewer frames, or places that are equal in every state. Their pairs hold for ever, so none of them has to be proved again, for more
//! frames or for other classes.
ghost use Rattle.std.specs.Prelude.{◌≡◌, ◌<◌, IfOk, IfSome, length};
ghost use Rattle.circ_model.specs.Meaning.{places_of};
ghost use Rattle.class_partition.specs.Classes.{ArePartition, AreOfGreatest};
ghost use Rattle.verdict_stamp.specs.Known.{AreKnown};

use class_partition::Classes;
use product_machine::Product;
use std::alloc::{AllocError, Global};
use std::marker::Model;
use twin_places::twin_classes;

/// Classes of a pair of netlists whose pairs are of its greatest correspondence, for induction over k frames.
#[derive(Drop)]
pub struct Known<'p> {
    product: &'p Product,
    depth: u32,
    partition: Classes,
}

impl<'p> Model for Known<'p> {
    ghost use Rattle.verdict_stamp.specs.Known.{KnownClasses, AreKnown};

    ghost Value = { KnownClasses };

    ghost view = { λ n. record { pair = n.product.now; k = n.depth; classes = n.partition } };

    ghost invariant = { λ n. AreKnown (record { pair = n.product.now; k = n.depth; classes = n.partition }) };
}

impl<'p> Known<'p> {
    /// A copy of the classes of the greatest correspondence. It errs for want of memory alone.
    pub fn of(
        alloc: Global,
        product: &'p Product,
        k: u32,
        classes: &Classes,
    ) -> Result<Known<'p>, AllocError>
        requires some { 0 < k }
        requires partition { ArePartition (places_of product.now) classes.now }
        requires greatest { AreOfGreatest product.now k classes.now }
        ensures { IfOk result (λ n. n ≡ record { pair = product.entry.now; k = k; classes = classes.now }) }
    {
        let partition = classes.copy(alloc)?;
        Ok(Known {
            product,
            depth: k,
            partition,
        })
    }

    /// Classes of places that structural hashing shows to be equal in every state, at the phases of these classes: of the greatest
    /// correspondence for induction over one frame. None where it doesn't show that of those that seem so. It errs for want of memory
    /// alone.
    pub fn twins(
        alloc: Global,
        product: &'p Product,
        classes: &Classes,
    ) -> Result<Option<Known<'p>>, AllocError>
        requires classes { length classes.now.least ≡ places_of product.now }
        ensures pair { IfOk result (λ known. IfSome known (λ n. n.pair ≡ product.entry.now)) }
        ensures k { IfOk result (λ known. IfSome known (λ n. n.k ≡ 1)) }
    {
        let Some(partition) = twin_classes(alloc, product, classes)? else {
            return Ok(None);
        };
        Ok(Some(Known {
            product,
            depth: 1,
            partition,
        }))
    }

    /// The pair of netlists.
    pub fn product(&self) -> &'p Product
        ensures pair { result.now ≡ self.now.pair }
        ensures kept { AreKnown self.now }
    {
        self.product
    }

    /// Over how many frames the induction is.
    pub fn k(&self) -> u32
        ensures { result ≡ self.now.k }
    {
        self.depth
    }

    /// The classes.
    pub fn classes(&self) -> &Classes
        ensures classes { result.now ≡ self.entry.now.classes }
        ensures kept { AreKnown self.entry.now }
    {
        &self.partition
    }
}
