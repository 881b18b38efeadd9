//! Layers: a layer and a datatype.
ghost use Rattle.std.specs.Prelude.{◌↔◌, All, AllPairs, Contains, IfOk, IsTrue};
ghost use Rattle.lvl_names.specs.Layers.{ComesBefore};

use std::alloc::AllocError;

/// What a shape is on: a layer and a datatype. They are ordered by `layer`, then by `datatype` (own
/// rule).
#[derive(Clone, Copy, Debug, PartialEq, Eq, PartialOrd, Ord)]
pub struct Layer {
    pub layer: u32,
    pub datatype: u32,
}

/// Whether the first Layer comes before the second: by the layer, then by the datatype.
pub fn comes_before(first: Layer, second: Layer) -> bool
    ensures { IsTrue result ↔ ComesBefore first second }
{
    first.layer < second.layer || (first.layer == second.layer && first.datatype < second.datatype)
}

/// The Layers in their order, each of them once.
pub fn in_order(mut layers: Vec<Layer>) -> Result<Vec<Layer>, AllocError>
    ensures rising { IfOk result (λ ordered. AllPairs ComesBefore ordered.items) }
    ensures all { IfOk result (λ ordered. All (Contains ordered.items) layers.items) }
    ensures only { IfOk result (λ ordered. All (Contains layers.items) ordered.items) }
{
    layers.sort()?;
    layers.dedup();
    Ok(layers)
}
