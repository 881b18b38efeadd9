//! The Layer that a figure is on.
ghost use Rattle.std.specs.Prelude.{◌≡◌, ◌<◌, ◌^◌, SomeIff};
ghost use Rattle.oasis_figures.specs.Rules.{AreNarrow};
ghost use Rattle.oasis_figures.specs.Figures.{layer_by};

use lvl_names::Layer;

/// The Layer with these numbers; `None` if one of them is 2^32 or more.
pub(crate) fn layer_of(layer: u64, datatype: u64) -> Option<Layer>
    ensures { SomeIff result (AreNarrow layer datatype) (layer_by layer datatype) }
{
    let layer = u32::try_from(layer).ok()?;
    let datatype = u32::try_from(datatype).ok()?;
    Some(Layer { layer, datatype })
}
