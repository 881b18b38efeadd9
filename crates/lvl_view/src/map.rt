//! The text of a map of layers.
ghost use Rattle.std.specs.Prelude.{IfOk, IfErr, Some, ◌≡◌, ◌==◌, map as list_map};
ghost use Rattle.std.specs.List.{slice_split};
ghost use Rattle.lvl_view.specs.Texts.{IsOnly, IsLayerText, IsPairText, IsMapText, comma};
ghost use Rattle.lvl_view.specs.Views.{IsMapOf, text_of};
ghost use Rattle.lvl_view.specs.inside.Reading.{IsAlone, IsMapFault};
ghost use Rattle.lvl_refusal.specs.Refused.{Says};

use crate::fault::ViewFault;
use crate::number::number_of;
use lvl_names::Layer;
use lvl_refusal::Cause;
use std::alloc::{AllocError, Global};

/// A pair of a map: what is on the source counts as being on the target.
#[derive(Clone, Copy, Debug, PartialEq, Eq)]
pub struct LayerPair {
    pub source: Layer,
    pub target: Layer,
}

/// The Layer of a text `L/D`, or None if the text isn't of this form.
fn layer_of(text: &str) -> Option<Layer>
    ensures { IsOnly (IsLayerText text.now) result }
{
    let (layer, datatype) = text.split_once('/')?;
    Some(Layer {
        layer: number_of(layer)?,
        datatype: number_of(datatype)?,
    })
}

/// The pair of a text `L/D=L/D`, or None if the text isn't of this form.
fn pair_of(text: &str) -> Option<LayerPair>
    ensures { IsOnly (IsPairText text.now) result }
{
    let (source, target) = text.split_once('=')?;
    Some(LayerPair {
        source: layer_of(source)?,
        target: layer_of(target)?,
    })
}

/// The parts of a text that are separated by commas.
fn parts_of<'a>(alloc: Global, text: &'a str) -> Result<Vec<&'a str>, AllocError>
    ensures { IfOk result (λ parts. list_map (λ p. p.now) parts.items ≡ slice_split (λ b. b == comma) text.now) }
{
    text.split(',').collect(alloc)
}

/// The pairs of a text `L/D=L/D,...`, in order.
fn read_pairs(alloc: Global, text: &str) -> Result<Vec<LayerPair>, Cause<ViewFault>>
    ensures ok { IfOk result (λ pairs. IsAlone (IsMapText text.now) pairs.items) }
    ensures err { IfErr result (λ refusal. Says refusal (IsMapFault (Some text.now))) }
{
    let parts = parts_of(alloc, text)?;
    let mut pairs = Vec::with_capacity(alloc, parts.len())?;
    for part in &parts {
        let Some(pair) = pair_of(part) else {
            return Err(Cause::Breach(ViewFault::MapText));
        };
        pairs.push(pair)?;
    }
    Ok(pairs)
}

/// The pairs of a map in the order of its text, or none if no text is given.
pub(crate) fn pairs_of(
    alloc: Global,
    text: Option<&str>,
) -> Result<Vec<LayerPair>, Cause<ViewFault>>
    ensures ok { IfOk result (λ pairs. IsAlone (IsMapOf (text_of text.entry)) pairs.items) }
    ensures err { IfErr result (λ refusal. Says refusal (IsMapFault (text_of text.entry))) }
{
    match text {
        Some(text) => read_pairs(alloc, text),
        None => Ok(Vec::new(alloc)),
    }
}
