//! The digest of a layout.
ghost use Rattle.std.specs.Prelude.{◌≡◌, ◌++◌, List, AllPairs, IfOk, OnOk};
ghost use Rattle.lvl_names.specs.declared.layer.Layer.{Layer as PlainLayer};
ghost use Rattle.lvl_names.specs.Layers.{ComesBefore};
ghost use Rattle.lvl_flat.specs.Flattened.{TopCovers};
ghost use Rattle.lvl_corners.specs.Masks.{AreDigests};
ghost use Rattle.lvl.specs.Digested.{IsMaskDigest};
ghost use Rattle.lvl.specs.Hashes.{AreDigestsOn};

use crate::fitted::{most_points, shapes_and_references_of};
use crate::hashes::hash_layers;
use crate::layout::Head;
use lvl_corners::{DigestedLayer, mask_sha256};
use lvl_flat::Fitted;
use lvl_names::Layer;
use std::alloc::{AllocError, Global};

/// The number of Layers that are hashed at a time, unless there would be too many groups of them.
/// Each takes some hundred bytes.
const GROUP: usize = 65_536;

/// The greatest number of groups of Layers. Each of them walks through the layout.
const MOST_GROUPS: usize = 64;

/// The digest of a mask.
#[derive(Debug, Drop)]
pub struct MaskDigest {
    /// The digest of each Layer that covers a square, in the order of the Layers.
    pub layers: Vec<DigestedLayer>,
    /// The SHA-256 of the lines of these Layers (see [`lvl_corners::mask_sha256`]).
    pub sha256: [u8; 32],
}

/// The digest of a layout.
#[derive(Debug, Drop)]
pub struct Digested {
    /// What its file says about itself.
    pub head: Head,
    /// The name of its top.
    pub top: Vec<u8>,
    /// The digest of the mask that the top draws.
    pub mask: MaskDigest,
}

/// Lists the digests of those of some Layers on which the top covers a square.
fn push_group(
    alloc: Global,
    fitted: &Fitted,
    layers: &[Layer],
    digested: &mut Vec<DigestedLayer>,
) -> Result<(), AllocError>
    requires { AllPairs ComesBefore layers.now }
    ensures { OnOk result ((done : List PlainLayer) → AllPairs ComesBefore (done ++ layers.now)
        → AreDigestsOn (TopCovers fitted.now) done digested.old.items
        → AreDigestsOn (TopCovers fitted.now) (done ++ layers.now) digested.new.items) }
{
    let most = most_points(shapes_and_references_of(fitted));
    for hash in hash_layers(alloc, fitted, layers, most)? {
        let layer = hash.layer();
        if let Some(digest) = hash.finish() {
            digested.push(DigestedLayer { layer, digest })?;
        }
    }
    Ok(())
}

/// The digests of all Layers on which the top covers a square, in groups.
fn digested_layers(alloc: Global, fitted: &Fitted) -> Result<Vec<DigestedLayer>, AllocError>
    ensures { IfOk result (λ layers. AreDigests (TopCovers fitted.now) layers.items) }
{
    let layers = fitted.layers(alloc)?;
    let size = GROUP.max(layers.len().div_ceil(MOST_GROUPS));
    let mut digested = Vec::with_capacity(alloc, layers.len())?;
    let mut start = 0;
    while start < layers.len() {
        let end = start.saturating_add(size).min(layers.len());
        push_group(alloc, fitted, &layers[start..end], &mut digested)?;
        start = end;
    }
    Ok(digested)
}

/// The digest of the mask that the top draws. Only what is drawn in a strip is in memory.
pub(crate) fn digest_fitted(alloc: Global, fitted: &Fitted) -> Result<MaskDigest, AllocError>
    ensures { IfOk result (IsMaskDigest (TopCovers fitted.now)) }
{
    let layers = digested_layers(alloc, fitted)?;
    let sha256 = mask_sha256(alloc, &layers)?;
    Ok(MaskDigest { layers, sha256 })
}
