//! The digest of a mask: a line for each Layer, and the SHA-256 of these lines.
ghost use Rattle.std.specs.Prelude.{◌≡◌, IfOk};
ghost use Rattle.std.specs.String.{string_bytes};
ghost use Rattle.sha2.specs.Sha256.{sha256};
ghost use Rattle.lvl_corners.specs.Masks.{digest_line, mask_lines, MasksDecide};

use crate::digest::LayerDigest;
use lvl_names::Layer;
use sha2::{Digest, Sha256};
use std::alloc::{AllocError, Global};

/// A Layer that covers a square, and its digest.
#[derive(Clone, Copy, Debug, PartialEq, Eq)]
pub struct DigestedLayer {
    pub layer: Layer,
    pub digest: LayerDigest,
}

/// The line of a Layer in the digest of a mask (own rule): `layer L datatype D corners N sha256 H`
/// and a line feed, with the numbers in decimal and the SHA-256 in lower case hexadecimal digits.
pub fn layer_line(alloc: Global, digested: &DigestedLayer) -> Result<String, AllocError>
    ensures { IfOk result (λ line. string_bytes line ≡ digest_line digested.now) }
{
    let Layer { layer, datatype } = digested.layer;
    let corners = digested.digest.corners;
    let sha256 = hex::encode(alloc, digested.digest.sha256)?;
    format!(in alloc; "layer {layer} datatype {datatype} corners {corners} sha256 {sha256}\n")
}

/// The SHA-256 of a mask (own rule): that of the lines of its Layers.
pub fn mask_sha256(alloc: Global, layers: &[DigestedLayer]) -> Result<[u8; 32], AllocError>
    ensures { IfOk result (λ hash. hash ≡ sha256 (mask_lines layers.now)) }
{
    let mut hasher = Sha256::new();
    for digested in layers {
        let line = layer_line(alloc, digested)?;
        hasher.update(line.as_bytes());
    }
    Ok(hasher.finalize())
}

/// A law, for proofs: masks that cover the same squares on every Layer have the same lines, and so
/// the same SHA-256. If two masks with the same SHA-256 don't cover the same, then two different
/// texts are in hand that have one SHA-256: their lines, or the bytes of a Layer with its corners
/// in each of them. The call does nothing.
pub fn masks_decide()
    ensures { MasksDecide }
{}
