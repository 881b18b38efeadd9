//! The digest of a Layer.
ghost use Rattle.std.specs.Prelude.{◌≡◌, Bool, [], List, IfOk, IsTrue, OnOk, OnErr, All};
ghost use Rattle.std.specs.String.{string_bytes};
ghost use Rattle.lvl_grid.specs.declared.point.Square.{Square as GridSquare};
ghost use Rattle.lvl_grid.specs.Winding.{SomeCovers};
ghost use Rattle.lvl_corners.specs.declared.corner.Corner.{Corner as GridCorner};
ghost use Rattle.lvl_corners.specs.Corners.{FitsCorner};
ghost use Rattle.lvl_corners.specs.Gathered.{AreMoreGathered, HasGathered, IsLowered};
ghost use Rattle.lvl_corners.specs.Parts.{AreCornersAt};
ghost use Rattle.lvl_corners.specs.Spans.{AreCornersIn};
ghost use Rattle.lvl_corners.specs.Bytes.{layer_head, BytesDecide};
ghost use Rattle.lvl_corners.specs.Digests.{HasHashed, HashesOn, IsDigestFor};
ghost use Rattle.lvl_corners.specs.inside.Begun.{IsBegun};
ghost use Rattle.lvl_corners.specs.inside.Hashing.{HasTaken};
ghost use Rattle.lvl_corners.specs.declared.hashing.LayerHashing.{LayerHashing as GridHashing};

use crate::columns::send_corners_in;
use crate::hashing::LayerHashing;
use crate::mark::Mark;
use crate::part::{Found, drop_from, marks_near, push_right, sort_at, sort_within};
use crate::send::send_sums;
use crate::span::Span;
use lvl_grid::Rings;
use lvl_names::Layer;
use sha2::{Digest, Sha256};
use std::alloc::{AllocError, Global};

/// The digest of a Layer that covers at least one square (own rule).
#[derive(Clone, Copy, Debug, PartialEq, Eq)]
pub struct LayerDigest {
    /// The number of corners, or `u64::MAX` if there are more.
    pub corners: u64,
    /// The SHA-256 of the bytes of the Layer (see [`LayerHash`]).
    pub sha256: [u8; 32],
}

/// The first line of a Layer's bytes.
fn head_of(alloc: Global, layer: Layer) -> Result<String, AllocError>
    ensures { IfOk result (λ head. string_bytes head ≡ layer_head layer.layer layer.datatype) }
{
    format!(in alloc; "layer {} datatype {}\n", layer.layer, layer.datatype)
}

/// The hash of what a Layer covers, whose corners are hashed strip by strip, from left to right.
///
/// The bytes of a Layer are "layer L datatype D", a line feed, and the corners in order of `x` and
/// then `y`: for each, `x` and `y`, eight bytes each, and its change, one byte, in two's complement
/// with the high byte first (own rule). It takes some two hundred bytes, whatever
/// is hashed, besides what is gathered.
#[derive(Drop)]
pub struct LayerHash {
    layer: Layer,
    hasher: Sha256,
    corners: u64,
    right: Vec<Mark>,
}

impl LayerHash {
    /// The hash of a Layer without corners.
    pub fn new(alloc: Global, layer: Layer) -> Result<LayerHash, AllocError>
        ensures layer { IfOk result (λ hash. hash.layer ≡ layer) }
        ensures none { IfOk result (λ hash. HasHashed hash []) }
    {
        let head = head_of(alloc, layer)?;
        let mut hasher = Sha256::new();
        hasher.update(head.as_bytes());
        Ok(LayerHash {
            layer,
            hasher,
            corners: 0,
            right: Vec::new(alloc),
        })
    }

    /// The Layer.
    pub fn layer(&self) -> Layer
        ensures { result ≡ self.now.layer }
    {
        self.layer
    }

    /// The hashing of the next corners.
    fn begun(&self, alloc: Global) -> Result<LayerHashing, AllocError>
        ensures { IfOk result (IsBegun self.now) }
    {
        LayerHashing::new(alloc, self.hasher.clone()?, self.corners)
    }

    /// Takes over what was hashed since [`LayerHash::begun`].
    fn put(&mut self, mut hashing: LayerHashing)
        ensures taken { (begun : GridHashing) (corners : List GridCorner) → IsBegun self.old begun
            → HasTaken begun hashing corners → HashesOn self.old self.new corners }
        ensures layer { self.new.layer ≡ self.old.layer }
        ensures right { self.new.right ≡ self.old.right }
    {
        hashing.flush();
        self.corners = hashing.count();
        self.hasher = hashing.hasher;
    }

    /// Hashes the corners of what the rings cover at the abscissas of a span, as the next ones. The
    /// rings must cover what the Layer does in the span and in the column left of it. Fails only if
    /// out of memory, and then the hash is unchanged.
    pub fn push(&mut self, alloc: Global, rings: &Rings, span: Span) -> Result<(), AllocError>
        ensures hashed { OnOk result ((corners : List GridCorner)
            × AreCornersIn (SomeCovers rings.now) span corners
            × All FitsCorner corners
            × HashesOn self.old self.new corners) }
        ensures layer { self.new.layer ≡ self.old.layer }
        ensures err { OnErr result (self.new ≡ self.old) }
    {
        if rings.is_empty() {
            return Ok(());
        }
        let mut hashing = self.begun(alloc)?;
        send_corners_in(alloc, rings, span, &mut hashing)?;
        self.put(hashing);
        Ok(())
    }

    /// Hashes the corners of what the rings cover at the abscissa `x` and at the ordinates of some rows, as
    /// the next ones, and gathers those right of it. So a strip may be hashed part by part, from below, as
    /// [`parts_append`] says. The rings must cover what the Layer does from one column left of `x` up to
    /// `end`, in the rows and in the one below them.
    ///
    /// Only those left of `end` are gathered, which is lowered if there are more than there is room for.
    /// Returns it; those that were gathered at or beyond it, also before, are dropped. Fails only if out of
    /// memory, and then the hash is of no use.
    ///
    /// [`parts_append`]: crate::parts_append
    pub fn push_part(
        &mut self,
        alloc: Global,
        rings: &Rings,
        x: i64,
        end: i64,
        rows: Span,
        room: usize,
    ) -> Result<i64, AllocError>
        ensures hashed { OnOk result ((corners : List GridCorner)
            × AreCornersAt (SomeCovers rings.now) x rows corners
            × All FitsCorner corners
            × HashesOn self.old self.new corners) }
        ensures gathered { IfOk result (λ stop.
            AreMoreGathered (SomeCovers rings.now) x stop rows self.old self.new) }
        ensures lowered { IfOk result (IsLowered x end) }
        ensures layer { self.new.layer ≡ self.old.layer }
    {
        drop_from(&mut self.right, end);
        if rings.is_empty() {
            return Ok(end);
        }
        let Found { mut marks, end } = marks_near(alloc, rings, x, end, room)?;
        push_right(&mut self.right, &marks, x, end, rows)?;
        sort_at(&mut marks, x, rows);
        let mut hashing = self.begun(alloc)?;
        send_sums(&marks, &mut hashing)?;
        self.put(hashing);
        Ok(end)
    }

    /// The number of points at which something was gathered by [`LayerHash::push_part`], or more.
    pub fn gathered(&self) -> usize {
        self.right.len()
    }

    /// Appends the abscissas of these points.
    pub fn push_abscissas(&self, abscissas: &mut Vec<i64>) -> Result<(), AllocError> {
        for mark in &self.right {
            abscissas.push(mark.x)?;
        }
        Ok(())
    }

    /// Drops what was gathered.
    pub fn clear_gathered(&mut self)
        ensures none { self.new.right.items ≡ [] }
        ensures same { HashesOn self.old self.new [] }
        ensures layer { self.new.layer ≡ self.old.layer }
    {
        self.right.clear();
    }

    /// Hashes the gathered corners that are at the abscissas of a span, as the next ones, and drops all.
    /// Fails only if out of memory.
    pub fn push_gathered(&mut self, alloc: Global, span: Span) -> Result<(), AllocError>
        requires { (covered : GridSquare → Bool) × HasGathered covered span self.old }
        ensures hashed { OnOk result ((covered : GridSquare → Bool) → HasGathered covered span self.old
            → (corners : List GridCorner)
            × AreCornersIn (λ s. IsTrue (covered s)) span corners
            × All FitsCorner corners
            × HashesOn self.old self.new corners) }
        ensures layer { self.new.layer ≡ self.old.layer }
    {
        sort_within(&mut self.right, span);
        let mut hashing = self.begun(alloc)?;
        send_sums(&self.right, &mut hashing)?;
        self.put(hashing);
        self.right = Vec::new(alloc);
        Ok(())
    }

    /// The digest of the Layer, or None if it has no corners.
    pub fn finish(self) -> Option<LayerDigest>
        ensures { (corners : List GridCorner) → HasHashed self corners → IsDigestFor self.layer corners result }
    {
        if self.corners == 0 {
            return None;
        }
        Some(LayerDigest {
            corners: self.corners,
            sha256: self.hasher.finalize(),
        })
    }
}

/// A law, for proofs: two lists of rings on the same Layer have the same bytes exactly if they
/// cover the same squares. So, collisions of SHA-256 aside, digests decide that. The call does
/// nothing.
pub fn bytes_decide()
    ensures { BytesDecide }
{}
