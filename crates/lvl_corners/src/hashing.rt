//! Corners are hashed while they are found, many at a time.
ghost use Rattle.std.specs.Prelude.{◌≡◌, ◌++◌, ◌-◌, ◌^◌, [], min, IfOk, OnOk};
ghost use Rattle.lvl_corners.specs.Bytes.{corner_bytes};
ghost use Rattle.lvl_corners.specs.inside.Hashing.{HasTaken, HoldsSame};
ghost use Rattle.lvl_corners.specs.inside.Sinks.{hasher_takes_none, hasher_takes_both};

use crate::corner::Corner;
use crate::sink::CornerSink;
use sha2::{Digest, Sha256};
use std::alloc::{AllocError, Global};

/// About how many bytes are hashed at a time: 64 corners, in 17 blocks of the hash.
const PENDING: usize = 1088;

/// How many further bytes there is room for: a corner.
const ROOM: usize = 17;

/// Appends the bytes of a corner.
fn push_corner(bytes: &mut Vec<u8>, corner: Corner) -> Result<(), AllocError>
    ensures { OnOk result (bytes.new.items ≡ bytes.old.items ++ corner_bytes corner) }
{
    bytes.extend_from_slice(&corner.x.to_be_bytes())?;
    bytes.extend_from_slice(&corner.y.to_be_bytes())?;
    bytes.extend_from_slice(&corner.change.to_be_bytes())?;
    Ok(())
}

/// The hasher of a Layer, the pending bytes that it has still to take, and the number of corners.
#[derive(Drop)]
pub struct LayerHashing {
    pub hasher: Sha256,
    pub pending: Vec<u8>,
    pub corners: u64,
}

impl LayerHashing {
    /// The hashing of further corners of a Layer, by a hasher that has taken this number of them.
    pub(crate) fn new(
        alloc: Global,
        hasher: Sha256,
        corners: u64,
    ) -> Result<LayerHashing, AllocError>
        ensures hasher { IfOk result (λ h. h.hasher ≡ hasher) }
        ensures none { IfOk result (λ h. h.pending.items ≡ []) }
        ensures corners { IfOk result (λ h. h.corners ≡ corners) }
    {
        Ok(LayerHashing {
            hasher,
            pending: Vec::with_capacity(alloc, PENDING + ROOM)?,
            corners,
        })
    }

    /// The number of corners that were taken, or `u64::MAX` if there are more.
    pub(crate) fn count(&self) -> u64
        ensures { result ≡ min self.now.corners (2 ^ 64 - 1) }
    {
        self.corners
    }

    /// Hashes the pending bytes.
    pub(crate) fn flush(&mut self)
        ensures same { HoldsSame self.old self.new }
        ensures none { self.new.pending.items ≡ [] }
    {
        self.hasher.update(self.pending.as_slice());
        self.pending.clear();
    }

    /// Hashes the pending bytes if there are at least [`PENDING`].
    fn flush_many(&mut self)
        ensures { HoldsSame self.old self.new }
    {
        if self.pending.len() >= PENDING {
            self.flush();
        }
    }
}

impl CornerSink for LayerHashing {
    ghost takes = { λ h k taken. HasTaken h k taken };

    ghost takes_none = { hasher_takes_none };

    ghost takes_both = { hasher_takes_both };

    fn take(&mut self, corner: Corner) -> Result<(), AllocError> {
        push_corner(&mut self.pending, corner)?;
        self.corners = self.corners.saturating_add(1);
        self.flush_many();
        Ok(())
    }
}
