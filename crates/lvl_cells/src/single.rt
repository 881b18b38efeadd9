//! A shape of one ring that is the only shape of its cell.
ghost use Rattle.std.specs.Prelude.{◌≡◌, ◌∷◌, [], length, IfOk, IfSome, IfNone};
ghost use Rattle.lvl_grid.specs.Winding.{IsRing};
ghost use Rattle.lvl_names.specs.Shifts.{one_place};
ghost use Rattle.lvl_cells.specs.inside.Beside.{shifts_beside};

use crate::few_shapes::FewShapes;
use crate::moved::{MovedRing, ORIGIN};
use crate::outline::Outline;
use crate::shape_lists::ShapeLists;
use lvl_grid::Point;
use lvl_names::{Layer, Offsets};
use std::alloc::{AllocError, Global};
use std::marker::Model;

/// A shape of one ring, without the lists that several shapes share. Most cells of a hostile file
/// have no other.
#[derive(Drop)]
pub(crate) struct Single {
    layer: Layer,
    ring: Vec<Point>,
    /// None for the zero shift alone.
    shifts: Option<Box<Offsets>>,
}

impl Model for Single {
    ghost use Rattle.std.specs.Prelude.{[], ◌∷◌};
    ghost use Rattle.lvl_grid.specs.Winding.{IsRing};
    ghost use Rattle.lvl_cells.specs.Cells.{PlainShape, Rings as Figure};
    ghost use Rattle.lvl_cells.specs.inside.Beside.{shifts_beside};

    ghost Value = { PlainShape Figure };

    ghost view = { λ s. record {
      layer = s.layer;
      figure = s.ring.items ∷ [];
      shifts = shifts_beside s.shifts;
    } };

    ghost invariant = { λ s. IsRing s.ring.items };
}

/// Keeps a list of shifts, unless it is the zero shift alone.
pub(crate) fn kept_shifts(
    alloc: Global,
    shifts: Offsets,
) -> Result<Option<Box<Offsets>>, AllocError>
    ensures { IfOk result (λ kept. shifts_beside kept ≡ shifts) }
{
    if shifts.is_single() {
        return Ok(None);
    }
    Ok(Some(Box::new(alloc, shifts)?))
}

impl Single {
    /// A shape of this ring.
    pub(crate) fn of(
        alloc: Global,
        layer: Layer,
        ring: &[Point],
        shifts: &Offsets,
    ) -> Result<Single, AllocError>
        requires { IsRing ring.now }
        ensures { IfOk result
            (λ single. single ≡ record { layer = layer; figure = ring.now ∷ []; shifts = shifts.now }) }
    {
        Ok(Single {
            layer,
            ring: Vec::from_slice(alloc, ring)?,
            shifts: kept_shifts(alloc, shifts.clone()?)?,
        })
    }

    /// The Layer.
    pub(crate) fn layer(&self) -> Layer
        ensures { result ≡ self.now.layer }
    {
        self.layer
    }

    /// The number of its rings, which is 1.
    pub(crate) fn ring_count(&self) -> usize
        ensures { result ≡ length self.now.figure }
    {
        let _ring = &self.ring;
        1
    }

    /// The ring.
    pub(crate) fn ring(&self) -> MovedRing<'_>
        ensures value { result ∷ [] ≡ self.now.figure }
        ensures ring { IsRing result }
    {
        let outline = Outline {
            points: &self.ring,
            along_y: false,
            reach: None,
            corners: &[],
        };
        MovedRing::new(outline, ORIGIN)
    }

    /// The shifts, or None for the zero shift alone.
    pub(crate) fn shifts(&self) -> Option<&Offsets>
        ensures some { IfSome result (λ shifts. shifts.now ≡ self.now.shifts) }
        ensures none { IfNone result (self.now.shifts ≡ one_place) }
    {
        match &self.shifts {
            Some(shifts) => Some(shifts),
            None => None,
        }
    }

    /// The number of points of the ring.
    pub(crate) fn point_count(&self) -> usize {
        self.ring.len()
    }

    /// A list of few shapes with this one alone.
    pub(crate) fn few(&self, alloc: Global) -> Result<FewShapes, AllocError>
        ensures { IfOk result (λ few. few ≡ self.now ∷ []) }
    {
        let mut few = FewShapes::new(alloc);
        match &self.shifts {
            Some(shifts) => few.push_ring(self.layer, &self.ring, shifts)?,
            None => few.push_ring(self.layer, &self.ring, &Offsets::single())?,
        }
        Ok(few)
    }

    /// Lists with this shape alone.
    pub(crate) fn lists(&self, alloc: Global) -> Result<ShapeLists, AllocError>
        ensures { IfOk result (λ lists. lists ≡ self.now ∷ []) }
    {
        let mut lists = ShapeLists::new(alloc);
        match &self.shifts {
            Some(shifts) => lists.push_ring(self.layer, &self.ring, shifts)?,
            None => lists.push_ring(self.layer, &self.ring, &Offsets::single())?,
        }
        Ok(lists)
    }
}
