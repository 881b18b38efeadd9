//! The shapes of a cell.
ghost use Rattle.std.specs.Prelude.{◌≡◌, ◌<◌, ◌++◌, ◌∷◌, [], length, get_or, slice_get, IsTrue, ◌↔◌};
ghost use Rattle.std.specs.Prelude.{All, IfOk, OnOk, OnErr, IfSome, IfNone};
ghost use Rattle.lvl_grid.specs.Winding.{IsRing};
ghost use Rattle.lvl_names.specs.Shifts.{IsBetween, one_place};
ghost use Rattle.lvl_cells.specs.Cells.{shape_at};
ghost use Rattle.lvl_cells.specs.inside.Boxed.{stored_shapes};

use crate::few_shapes::{FewShapes, are_few};
use crate::moved::{MovedRing, STRETCH};
use crate::shape_lists::ShapeLists;
use crate::single::Single;
use lvl_grid::{Point, Ring};
use lvl_names::{Layer, Offsets};
use std::alloc::{AllocError, Global};
use std::marker::Model;

/// The shapes of a cell in file order. Each is a list of rings on a Layer, drawn at each of a list
/// of shifts.
///
/// A boundary, a polygon or a rectangle is a shape of one ring, a path a shape of the rings of its bands. An
/// empty list takes 16 bytes. One shape of one ring takes 64 bytes beside its points, and 64 more if it is
/// repeated. A few shapes of one ring take 80 bytes, 32 for each and their points, without those that are the
/// points of the shape before, moved. Of a rectangle only one point is kept, its diagonal. The lists of more
/// shapes, or of more rings in a shape, take 160 bytes and what is in them: a boundary at one place 36 bytes and
/// its points, a rectangle 68 bytes, and both up to 16 bytes in a table of forms. If an earlier shape has its
/// points, moved, both share them, and it takes 40 bytes; but the table forgets some of them, so not all that
/// could be shared are. A path of several rings keeps all points of its rings, and shares those of the shape
/// before it alone. Consecutive shapes with the same lattice share one list of shifts, and a shared list is
/// never copied.
#[derive(Drop)]
pub struct Shapes {
    alloc: Global,
    stored: StoredShapes,
}

/// How the shapes of a cell are stored.
#[derive(Drop)]
enum StoredShapes {
    None,
    One(Box<Single>),
    Few(Box<FewShapes>),
    Several(Box<ShapeLists>),
}

impl Model for Shapes {
    ghost use Rattle.std.specs.Prelude.{List};
    ghost use Rattle.lvl_cells.specs.Cells.{PlainShape, Rings as Figure};
    ghost use Rattle.lvl_cells.specs.inside.Boxed.{stored_shapes};

    ghost Value = { List (PlainShape Figure) };

    ghost view = { λ s. stored_shapes s.stored };
}

/// The stored form of the only shape of a cell, of one ring. A ring that has stretches is kept in lists, which keep
/// their reaches.
fn one_shape(
    alloc: Global,
    layer: Layer,
    ring: &[Point],
    shifts: &Offsets,
) -> Result<StoredShapes, AllocError>
    requires { IsRing ring.now }
    ensures { IfOk result (λ stored. stored_shapes stored
        ≡ record { layer = layer; figure = ring.now ∷ []; shifts = shifts.now } ∷ []) }
{
    if ring.len() < STRETCH {
        let single = Single::of(alloc, layer, ring, shifts)?;
        return Ok(StoredShapes::One(Box::new(alloc, single)?));
    }
    let mut lists = ShapeLists::new(alloc);
    lists.push_ring(layer, ring, shifts)?;
    Ok(StoredShapes::Several(Box::new(alloc, lists)?))
}

/// The stored form of the only shape of a cell and one more, of one ring.
fn two_shapes(
    alloc: Global,
    first: &Single,
    layer: Layer,
    ring: &[Point],
    shifts: &Offsets,
) -> Result<StoredShapes, AllocError>
    requires { IsRing ring.now }
    ensures { IfOk result (λ stored. stored_shapes stored ≡ first.now
        ∷ record { layer = layer; figure = ring.now ∷ []; shifts = shifts.now } ∷ []) }
{
    if ring.len() < STRETCH && are_few(first.point_count().saturating_add(ring.len())) {
        let mut few = first.few(alloc)?;
        few.push_ring(layer, ring, shifts)?;
        return Ok(StoredShapes::Few(Box::new(alloc, few)?));
    }
    let mut lists = first.lists(alloc)?;
    lists.push_ring(layer, ring, shifts)?;
    Ok(StoredShapes::Several(Box::new(alloc, lists)?))
}

impl Shapes {
    /// An empty list. Allocates nothing.
    pub fn new(alloc: Global) -> Shapes
        ensures { result ≡ [] }
    {
        Shapes {
            alloc,
            stored: StoredShapes::None,
        }
    }

    /// The number of shapes.
    pub fn len(&self) -> usize
        ensures { result ≡ length self.now }
    {
        match &self.stored {
            StoredShapes::None => 0,
            StoredShapes::One(_) => 1,
            StoredShapes::Few(few) => few.len(),
            StoredShapes::Several(lists) => lists.len(),
        }
    }

    /// Whether there is no shape.
    pub fn is_empty(&self) -> bool
        ensures { IsTrue result ↔ (self.now ≡ []) }
    {
        self.len() == 0
    }

    /// The Layer of the shape at this index.
    pub fn layer(&self, i: usize) -> Layer
        requires { i < length self.now }
        ensures { result ≡ (shape_at self.now i).layer }
    {
        match &self.stored {
            StoredShapes::None => unreachable!(),
            StoredShapes::One(single) => single.layer(),
            StoredShapes::Few(few) => few.layer(i),
            StoredShapes::Several(lists) => lists.layer(i),
        }
    }

    /// The number of rings of the shape at this index.
    pub fn ring_count(&self, i: usize) -> usize
        requires { i < length self.now }
        ensures { result ≡ length (shape_at self.now i).figure }
    {
        match &self.stored {
            StoredShapes::None => unreachable!(),
            StoredShapes::One(single) => single.ring_count(),
            StoredShapes::Few(few) => few.ring_count(i),
            StoredShapes::Several(lists) => lists.ring_count(i),
        }
    }

    /// Ring `j` of shape `i`.
    pub fn ring(&self, i: usize, j: usize) -> MovedRing<'_>
        requires shape { i < length self.now }
        requires ring { j < length (shape_at self.now i).figure }
        ensures value { result ≡ get_or (shape_at self.now i).figure j [] }
        ensures ring { IsRing result }
    {
        match &self.stored {
            StoredShapes::None => unreachable!(),
            StoredShapes::One(single) => single.ring(),
            StoredShapes::Few(few) => few.ring(i),
            StoredShapes::Several(lists) => lists.ring(i, j),
        }
    }

    /// The shifts of the shape at this index, or None for the zero shift alone.
    pub fn shifts(&self, i: usize) -> Option<&Offsets>
        requires { i < length self.now }
        ensures some { IfSome result (λ shifts. shifts.now ≡ (shape_at self.now i).shifts) }
        ensures none { IfNone result ((shape_at self.now i).shifts ≡ one_place) }
    {
        match &self.stored {
            StoredShapes::None => unreachable!(),
            StoredShapes::One(single) => single.shifts(),
            StoredShapes::Few(few) => few.shifts(i),
            StoredShapes::Several(lists) => lists.shifts(i),
        }
    }

    /// The number of shifts of the shape at this index.
    pub fn shift_count(&self, i: usize) -> u64
        requires { i < length self.now }
        ensures { result ≡ length (shape_at self.now i).shifts }
    {
        match self.shifts(i) {
            Some(shifts) => shifts.len(),
            None => 1,
        }
    }

    /// Shift `k` of shape `i`, or None if there is none.
    pub fn shift(&self, i: usize, k: u64) -> Option<Point>
        requires { i < length self.now }
        ensures { result ≡ slice_get (shape_at self.now i).shifts k }
    {
        match self.shifts(i) {
            Some(shifts) => shifts.at(k),
            None => Offsets::single().at(k),
        }
    }

    /// The least and the greatest coordinates of the shifts of the shape at this index.
    pub fn reach(&self, i: usize) -> (Point, Point)
        requires { i < length self.now }
        ensures { All (IsBetween result.0 result.1) (shape_at self.now i).shifts }
    {
        match self.shifts(i) {
            Some(shifts) => shifts.reach(),
            None => Offsets::single().reach(),
        }
    }

    /// Adds a shape of one ring. If there is no memory for it, nothing changes.
    pub fn push_ring(
        &mut self,
        layer: Layer,
        ring: &[Point],
        shifts: &Offsets,
    ) -> Result<(), AllocError>
        requires { IsRing ring.now }
        ensures added { OnOk result (self.new ≡ self.old
            ++ record { layer = layer; figure = ring.now ∷ []; shifts = shifts.now } ∷ []) }
        ensures kept { OnErr result (self.new ≡ self.old) }
    {
        match &mut self.stored {
            StoredShapes::Several(lists) => lists.push_ring(layer, ring, shifts),
            _ => self.push_early(layer, ring, shifts),
        }
    }

    /// Adds a shape of one ring, as one of the first. In `push_ring` itself, room for what these are stored in would
    /// be cleared for each shape.
    #[inline(never)]
    fn push_early(
        &mut self,
        layer: Layer,
        ring: &[Point],
        shifts: &Offsets,
    ) -> Result<(), AllocError>
        requires { IsRing ring.now }
        ensures added { OnOk result (self.new ≡ self.old
            ++ record { layer = layer; figure = ring.now ∷ []; shifts = shifts.now } ∷ []) }
        ensures kept { OnErr result (self.new ≡ self.old) }
    {
        match &mut self.stored {
            StoredShapes::None => {
                self.stored = one_shape(self.alloc, layer, ring, shifts)?;
            }
            StoredShapes::One(first) => {
                self.stored = two_shapes(self.alloc, first, layer, ring, shifts)?;
            }
            StoredShapes::Few(few) if ring.len() < STRETCH && few.has_room(ring.len()) => {
                few.push_ring(layer, ring, shifts)?;
            }
            StoredShapes::Few(few) => {
                let mut lists = few.lists(self.alloc)?;
                lists.push_ring(layer, ring, shifts)?;
                self.stored = StoredShapes::Several(Box::new(self.alloc, lists)?);
            }
            StoredShapes::Several(lists) => lists.push_ring(layer, ring, shifts)?,
        }
        Ok(())
    }

    /// Adds a shape of these rings. If there is no memory for it, nothing changes.
    pub fn push_rings(
        &mut self,
        layer: Layer,
        rings: &[Ring],
        shifts: &Offsets,
    ) -> Result<(), AllocError>
        ensures added { OnOk result (self.new ≡ self.old
            ++ record { layer = layer; figure = rings.now; shifts = shifts.now } ∷ []) }
        ensures kept { OnErr result (self.new ≡ self.old) }
    {
        if rings.len() == 1 {
            return self.push_ring(layer, rings[0].points(), shifts);
        }
        let mut lists = match &mut self.stored {
            StoredShapes::None => ShapeLists::new(self.alloc),
            StoredShapes::One(first) => first.lists(self.alloc)?,
            StoredShapes::Few(few) => few.lists(self.alloc)?,
            StoredShapes::Several(lists) => return lists.push_rings(layer, rings, shifts),
        };
        lists.push_rings(layer, rings, shifts)?;
        self.stored = StoredShapes::Several(Box::new(self.alloc, lists)?);
        Ok(())
    }
}
