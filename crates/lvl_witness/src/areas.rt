//! Areas: which displacements move a box to where it has a square.
ghost use Rattle.std.specs.Prelude.{◌≡◌, ◌↔◌, ◌≤ℤ◌, IsTrue, IfSome};
ghost use Rattle.lvl_grid.specs.declared.point.Point.{Point as GridPoint};
ghost use Rattle.lvl_grid.specs.declared.point.Square.{Square as GridSquare};
ghost use Rattle.lvl_grid.specs.Placed.{moved_square};
ghost use Rattle.lvl_grid.specs.Turn.{image_square, shifted};
ghost use Rattle.lvl_grid.specs.Winding.{Covers};
ghost use Rattle.lvl_names.specs.declared.layer.Layer.{Layer as PlainLayer};
ghost use Rattle.lvl_cells.specs.Cells.{map_at};
ghost use Rattle.lvl_flat.specs.Flattened.{CoversAt};
ghost use Rattle.lvl_flat.specs.inside.Bounds.{HasSquare};
ghost use Rattle.lvl_witness.specs.inside.Areas.{IsInArea, IsOnWay, IsSmallArea, moved_box};
ghost use Rattle.lvl_witness.specs.Wide.{as_point};
ghost use Rattle.lvl_witness.specs.inside.Wide.{as_square, IsSmall};

use crate::wide::{WidePoint, placed};
use lvl_cells::{KeptReference, MovedRing};
use lvl_flat::Fitted;
use lvl_grid::{Map, Point, Window};

/// The displacements from the lower left corner to the upper right one, borders included.
#[derive(Clone, Copy, Debug)]
pub(crate) struct Area {
    pub low: WidePoint,
    pub high: WidePoint,
}

/// Whether a number is at least `low` and at most `high`.
fn is_between(low: i128, number: i128, high: i128) -> bool
    ensures { IsTrue result ↔ ((low ≤ℤ number) × (number ≤ℤ high)) }
{
    low <= number && number <= high
}

impl Area {
    /// The displacements that move the box between two corners to where it has the square.
    fn around(square: WidePoint, low: WidePoint, high: WidePoint) -> Area
        requires square { IsSmall 66 square }
        requires low { IsSmall 66 low }
        requires high { IsSmall 66 high }
        ensures small { IsSmallArea 70 result }
        ensures has { (e : GridPoint)
            → IsInArea result e ↔ HasSquare (moved_box (as_point low) (as_point high) e) (as_square square) }
    {
        Area {
            low: WidePoint {
                x: square.x + 1 - high.x,
                y: square.y + 1 - high.y,
            },
            high: WidePoint {
                x: square.x - low.x,
                y: square.y - low.y,
            },
        }
    }

    /// The displacements after which the area has a point between the origin and `end`, in both
    /// directions.
    pub(crate) fn widened(&self, end: Point) -> Area
        requires { IsSmallArea 70 self.now }
        ensures small { IsSmallArea 72 result }
        ensures has { (p e : GridPoint) → IsOnWay p.x end.x → IsOnWay p.y end.y → IsInArea self.now (shifted e p)
            → IsInArea result e }
    {
        let x = i128::from(end.x);
        let y = i128::from(end.y);
        Area {
            low: WidePoint {
                x: self.low.x - x.max(0),
                y: self.low.y - y.max(0),
            },
            high: WidePoint {
                x: self.high.x - x.min(0),
                y: self.high.y - y.min(0),
            },
        }
    }

    /// Whether it has the displacement.
    pub(crate) fn has(&self, shift: Point) -> bool
        ensures { IsTrue result ↔ IsInArea self.now shift }
    {
        let WidePoint { x, y } = WidePoint::from_point(shift);
        is_between(self.low.x, x, self.high.x) && is_between(self.low.y, y, self.high.y)
    }
}

/// The corner of the window where its squares begin.
fn lower_left(window: Window) -> Point
    ensures { result ≡ record { x = window.x0; y = window.y0 } }
{
    Point {
        x: window.x0,
        y: window.y0,
    }
}

/// The corner of the window where its squares end.
fn upper_right(window: Window) -> Point
    ensures { result ≡ record { x = window.x1; y = window.y1 } }
{
    Point {
        x: window.x1,
        y: window.y1,
    }
}

/// An area that has each displacement that moves the ring to where it covers the square, or None if
/// one isn't known.
pub(crate) fn area_of_ring(ring: &MovedRing<'_>, square: WidePoint) -> Option<Area>
    requires { IsSmall 66 square }
    ensures small { IfSome result (IsSmallArea 70) }
    ensures has { IfSome result (λ area. (s : GridSquare) (e : GridPoint) → Covers ring.now s
        → moved_square e s ≡ as_square square → IsInArea area e) }
{
    let (low, high) = ring.reach()?;
    Some(Area::around(
        square,
        WidePoint::from_point(low),
        WidePoint::from_point(high),
    ))
}

/// An area that has each shift of the reference at which the cell at index `target` covers the
/// square, if the reference places it there. None if one isn't known.
pub(crate) fn area_of_reference(
    fitted: &Fitted,
    target: usize,
    reference: &KeptReference<'_>,
    square: WidePoint,
) -> Option<Area>
    requires { IsSmall 66 square }
    ensures small { IfSome result (IsSmallArea 70) }
    ensures has { IfSome result (λ area. (layer : PlainLayer) (s : GridSquare) (e : GridPoint)
        → CoversAt fitted.now.cells target layer s → image_square (map_at reference.now e) s ≡ as_square square
        → IsInArea area e) }
{
    let window = fitted.extent_of(target)?;
    let by = Map {
        flip: reference.flip(),
        turn: reference.turn(),
        at: reference.at(),
    };
    let first = placed(&by, lower_left(window));
    let last = placed(&by, upper_right(window));
    Some(Area::around(square, first.lesser(last), first.greater(last)))
}
