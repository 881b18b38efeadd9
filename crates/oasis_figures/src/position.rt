//! Positions, and how records move them.
ghost use Rattle.std.specs.Prelude.{SomeIff, FitsSigned};
ghost use Rattle.std.specs.Int.{w64};
ghost use Rattle.lvl_grid.specs.Turn.{FitsPoint};
ghost use Rattle.oasis_figures.specs.Modal.{stepped, moved};

use lvl_grid::Point;

/// The coordinate after a record; `None` if it doesn't fit in 64 bits.
fn step(given: Option<i64>, is_relative: bool, before: i64) -> Option<i64>
    ensures { SomeIff result (FitsSigned w64 (stepped given is_relative before)) (stepped given is_relative before) }
{
    let Some(given) = given else {
        return Some(before);
    };
    if is_relative {
        return before.checked_add(given);
    }
    Some(given)
}

/// The position after a record with these coordinates; `None` if it doesn't fit in 64 bits.
pub(crate) fn moved(
    before: Point,
    x: Option<i64>,
    y: Option<i64>,
    is_relative: bool,
) -> Option<Point>
    ensures { SomeIff result (FitsPoint (moved before x y is_relative)) (moved before x y is_relative) }
{
    let x = step(x, is_relative, before.x)?;
    let y = step(y, is_relative, before.y)?;
    Some(Point { x, y })
}
