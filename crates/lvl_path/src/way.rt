//! The direction of a step.
ghost use Rattle.std.specs.Prelude.{◌≡◌, ◌≢◌, ◌↔◌, IsTrue};
ghost use Rattle.lvl_path.specs.Ways.{way_between, opposite, same_way};

use lvl_grid::Point;

/// The direction of a step. An oblique step counts as east or west, and a step between equal points
/// as south; paths with such steps are refused.
#[derive(Clone, Copy)]
pub(crate) enum Way {
    East,
    North,
    West,
    South,
}

impl Way {
    pub(crate) fn between(from: Point, to: Point) -> Way
        ensures { result ≡ way_between from to }
    {
        if from.x < to.x {
            Way::East
        } else if to.x < from.x {
            Way::West
        } else if from.y < to.y {
            Way::North
        } else {
            Way::South
        }
    }

    pub(crate) fn opposite(self) -> Way
        ensures { result ≡ opposite self }
    {
        match self {
            Way::East => Way::West,
            Way::North => Way::South,
            Way::West => Way::East,
            Way::South => Way::North,
        }
    }

    pub(crate) fn is_same(self, other: Way) -> bool
        ensures { result ≡ same_way self other }
    {
        match (self, other) {
            (Way::East, Way::East)
            | (Way::North, Way::North)
            | (Way::West, Way::West)
            | (Way::South, Way::South) => true,
            _ => false,
        }
    }
}
