//! The bounds of a ring, and the length of its edges. These guide choices of cost only, so they
//! have no contracts.

use lvl_grid::Point;

/// The bounds of a ring, and the number and the length of its edges, in grid steps.
#[derive(Clone, Copy, Debug)]
pub struct Outline {
    /// The least abscissa.
    pub left: i64,
    /// The greatest abscissa.
    pub right: i64,
    /// The least ordinate.
    pub low: i64,
    /// The greatest ordinate.
    pub high: i64,
    /// The number of vertical edges.
    pub edges: u128,
    /// The sum of the lengths of the vertical edges.
    pub heights: u128,
    /// The sum of the lengths of the horizontal edges.
    pub widths: u128,
}

impl Outline {
    /// The outline of a ring.
    pub fn of(ring: &[Point]) -> Outline {
        let mut outline = Outline {
            left: i64::MAX,
            right: i64::MIN,
            low: i64::MAX,
            high: i64::MIN,
            edges: 0,
            heights: 0,
            widths: 0,
        };
        let mut before = ring.last().copied().unwrap_or(Point { x: 0, y: 0 });
        for point in ring {
            outline.add(before, *point);
            before = *point;
        }
        outline
    }

    /// Adds the edge from one point to another. A length is below 2^64 and a list has fewer than
    /// 2^60 points, so sums of lengths are below 2^124.
    fn add(&mut self, from: Point, to: Point) {
        self.left = self.left.min(to.x);
        self.right = self.right.max(to.x);
        self.low = self.low.min(to.y);
        self.high = self.high.max(to.y);
        let height = u128::from(to.y.abs_diff(from.y));
        self.edges = self.edges.saturating_add(u128::from(height > 0));
        self.heights = self.heights.saturating_add(height);
        self.widths = self
            .widths
            .saturating_add(u128::from(to.x.abs_diff(from.x)));
    }

    /// How many rectangles the ring leaves in a narrow column without points of the ring, on
    /// average: half the number of edges that a vertical line crosses, and at least 1.
    pub fn folds(&self) -> u128 {
        let across = u128::from(self.right.abs_diff(self.left)).saturating_mul(2);
        self.widths.checked_div(across).unwrap_or(1).max(1)
    }

    /// Whether the ring goes in and out many times: [`Outline::folds`] is at least 16.
    pub fn is_folded(&self) -> bool {
        self.folds() >= 16
    }
}
