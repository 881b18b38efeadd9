//! What a record draws.
use lvl_grid::{Map, Point, Ring};
use lvl_names::Layer;

/// What a record draws, at each of the shifts of its repetition ([`crate::Modal::shifts`]).
#[derive(Debug, Drop)]
pub enum DrawnRecord {
    /// A RECTANGLE: its lower left and its upper right corner, on a Layer.
    Rectangle(Layer, Point, Point),
    /// A POLYGON: its ring on a Layer.
    Ring(Layer, Ring),
    /// A PATH: the rings of its bands on a Layer.
    Rings(Layer, Vec<Ring>),
    /// A PLACEMENT of the cell [`crate::Modal::cell`]: how it is reflected, turned and moved.
    Placement(Map),
}
