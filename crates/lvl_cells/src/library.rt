//! Libraries: cells with their shapes and their references to other cells.
use crate::references::References;
use crate::shapes::Shapes;
use lvl_names::Name;
use std::marker::Model;

/// A named cell, with its shapes and references in file order.
#[derive(Drop)]
pub struct Cell {
    pub name: Name,
    pub shapes: Shapes,
    pub references: References,
}

impl Model for Cell {
    ghost use Rattle.lvl_cells.specs.Cells.{PlainCell, Rings};

    ghost Value = { PlainCell Rings };

    ghost view = { λ c. record { name = c.name; shapes = c.shapes; references = c.references } };
}

/// The cells of a file, in file order. [`crate::check`] says whether they are sound.
#[derive(Drop)]
pub struct Library {
    pub cells: Vec<Cell>,
}

impl Model for Library {
    ghost use Rattle.std.specs.Prelude.{List};
    ghost use Rattle.lvl_cells.specs.Cells.{PlainCell, Rings};

    ghost Value = { List (PlainCell Rings) };

    ghost view = { λ l. l.cells.items };
}
