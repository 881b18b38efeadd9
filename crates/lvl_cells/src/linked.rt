//! Libraries whose names are resolved, and whose cells are in an order.
ghost use Rattle.std.specs.Prelude.{◌≡◌, ◌<◌, length, IfSome, IfNone};
ghost use Rattle.lvl_cells.specs.Checks.{IsTargetOf, HasReference};
ghost use Rattle.lvl_cells.specs.Soundness.{AreLinked, IsOrder};

use crate::library::Cell;
use crate::rows::Targets;
use std::marker::Model;

/// A library with a top: each reference names a cell, and each cell comes before those that it refers to.
#[derive(Drop)]
pub(crate) struct Linked<'a> {
    pub cells: &'a [Cell],
    pub targets: &'a Targets,
    pub order: &'a [usize],
    pub top: usize,
}

impl<'a> Model for Linked<'a> {
    ghost use Rattle.lvl_cells.specs.Checks.{Settled};

    ghost Value = { Settled };

    ghost use Rattle.lvl_cells.specs.inside.Linking.{linked_value, IsKeptLinked};

    ghost view = { linked_value };

    ghost invariant = { IsKeptLinked };
}

impl<'a> Linked<'a> {
    /// The cells, in file order.
    pub(crate) fn cells(&self) -> &[Cell]
        ensures value { result.now ≡ self.now.cells }
        ensures linked { AreLinked self.now.cells }
    {
        self.cells
    }

    /// The indexes of the cells, each once and before those of the cells that it refers to.
    pub(crate) fn order(&self) -> &[usize]
        ensures value { result.now ≡ self.now.order }
        ensures sorted { IsOrder self.now.cells self.now.order }
    {
        self.order
    }

    /// The index of the top.
    pub(crate) fn top(&self) -> usize
        ensures value { result ≡ self.now.top }
        ensures within { result < length self.now.cells }
    {
        self.top
    }

    /// The index of the cell to which a reference refers, given the index of the cell that has the reference and that
    /// of the reference in this cell. None if there is no such reference.
    pub(crate) fn target(&self, cell: usize, reference: usize) -> Option<usize>
        ensures target { IfSome result (IsTargetOf self.now.cells cell reference) }
        ensures past { IfNone result (¬ HasReference self.now.cells cell reference) }
    {
        if cell >= self.targets.len() {
            return None;
        }
        self.targets.row(cell).get(reference)
    }
}
