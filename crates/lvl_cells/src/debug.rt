//! `Debug` of types that hold many things: how many, and not each of them.

use crate::builder::Builder;
use crate::checked::Checked;
use crate::library::{Cell, Library};
use crate::placements::Placements;
use crate::references::References;
use crate::shapes::Shapes;
use std::fmt::{self, Debug, Formatter};

impl Debug for Library {
    fn fmt<W: fmt::Write>(&self, f: &mut Formatter<W>) -> fmt::Result {
        f.debug_struct("Library")
            .field("cells", &self.cells.len())
            .finish_non_exhaustive()
    }
}

impl Debug for Cell {
    fn fmt<W: fmt::Write>(&self, f: &mut Formatter<W>) -> fmt::Result {
        f.debug_struct("Cell")
            .field("name", &self.name)
            .finish_non_exhaustive()
    }
}

impl Debug for Shapes {
    fn fmt<W: fmt::Write>(&self, f: &mut Formatter<W>) -> fmt::Result {
        f.debug_struct("Shapes")
            .field("len", &self.len())
            .finish_non_exhaustive()
    }
}

impl Debug for References {
    fn fmt<W: fmt::Write>(&self, f: &mut Formatter<W>) -> fmt::Result {
        f.debug_struct("References")
            .field("len", &self.len())
            .finish_non_exhaustive()
    }
}

impl Debug for Placements {
    fn fmt<W: fmt::Write>(&self, f: &mut Formatter<W>) -> fmt::Result {
        f.debug_struct("Placements")
            .field("len", &self.len())
            .finish_non_exhaustive()
    }
}

impl Debug for Builder {
    fn fmt<W: fmt::Write>(&self, f: &mut Formatter<W>) -> fmt::Result {
        f.debug_struct("Builder").finish_non_exhaustive()
    }
}

impl Debug for Checked {
    fn fmt<W: fmt::Write>(&self, f: &mut Formatter<W>) -> fmt::Result {
        f.debug_struct("Checked")
            .field("top", &self.top())
            .finish_non_exhaustive()
    }
}
