//! The names of modal variables.
ghost use Rattle.std.specs.Prelude.{◌≡◌, Some};
ghost use Rattle.oasis_figures.specs.Names.{variable_name};

use std::fmt;

/// A modal variable that can be undefined (SEMI P39, "Modal variables"). Those of positions always
/// have a value.
#[derive(Clone, Copy, Debug, Drop, PartialEq, Eq)]
pub enum Variable {
    PlacementCell,
    Layer,
    Datatype,
    GeometryW,
    GeometryH,
    PolygonPointList,
    PathHalfWidth,
    PathPointList,
    PathStartExtension,
    PathEndExtension,
    Repetition,
}

impl Variable {
    /// Its name in the standard's table.
    pub fn name(self) -> &'static str
        ensures { result.now ≡ variable_name self }
    {
        match self {
            Variable::PlacementCell => "placement-cell",
            Variable::Layer => "layer",
            Variable::Datatype => "datatype",
            Variable::GeometryW => "geometry-w",
            Variable::GeometryH => "geometry-h",
            Variable::PolygonPointList => "polygon-point-list",
            Variable::PathHalfWidth => "path-halfwidth",
            Variable::PathPointList => "path-point-list",
            Variable::PathStartExtension => "path-start-extension",
            Variable::PathEndExtension => "path-end-extension",
            Variable::Repetition => "repetition",
        }
    }
}

impl fmt::Display for Variable {
    ghost output = { λ variable. Some (variable_name variable) };

    fn fmt<W: fmt::Write>(&self, f: &mut fmt::Formatter<W>) -> fmt::Result {
        f.write_str(self.name())
    }
}
