//! POLYGON: the ring of its points.
ghost use Rattle.std.specs.Prelude.{◌≡◌, List, map, All, IfOk, IfErr, OnOk};
ghost use Rattle.lvl_grid.specs.Turn.{FitsPoint, shifted};
ghost use Rattle.lvl_grid.specs.Winding.{IsRing};
ghost use Rattle.lvl_refusal.specs.Refused.{Says};
ghost use Rattle.lvl_profile.specs.declared.ignore.Ignore.{Ignore as Ignored};
ghost use Rattle.oasis_records.specs.declared.record.Record.{Record as ARecord};
ghost use Rattle.oasis_figures.specs.Keeping.{StandsFor};
ghost use Rattle.oasis_figures.specs.Rules.{Breaches};
ghost use Rattle.oasis_figures.specs.inside.Polygons.{a_polygon, IsResolved, RingBreaks};
ghost use Rattle.oasis_figures.specs.inside.Taking.{Takes};

use crate::drawn::DrawnRecord;
use crate::layer::layer_of;
use crate::modal::Modal;
use crate::position::moved;
use crate::repetition::{after, is_known};
use crate::rule::FigureRule;
use crate::variable::Variable;
use crate::vertices::{all_shifted, are_known, known, listed};
use lvl_grid::{Point, Ring};
use lvl_names::Layer;
use lvl_refusal::Cause;
use oasis_records::Polygon;
use std::alloc::Global;

/// A polygon whose values are known, except its points.
#[derive(Clone, Copy)]
pub(crate) struct Resolved {
    layer: u64,
    datatype: u64,
    on: Layer,
    at: Point,
}

/// The ring of the points, moved to the position of the polygon.
fn ring_at(alloc: Global, at: Point, points: &[Point]) -> Result<Ring, Cause<FigureRule>>
    ensures value { IfOk result (λ ring. ring ≡ map (shifted at) points.now) }
    ensures fit { OnOk result (All FitsPoint (map (shifted at) points.now)) }
    ensures ring { OnOk result (IsRing (map (shifted at) points.now)) }
    ensures refused { IfErr result (λ e. Says e (RingBreaks (map (shifted at) points.now))) }
{
    let vertices = all_shifted(alloc, at, points)?;
    match Ring::new(vertices) {
        Ok(ring) => Ok(ring),
        Err(_) => Err(Cause::Breach(FigureRule::Oblique)),
    }
}

impl Modal {
    /// The values of a polygon, unless it breaches a rule that is tested before its vertices.
    fn resolve_polygon(&self, polygon: &Polygon) -> Result<Resolved, FigureRule>
        ensures ok { IfOk result (λ v. (earlier : List ARecord) → StandsFor self.now earlier
            → IsResolved earlier polygon.now v) }
        ensures err { IfErr result (λ rule. (ignore : Ignored) (earlier : List ARecord) → StandsFor self.now earlier
            → Breaches ignore earlier (a_polygon polygon.now) rule) }
    {
        let Some(layer) = polygon.on.layer.or(self.layer) else {
            return Err(FigureRule::Undefined(Variable::Layer));
        };
        let Some(datatype) = polygon.on.datatype.or(self.datatype) else {
            return Err(FigureRule::Undefined(Variable::Datatype));
        };
        if !are_known(&polygon.points, &self.polygon) {
            return Err(FigureRule::Undefined(Variable::PolygonPointList));
        }
        let position = &polygon.position;
        if !is_known(&position.repetition, &self.repetition) {
            return Err(FigureRule::Undefined(Variable::Repetition));
        }
        let Some(on) = layer_of(layer, datatype) else {
            return Err(FigureRule::Layer);
        };
        let Some(at) = moved(self.geometry, position.x, position.y, self.is_relative) else {
            return Err(FigureRule::OutOfRange);
        };
        Ok(Resolved {
            layer,
            datatype,
            on,
            at,
        })
    }

    /// Takes a POLYGON. Its point list is moved into the modal variable, and the vertices of its
    /// ring are new points.
    pub(crate) fn take_polygon(
        &mut self,
        alloc: Global,
        polygon: Polygon,
    ) -> Result<Option<DrawnRecord>, Cause<FigureRule>>
        ensures { (ignore : Ignored) → Takes ignore self.old (a_polygon polygon) result self.new }
    {
        let values = self.resolve_polygon(&polygon)?;
        let points = listed(polygon.points);
        let ring = ring_at(alloc, values.at, known(&points, &self.polygon))?;
        let repetition = polygon.position.repetition;
        self.geometry = values.at;
        self.layer = Some(values.layer);
        self.datatype = Some(values.datatype);
        self.polygon = points.or(self.polygon.take());
        self.is_repeated = repetition.is_some();
        self.repetition = after(repetition, self.repetition.take());
        Ok(Some(DrawnRecord::Ring(values.on, ring)))
    }
}
