//! PATH: the bands of its runs.
ghost use Rattle.std.specs.Prelude.{◌≡◌, List, IfOk, IfErr, OnOk};
ghost use Rattle.lvl_path.specs.Repeats.{asked, without_repeats};
ghost use Rattle.lvl_path.specs.Runs.{path_rings, IsPath};
ghost use Rattle.lvl_refusal.specs.Refused.{Says};
ghost use Rattle.lvl_profile.specs.declared.ignore.Ignore.{Ignore as Ignored};
ghost use Rattle.oasis_records.specs.declared.record.Record.{Record as ARecord};
ghost use Rattle.oasis_figures.specs.Keeping.{StandsFor};
ghost use Rattle.oasis_figures.specs.Rules.{Breaches};
ghost use Rattle.oasis_figures.specs.inside.Paths.{a_path, IsStroke, IsResolved, BandsBreak};
ghost use Rattle.oasis_figures.specs.inside.Taking.{Takes};

use crate::drawn::DrawnRecord;
use crate::extension::{Extent, ends_of, reaches, resolve};
use crate::layer::layer_of;
use crate::modal::Modal;
use crate::position::moved;
use crate::repetition::{after, is_known};
use crate::rule::FigureRule;
use crate::variable::Variable;
use crate::vertices::{all_shifted, are_known, known, listed};
use lvl_grid::{Point, Ring};
use lvl_names::Layer;
use lvl_path::bands_by;
use lvl_profile::Ignore;
use lvl_refusal::Cause;
use oasis_records::Path;
use std::alloc::Global;

/// The values of a path that are tested before its points.
#[derive(Clone, Copy)]
pub(crate) struct Stroke {
    layer: u64,
    datatype: u64,
    half: u64,
    start: Extent,
    end: Extent,
}

/// A path whose values are known, except its points.
#[derive(Clone, Copy)]
pub(crate) struct Resolved {
    stroke: Stroke,
    on: Layer,
    at: Point,
}

/// The rings of the bands of a path, unless it breaches a rule of paths. `ignored` says whether points that equal
/// the one before are.
fn bands_of(
    alloc: Global,
    points: Vec<Point>,
    half: u64,
    start: u64,
    end: u64,
    ignored: bool,
) -> Result<Vec<Ring>, Cause<FigureRule>>
    ensures value { IfOk result
        (λ rings. rings.items ≡ path_rings (without_repeats points.items)
        (record { half = half; start = start; end = end })) }
    ensures path { OnOk result (IsPath (asked ignored points.items)
        (record { half = half; start = start; end = end })) }
    ensures refused { IfErr result (λ e. Says e (BandsBreak ignored points.items half start end)) }
{
    match bands_by(alloc, points, half, start, end, ignored) {
        Ok(rings) => Ok(rings),
        Err(Cause::Breach(fault)) => Err(Cause::Breach(FigureRule::Path(fault))),
        Err(Cause::OutOfMemory) => Err(Cause::OutOfMemory),
    }
}

impl Modal {
    /// The values that are tested before the points, if all of them are known.
    fn stroke_of(&self, path: &Path) -> Result<Stroke, FigureRule>
        ensures ok { IfOk result (IsStroke self.now path.now) }
        ensures err { IfErr result (λ rule. (ignore : Ignored) (earlier : List ARecord) → StandsFor self.now earlier
            → Breaches ignore earlier (a_path path.now) rule) }
    {
        let Some(layer) = path.on.layer.or(self.layer) else {
            return Err(FigureRule::Undefined(Variable::Layer));
        };
        let Some(datatype) = path.on.datatype.or(self.datatype) else {
            return Err(FigureRule::Undefined(Variable::Datatype));
        };
        let Some(half) = path.half_width.or(self.half_width) else {
            return Err(FigureRule::Undefined(Variable::PathHalfWidth));
        };
        let ends = ends_of(path.ends);
        let Some(start) = resolve(ends.start, half, self.start) else {
            return Err(FigureRule::Undefined(Variable::PathStartExtension));
        };
        let Some(end) = resolve(ends.end, half, self.end) else {
            return Err(FigureRule::Undefined(Variable::PathEndExtension));
        };
        Ok(Stroke {
            layer,
            datatype,
            half,
            start,
            end,
        })
    }

    /// The values of a path, unless it breaches a rule that is tested before its vertices.
    fn resolve_path(&self, path: &Path) -> Result<Resolved, FigureRule>
        ensures ok { IfOk result (λ v. (earlier : List ARecord) → StandsFor self.now earlier
            → IsResolved earlier path.now v) }
        ensures err { IfErr result (λ rule. (ignore : Ignored) (earlier : List ARecord) → StandsFor self.now earlier
            → Breaches ignore earlier (a_path path.now) rule) }
    {
        let stroke = self.stroke_of(path)?;
        if !are_known(&path.points, &self.path) {
            return Err(FigureRule::Undefined(Variable::PathPointList));
        }
        let position = &path.position;
        if !is_known(&position.repetition, &self.repetition) {
            return Err(FigureRule::Undefined(Variable::Repetition));
        }
        let Some(on) = layer_of(stroke.layer, stroke.datatype) else {
            return Err(FigureRule::Layer);
        };
        let Some(at) = moved(self.geometry, position.x, position.y, self.is_relative) else {
            return Err(FigureRule::OutOfRange);
        };
        Ok(Resolved { stroke, on, at })
    }

    /// Takes a PATH. Its point list is moved into the modal variable, and its extensions are kept as
    /// numbers.
    pub(crate) fn take_path(
        &mut self,
        alloc: Global,
        ignore: Ignore,
        path: Path,
    ) -> Result<Option<DrawnRecord>, Cause<FigureRule>>
        ensures { Takes ignore self.old (a_path path) result self.new }
    {
        let Resolved { stroke, on, at } = self.resolve_path(&path)?;
        let points = listed(path.points);
        let vertices = all_shifted(alloc, at, known(&points, &self.path))?;
        let Some((start, end)) = reaches(stroke.start, stroke.end) else {
            return Err(Cause::Breach(FigureRule::Extension));
        };
        let rings = bands_of(alloc, vertices, stroke.half, start, end, ignore.points)?;
        let repetition = path.position.repetition;
        self.geometry = at;
        self.layer = Some(stroke.layer);
        self.datatype = Some(stroke.datatype);
        self.half_width = Some(stroke.half);
        self.start = Some(start);
        self.end = Some(end);
        self.path = points.or(self.path.take());
        self.is_repeated = repetition.is_some();
        self.repetition = after(repetition, self.repetition.take());
        Ok(Some(DrawnRecord::Rings(on, rings)))
    }
}
