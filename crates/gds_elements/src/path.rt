//! PATH LAYER DATATYPE [PATHTYPE] [WIDTH] XY ENDEL: the bands of its runs.
ghost use Rattle.std.specs.Prelude.{◌≡◌, [], ◌∷◌, ◌≢◌, ◌==◌, ◌≤◌, ◌<◌, List, ℕ, Some, None, false, pos, IfOk, IfErr};
ghost use Rattle.std.specs.Prelude.{OnOk, length, if◌then◌else◌};
ghost use Rattle.std.specs.Ordering.{int_eq};
ghost use Rattle.lvl_path.specs.Repeats.{asked, without_repeats};
ghost use Rattle.lvl_path.specs.Runs.{path_rings, IsPath};
ghost use Rattle.gds_elements.specs.Types.{path, width, pathtype, xy, endel};
ghost use Rattle.lvl_grammar.specs.Order.{one};
ghost use Rattle.gds_elements.specs.Values.{short, long, points};
ghost use Rattle.gds_elements.specs.Rec.{Rec};
ghost use Rattle.gds_elements.specs.Meaning.{half};
ghost use Rattle.gds_elements.specs.Rules.{IsWidth};
ghost use Rattle.lvl_grammar.specs.inside.After.{after_first};
ghost use Rattle.gds_elements.specs.inside.Left.{left_after, EndsBy};
ghost use Rattle.gds_elements.specs.inside.Formed.{IsFormed};
ghost use Rattle.gds_elements.specs.inside.Path.{left, IsPathRead, IsBandsFault, reach_at};
ghost use Rattle.gds_elements.specs.inside.Reading.{Takes, record_of};
ghost use Rattle.lvl_refusal.specs.Refused.{Says};
ghost use Rattle.gds_elements.specs.inside.Misplaced.{Broken, breach};

use crate::element::Drawn;
use crate::fault::{ElementFault, ElementRule, breach};
use crate::layer::read_layer;
use crate::order::{Next, only, out_of_order};
use crate::values::{long, points, short};
use gds_records::record_type;
use lvl_grid::Ring;
use lvl_names::Layer;
use lvl_path::bands_by;
use lvl_profile::Profile;
use lvl_refusal::Cause;
use std::alloc::Global;

/// The least number of points of a path.
const FEWEST_POINTS: usize = 2;

/// Which record comes next. If several may, the first of them gives the name.
#[derive(Clone, Copy)]
pub(crate) enum PathStage {
    Layer,
    Datatype,
    PathType,
    Width,
    Points,
}

impl PathStage {
    /// What a record of this type leads to, if it comes next.
    fn after(self, kind: u8) -> Next<PathStage>
        ensures order { after_first (left self) kind ≡ left_after left result }
        ensures last { EndsBy xy kind result }
    {
        match self {
            PathStage::Layer => only(kind, record_type::LAYER, Next::Goes(PathStage::Datatype)),
            PathStage::Datatype => only(
                kind,
                record_type::DATATYPE,
                Next::Goes(PathStage::PathType),
            ),
            PathStage::PathType => match kind {
                record_type::PATHTYPE => Next::Goes(PathStage::Width),
                record_type::WIDTH => Next::Goes(PathStage::Points),
                _ => only(kind, record_type::XY, Next::Ends),
            },
            PathStage::Width => match kind {
                record_type::WIDTH => Next::Goes(PathStage::Points),
                _ => only(kind, record_type::XY, Next::Ends),
            },
            PathStage::Points => only(kind, record_type::XY, Next::Ends),
        }
    }
}

/// The state of a path that is being read.
#[derive(Drop)]
pub(crate) struct Path {
    stage: PathStage,
    layer: Layer,
    /// Whether the path reaches half its width beyond its ends.
    square: bool,
    /// Half the width in grid steps, once WIDTH was read.
    half: Option<u64>,
}

impl Path {
    /// The state after the PATH record.
    pub(crate) fn open() -> Path
        ensures { (r : Rec) → r.kind ≡ path → IsPathRead result (r ∷ []) }
    {
        Path {
            stage: PathStage::Layer,
            layer: Layer {
                layer: 0,
                datatype: 0,
            },
            square: false,
            half: None,
        }
    }

    /// Takes the next record, unless it breaches a rule. `drawn` becomes what is drawn, once only ENDEL is missing.
    pub(crate) fn take(
        &mut self,
        alloc: Global,
        profile: Profile,
        kind: u8,
        payload: &[u8],
        drawn: &mut Option<Drawn>,
    ) -> Result<(), Cause<ElementFault>>
        requires formed { IsFormed kind payload.now }
        requires none { drawn.old ≡ None }
        ensures { (piece : List Rec) (d : ℕ) → IsPathRead self.old piece
            → Takes IsPathRead self.new drawn.new profile piece (record_of kind d payload.now) result }
    {
        match self.stage.after(kind) {
            Next::Goes(stage) => {
                self.layer = read_layer(self.layer, kind, payload)?;
                self.square = read_ends(self.square, kind, payload)?;
                self.half = read_half(self.half, kind, payload)?;
                self.stage = stage;
                Ok(())
            }
            Next::Ends => self.draw(alloc, profile, payload, drawn),
            Next::Nowhere => Err(out_of_order(kind)),
        }
    }

    // Takes the XY, which may come next.
    fn draw(
        &self,
        alloc: Global,
        profile: Profile,
        payload: &[u8],
        drawn: &mut Option<Drawn>,
    ) -> Result<(), Cause<ElementFault>>
        ensures { (piece : List Rec) (kind d : ℕ) → IsPathRead self.now piece → kind ≡ xy
            → after_first (left self.now.stage) kind ≡ one endel ∷ []
            → Takes IsPathRead self.now drawn.new profile piece (record_of kind d payload.now) result }
    {
        let ignored = profile.ignore.points;
        let rings = bands_of(alloc, ignored, self.half, self.square, payload)?;
        *drawn = Some(Drawn::Rings(self.layer, rings));
        Ok(())
    }
}

/// Whether a path reaches half its width beyond its ends, after one more record. Only a PATHTYPE
/// changes this.
fn read_ends(old: bool, kind: u8, payload: &[u8]) -> Result<bool, Cause<ElementFault>>
    requires { IsFormed kind payload.now }
    ensures value { IfOk result
        (λ square. square ≡ (if kind == pathtype then int_eq (short payload.now) (pos 2) else old)) }
    ensures allowed { OnOk result (kind ≡ pathtype → (short payload.now ≢ pos 0) → short payload.now ≡ pos 2) }
    ensures refused { IfErr result (λ e. (e ≡ breach ElementRule.PathType) × (kind ≡ pathtype)
        × (short payload.now ≢ pos 0) × (short payload.now ≢ pos 2)) }
{
    if kind != record_type::PATHTYPE {
        return Ok(old);
    }
    match short(payload) {
        0 => Ok(false),
        2 => Ok(true),
        _ => Err(breach(ElementRule::PathType)),
    }
}

/// Half the width of a path, after one more record. Only a WIDTH changes it.
fn read_half(old: Option<u64>, kind: u8, payload: &[u8]) -> Result<Option<u64>, Cause<ElementFault>>
    requires { IsFormed kind payload.now }
    ensures value { IfOk result (λ h. h ≡ (if kind == width then Some (half payload.now) else old)) }
    ensures allowed { OnOk result (kind ≡ width → IsWidth (long payload.now)) }
    ensures refused { IfErr result
        (λ e. (e ≡ breach ElementRule.Width) × (kind ≡ width) × ¬ IsWidth (long payload.now)) }
{
    if kind != record_type::WIDTH {
        return Ok(old);
    }
    let Ok(width) = u32::try_from(long(payload)) else {
        return Err(breach(ElementRule::Width));
    };
    if width == 0 || width % 2 != 0 {
        return Err(breach(ElementRule::Width));
    }
    Ok(Some(u64::from(width / 2)))
}

/// The rings of the bands of a path, unless its points and width breach a rule. `ignored` says whether points
/// that equal the one before are.
fn bands_of(
    alloc: Global,
    ignored: bool,
    half: Option<u64>,
    square: bool,
    payload: &[u8],
) -> Result<Vec<Ring>, Cause<ElementFault>>
    ensures value { (h : ℕ) → half ≡ Some h → IfOk result (λ v.
        v.items ≡ path_rings (without_repeats (points payload.now))
        (record { half = h; start = reach_at square h; end = reach_at square h })) }
    ensures allowed { (h : ℕ) → half ≡ Some h → OnOk result
        (IsPath (asked ignored (points payload.now))
        (record { half = h; start = reach_at square h; end = reach_at square h })) }
    ensures enough { OnOk result (2 ≤ length (points payload.now)) }
    ensures width { OnOk result (half ≢ None) }
    ensures refused { IfErr result (λ e. Says e (Broken (IsBandsFault ignored (points payload.now) half square))) }
{
    let points = points(alloc, payload)?;
    if points.len() < FEWEST_POINTS {
        return Err(breach(ElementRule::Points));
    }
    let Some(half) = half else {
        return Err(breach(ElementRule::Width));
    };
    let reach = end_reach(square, half);
    match bands_by(alloc, points, half, reach, reach, ignored) {
        Ok(rings) => Ok(rings),
        Err(Cause::Breach(fault)) => Err(breach(ElementRule::Path(fault))),
        Err(Cause::OutOfMemory) => Err(Cause::OutOfMemory),
    }
}

/// How far a path reaches beyond its ends.
fn end_reach(square: bool, half: u64) -> u64
    ensures { result ≡ reach_at square half }
{
    if square { half } else { 0 }
}
