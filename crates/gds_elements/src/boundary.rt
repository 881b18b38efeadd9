//! BOUNDARY LAYER DATATYPE XY ENDEL: the ring of its points without the last.
ghost use Rattle.std.specs.Prelude.{◌≡◌, ◌∷◌, [], ◌≤◌, List, ℕ, None, IfOk, IfErr, OnOk, length, All};
ghost use Rattle.lvl_grid.specs.Winding.{IsStraight};
ghost use Rattle.gds_elements.specs.Types.{boundary, xy};
ghost use Rattle.gds_elements.specs.Values.{points, but_last};
ghost use Rattle.gds_elements.specs.Rec.{Rec};
ghost use Rattle.gds_elements.specs.Rules.{IsClosed, steps};
ghost use Rattle.lvl_grammar.specs.inside.After.{after_first};
ghost use Rattle.gds_elements.specs.inside.Left.{left_after, EndsBy};
ghost use Rattle.gds_elements.specs.inside.Formed.{IsFormed};
ghost use Rattle.gds_elements.specs.inside.Boundary.{left, IsBoundary, IsRingFault};
ghost use Rattle.lvl_profile.specs.declared.profile.Profile.{Profile as PlainProfile};
ghost use Rattle.gds_elements.specs.inside.Reading.{Takes, record_of};
ghost use Rattle.lvl_refusal.specs.Refused.{Says};
ghost use Rattle.gds_elements.specs.inside.Misplaced.{Broken};

use crate::element::Drawn;
use crate::fault::{ElementFault, ElementRule, breach};
use crate::layer::read_layer;
use crate::order::{Next, only, out_of_order};
use crate::values::points;
use gds_records::record_type;
use lvl_grid::Ring;
use lvl_names::Layer;
use lvl_refusal::Cause;
use std::alloc::Global;

/// The least number of points of a boundary, with the last, which closes it.
const FEWEST_POINTS: usize = 4;

/// Which record comes next.
#[derive(Clone, Copy)]
pub(crate) enum BoundaryStage {
    Layer,
    Datatype,
    Points,
}

impl BoundaryStage {
    /// What a record of this type leads to, if it comes next.
    fn after(self, kind: u8) -> Next<BoundaryStage>
        ensures order { after_first (left self) kind ≡ left_after left result }
        ensures last { EndsBy xy kind result }
    {
        match self {
            BoundaryStage::Layer => only(
                kind,
                record_type::LAYER,
                Next::Goes(BoundaryStage::Datatype),
            ),
            BoundaryStage::Datatype => only(
                kind,
                record_type::DATATYPE,
                Next::Goes(BoundaryStage::Points),
            ),
            BoundaryStage::Points => only(kind, record_type::XY, Next::Ends),
        }
    }
}

/// The state of a boundary that is being read.
#[derive(Drop)]
pub(crate) struct Boundary {
    stage: BoundaryStage,
    layer: Layer,
}

impl Boundary {
    /// The state after the BOUNDARY record.
    pub(crate) fn open() -> Boundary
        ensures { (r : Rec) → r.kind ≡ boundary → IsBoundary result (r ∷ []) }
    {
        Boundary {
            stage: BoundaryStage::Layer,
            layer: Layer {
                layer: 0,
                datatype: 0,
            },
        }
    }

    /// Takes the next record, unless it breaches a rule. `drawn` becomes what is drawn, once only ENDEL is missing.
    pub(crate) fn take(
        &mut self,
        alloc: Global,
        kind: u8,
        payload: &[u8],
        drawn: &mut Option<Drawn>,
    ) -> Result<(), Cause<ElementFault>>
        requires formed { IsFormed kind payload.now }
        requires none { drawn.old ≡ None }
        ensures { (profile : PlainProfile) (piece : List Rec) (d : ℕ) → IsBoundary self.old piece
            → Takes IsBoundary self.new drawn.new profile piece (record_of kind d payload.now) result }
    {
        match self.stage.after(kind) {
            Next::Goes(stage) => {
                self.layer = read_layer(self.layer, kind, payload)?;
                self.stage = stage;
                Ok(())
            }
            Next::Ends => {
                let ring = ring_of(alloc, payload)?;
                *drawn = Some(Drawn::Ring(self.layer, ring));
                Ok(())
            }
            Next::Nowhere => Err(out_of_order(kind)),
        }
    }
}

/// The ring of a boundary's points without the last, unless they breach a rule.
fn ring_of(alloc: Global, payload: &[u8]) -> Result<Ring, Cause<ElementFault>>
    ensures value { IfOk result (λ ring. ring ≡ but_last (points payload.now)) }
    ensures allowed { OnOk result ((4 ≤ length (points payload.now)) × IsClosed (points payload.now)
        × All IsStraight (steps (points payload.now))) }
    ensures refused { IfErr result (λ e. Says e (Broken (IsRingFault (points payload.now)))) }
{
    let mut points = points(alloc, payload)?;
    if points.len() < FEWEST_POINTS {
        return Err(breach(ElementRule::Points));
    }
    let last = points.pop().unwrap();
    if last != points[0] {
        return Err(breach(ElementRule::NotClosed));
    }
    match Ring::new(points) {
        Ok(ring) => Ok(ring),
        Err(_) => Err(breach(ElementRule::Oblique)),
    }
}
