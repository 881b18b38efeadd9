//! SREF SNAME [STRANS [MAG] [ANGLE]] XY ENDEL: a reference to a cell at one place.
ghost use Rattle.std.specs.Prelude.{◌≡◌, ◌∷◌, ◌≢◌, [], false, List, ℕ, None, IfOk, IfErr, OnOk, length};
ghost use Rattle.lvl_cells.specs.Cells.{PlainReference};
ghost use Rattle.gds_elements.specs.Types.{sref, xy, endel};
ghost use Rattle.lvl_grammar.specs.Order.{one};
ghost use Rattle.gds_elements.specs.Values.{points, nth};
ghost use Rattle.gds_elements.specs.Rec.{Rec};
ghost use Rattle.lvl_names.specs.Shifts.{one_place};
ghost use Rattle.lvl_grammar.specs.inside.After.{after_first};
ghost use Rattle.gds_elements.specs.inside.Left.{left_after, EndsBy};
ghost use Rattle.gds_elements.specs.inside.Formed.{IsFormed};
ghost use Rattle.gds_elements.specs.inside.Sref.{left, IsSrefRead};
ghost use Rattle.lvl_profile.specs.declared.profile.Profile.{Profile as PlainProfile};
ghost use Rattle.gds_elements.specs.inside.Reading.{Takes, record_of};
ghost use Rattle.lvl_refusal.specs.Refused.{Says};
ghost use Rattle.gds_elements.specs.inside.Misplaced.{Broken};

use crate::element::Drawn;
use crate::fault::{ElementFault, ElementRule, breach};
use crate::order::{Next, only, out_of_order};
use crate::placing::Placing;
use crate::values::{point_at, point_count};
use gds_records::record_type;
use lvl_cells::Reference;
use lvl_names::{Name, Offsets};
use lvl_refusal::Cause;
use std::alloc::Global;
use std::mem;

/// Which record comes next. If several may, the first of them gives the name.
#[derive(Clone, Copy)]
pub(crate) enum SrefStage {
    Name,
    Strans,
    Magnification,
    Angle,
    Points,
}

impl SrefStage {
    /// What a record of this type leads to, if it comes next.
    fn after(self, kind: u8) -> Next<SrefStage>
        ensures order { after_first (left self) kind ≡ left_after left result }
        ensures last { EndsBy xy kind result }
    {
        match self {
            SrefStage::Name => only(kind, record_type::SNAME, Next::Goes(SrefStage::Strans)),
            SrefStage::Strans => match kind {
                record_type::STRANS => Next::Goes(SrefStage::Magnification),
                _ => only(kind, record_type::XY, Next::Ends),
            },
            SrefStage::Magnification => match kind {
                record_type::MAG => Next::Goes(SrefStage::Angle),
                record_type::ANGLE => Next::Goes(SrefStage::Points),
                _ => only(kind, record_type::XY, Next::Ends),
            },
            SrefStage::Angle => match kind {
                record_type::ANGLE => Next::Goes(SrefStage::Points),
                _ => only(kind, record_type::XY, Next::Ends),
            },
            SrefStage::Points => only(kind, record_type::XY, Next::Ends),
        }
    }
}

/// The state of a reference that is being read.
#[derive(Drop)]
pub(crate) struct Sref {
    stage: SrefStage,
    placing: Placing,
}

impl Sref {
    /// The state after the SREF record.
    pub(crate) fn open(alloc: Global) -> Sref
        ensures { (r : Rec) → r.kind ≡ sref → IsSrefRead result (r ∷ []) }
    {
        Sref {
            stage: SrefStage::Name,
            placing: Placing::new(alloc),
        }
    }

    /// Takes the next record, unless it breaches a rule. `drawn` becomes what is drawn, once only ENDEL is missing.
    pub(crate) fn take(
        &mut self,
        alloc: Global,
        kind: u8,
        payload: &[u8],
        drawn: &mut Option<Drawn>,
    ) -> Result<(), Cause<ElementFault>>
        requires formed { IsFormed kind payload.now }
        requires none { drawn.old ≡ None }
        ensures { (profile : PlainProfile) (piece : List Rec) (d : ℕ) → IsSrefRead self.old piece
            → Takes IsSrefRead self.new drawn.new profile piece (record_of kind d payload.now) result }
    {
        match self.stage.after(kind) {
            Next::Goes(stage) => {
                self.placing.read(alloc, kind, payload)?;
                self.stage = stage;
                Ok(())
            }
            Next::Ends => self.draw(alloc, payload, drawn),
            Next::Nowhere => Err(out_of_order(kind)),
        }
    }

    // Takes the XY, which may come next.
    fn draw(
        &mut self,
        alloc: Global,
        payload: &[u8],
        drawn: &mut Option<Drawn>,
    ) -> Result<(), Cause<ElementFault>>
        ensures { (profile : PlainProfile) (piece : List Rec) (kind d : ℕ) → IsSrefRead self.old piece → kind ≡ xy
            → after_first (left self.old.stage) kind ≡ one endel ∷ []
            → Takes IsSrefRead self.new drawn.new profile piece (record_of kind d payload.now) result }
    {
        let reference = place_once(alloc, &mut self.placing, payload)?;
        *drawn = Some(Drawn::Reference(reference));
        Ok(())
    }
}

/// The reference to the cell at one point.
fn place_once(
    alloc: Global,
    placing: &mut Placing,
    payload: &[u8],
) -> Result<Reference, Cause<ElementFault>>
    ensures value { IfOk result (λ r. r ≡ record {
      cell = placing.old.name.items;
      flip = placing.old.flip;
      turn = placing.old.turn;
      at = nth (points payload.now) 0;
      shifts = one_place;
    }) }
    ensures allowed { OnOk result (length (points payload.now) ≡ 1) }
    ensures refused { IfErr result
        (λ e. Says e (Broken (λ k. (k ≡ ElementRule.Points) × (length (points payload.now) ≢ 1)))) }
{
    if point_count(payload) != 1 {
        return Err(breach(ElementRule::Points));
    }
    let at = point_at(payload, 0);
    let name = Name::new(mem::replace(&mut placing.name, Vec::new(alloc)))?;
    Ok(Reference::new(name, placing.flip, placing.turn, at, Offsets::single()).unwrap())
}
