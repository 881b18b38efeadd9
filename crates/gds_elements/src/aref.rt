//! AREF SNAME [STRANS [MAG] [ANGLE]] COLROW XY ENDEL: a reference to a cell at columns and rows of
//! places.
ghost use Rattle.std.specs.Prelude.{◌≡◌, ◌∷◌, ◌≢◌, [], false, ◌≤◌, ◌<◌, ◌<ℤ◌, ◌-ℤ◌, pos, List, ℕ, Some, None, IfOk};
ghost use Rattle.std.specs.Prelude.{IfErr, IfSome, IfNone, OnOk, length, FitsSigned};
ghost use Rattle.std.specs.Int.{w32};
ghost use Rattle.std.specs.Int.RustNames.{int_div, int_rem};
ghost use Rattle.gds_elements.specs.Types.{aref, colrow, xy, endel};
ghost use Rattle.lvl_grammar.specs.Order.{one};
ghost use Rattle.lvl_profile.specs.declared.profile.Profile.{Profile as PlainProfile};
ghost use Rattle.gds_elements.specs.Values.{points, nth, IsNarrow};
ghost use Rattle.gds_elements.specs.Rec.{Rec};
ghost use Rattle.gds_elements.specs.Meaning.{array_shifts, step};
ghost use Rattle.gds_elements.specs.Rules.{HasSteps, IsDivided};
ghost use Rattle.lvl_grammar.specs.inside.After.{after_first};
ghost use Rattle.gds_elements.specs.inside.Left.{left_after, EndsBy};
ghost use Rattle.gds_elements.specs.inside.Formed.{IsFormed};
ghost use Rattle.gds_elements.specs.inside.Aref.{left, IsArefRead, IsArrayFault};
ghost use Rattle.gds_elements.specs.inside.Reading.{Takes, record_of};
ghost use Rattle.lvl_refusal.specs.Refused.{Says};
ghost use Rattle.gds_elements.specs.inside.Misplaced.{Broken, breach};

use crate::counts::{Counts, read_counts};
use crate::element::Drawn;
use crate::fault::{ElementFault, ElementRule, breach};
use crate::order::{Next, only, out_of_order};
use crate::placing::Placing;
use crate::values::{point_at, point_count};
use gds_records::record_type;
use lvl_cells::Reference;
use lvl_grid::Point;
use lvl_names::{Name, Offsets};
use lvl_profile::Profile;
use lvl_refusal::Cause;
use std::alloc::Global;
use std::mem;

/// Which record comes next. If several may, the first of them gives the name.
#[derive(Clone, Copy)]
pub(crate) enum ArefStage {
    Name,
    Strans,
    Magnification,
    Angle,
    Columns,
    Points,
}

impl ArefStage {
    /// What a record of this type leads to, if it comes next.
    fn after(self, kind: u8) -> Next<ArefStage>
        ensures order { after_first (left self) kind ≡ left_after left result }
        ensures last { EndsBy xy kind result }
    {
        match self {
            ArefStage::Name => only(kind, record_type::SNAME, Next::Goes(ArefStage::Strans)),
            ArefStage::Strans => match kind {
                record_type::STRANS => Next::Goes(ArefStage::Magnification),
                _ => only(kind, record_type::COLROW, Next::Goes(ArefStage::Points)),
            },
            ArefStage::Magnification => match kind {
                record_type::MAG => Next::Goes(ArefStage::Angle),
                record_type::ANGLE => Next::Goes(ArefStage::Columns),
                _ => only(kind, record_type::COLROW, Next::Goes(ArefStage::Points)),
            },
            ArefStage::Angle => match kind {
                record_type::ANGLE => Next::Goes(ArefStage::Columns),
                _ => only(kind, record_type::COLROW, Next::Goes(ArefStage::Points)),
            },
            ArefStage::Columns => only(kind, record_type::COLROW, Next::Goes(ArefStage::Points)),
            ArefStage::Points => only(kind, record_type::XY, Next::Ends),
        }
    }
}

/// The state of an array that is being read.
#[derive(Drop)]
pub(crate) struct Aref {
    stage: ArefStage,
    placing: Placing,
    counts: Counts,
}

impl Aref {
    /// The state after the AREF record.
    pub(crate) fn open(alloc: Global) -> Aref
        ensures { (r : Rec) → r.kind ≡ aref → IsArefRead result (r ∷ []) }
    {
        Aref {
            stage: ArefStage::Name,
            placing: Placing::new(alloc),
            counts: Counts {
                columns: 1,
                rows: 1,
            },
        }
    }

    /// Takes the next record, unless it breaches a rule. `drawn` becomes what is drawn, once only ENDEL is missing.
    pub(crate) fn take(
        &mut self,
        alloc: Global,
        profile: Profile,
        kind: u8,
        payload: &[u8],
        drawn: &mut Option<Drawn>,
    ) -> Result<(), Cause<ElementFault>>
        requires formed { IsFormed kind payload.now }
        requires none { drawn.old ≡ None }
        ensures { (piece : List Rec) (d : ℕ) → IsArefRead self.old piece
            → Takes IsArefRead self.new drawn.new profile piece (record_of kind d payload.now) result }
    {
        match self.stage.after(kind) {
            Next::Goes(stage) => {
                self.placing.read(alloc, kind, payload)?;
                self.counts = read_counts(self.counts, profile.limits, kind, payload)?;
                self.stage = stage;
                Ok(())
            }
            Next::Ends => self.draw(alloc, payload, drawn),
            Next::Nowhere => Err(out_of_order(kind)),
        }
    }

    // Takes the XY, which may come next.
    fn draw(
        &mut self,
        alloc: Global,
        payload: &[u8],
        drawn: &mut Option<Drawn>,
    ) -> Result<(), Cause<ElementFault>>
        ensures { (profile : PlainProfile) (piece : List Rec) (kind d : ℕ) → IsArefRead self.old piece → kind ≡ xy
            → after_first (left self.old.stage) kind ≡ one endel ∷ []
            → Takes IsArefRead self.new drawn.new profile piece (record_of kind d payload.now) result }
    {
        let reference = place_all(alloc, &mut self.placing, self.counts, payload)?;
        *drawn = Some(Drawn::Reference(reference));
        Ok(())
    }
}

/// The reference to the cell at all places of the array. `payload` has its three points.
fn place_all(
    alloc: Global,
    placing: &mut Placing,
    counts: Counts,
    payload: &[u8],
) -> Result<Reference, Cause<ElementFault>>
    ensures value { IfOk result (λ r. r ≡ record {
      cell = placing.old.name.items;
      flip = placing.old.flip;
      turn = placing.old.turn;
      at = nth (points payload.now) 0;
      shifts = array_shifts (points payload.now) counts.columns counts.rows;
    }) }
    ensures allowed { OnOk result
        ((length (points payload.now) ≡ 3) × HasSteps (points payload.now) counts.columns counts.rows) }
    ensures refused { IfErr result
        (λ e. Says e (Broken (IsArrayFault (points payload.now) counts.columns counts.rows))) }
{
    if point_count(payload) != 3 {
        return Err(breach(ElementRule::Points));
    }
    let origin = point_at(payload, 0);
    let across = step(origin, point_at(payload, 1), counts.columns)?;
    let up = step(origin, point_at(payload, 2), counts.rows)?;
    let shifts = Offsets::lattice(across, counts.columns, up, counts.rows).unwrap();
    let name = Name::new(mem::replace(&mut placing.name, Vec::new(alloc)))?;
    Ok(Reference::new(name, placing.flip, placing.turn, origin, shifts).unwrap())
}

/// The step from one point to another, divided by `count`; refused if it isn't whole.
fn step(from: Point, to: Point, count: u64) -> Result<Point, Cause<ElementFault>>
    requires from { IsNarrow from }
    requires to { IsNarrow to }
    requires count { 0 < count }
    requires few { count < 32768 }
    ensures value { IfOk result (λ p. (p ≡ step from to count) × IsDivided from to count) }
    ensures refused { IfErr result (λ e. (e ≡ breach ElementRule.ArrayStep) × ¬ IsDivided from to count) }
{
    let x = step_along(from.x, to.x, count)?;
    let y = step_along(from.y, to.y, count)?;
    Ok(Point { x, y })
}

/// The step along one axis, divided by `count`; refused if it isn't whole.
fn step_along(from: i64, to: i64, count: u64) -> Result<i64, Cause<ElementFault>>
    requires from { FitsSigned w32 from }
    requires to { FitsSigned w32 to }
    requires count { 0 < count }
    requires few { count < 32768 }
    ensures value { IfOk result (λ n. (n ≡ int_div (to -ℤ from) (pos count))
        × (int_rem (to -ℤ from) (pos count) ≡ pos 0)) }
    ensures refused { IfErr result (λ e. (e ≡ breach ElementRule.ArrayStep)
        × (int_rem (to -ℤ from) (pos count) ≢ pos 0)) }
{
    divided(to - from, count as i64)
}

/// The quotient; refused if there is a remainder.
fn divided(distance: i64, count: i64) -> Result<i64, Cause<ElementFault>>
    requires { pos 0 <ℤ count }
    ensures value { IfOk result (λ n. (n ≡ int_div distance count) × (int_rem distance count ≡ pos 0)) }
    ensures refused { IfErr result (λ e. (e ≡ breach ElementRule.ArrayStep) × (int_rem distance count ≢ pos 0)) }
{
    if distance % count != 0 {
        return Err(breach(ElementRule::ArrayStep));
    }
    Ok(distance / count)
}
