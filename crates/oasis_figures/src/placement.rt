//! PLACEMENT: a cell, turned by right angles.
ghost use Rattle.std.specs.Prelude.{◌≡◌, List, IfOk, IfErr};
ghost use Rattle.lvl_profile.specs.declared.ignore.Ignore.{Ignore as Ignored};
ghost use Rattle.oasis_records.specs.declared.record.Record.{Record as ARecord};
ghost use Rattle.oasis_figures.specs.Figures.{is_number, turn_by, turn_of, is_magnified};
ghost use Rattle.oasis_figures.specs.Keeping.{StandsFor};
ghost use Rattle.oasis_figures.specs.Rules.{Breaches};
ghost use Rattle.oasis_figures.specs.inside.Placements.{a_placement, IsResolved};
ghost use Rattle.oasis_figures.specs.inside.Taking.{Takes};

use crate::drawn::DrawnRecord;
use crate::modal::Modal;
use crate::position::moved;
use crate::repetition::{all_fit_at, is_known};
use crate::rule::FigureRule;
use crate::variable::Variable;
use lvl_grid::{Map, Turn};
use lvl_refusal::Cause;
use oasis_records::{Placement, Transform};
use oasis_values::Real;

/// Whether a real of type 0, 2 or 4 is this number.
fn is_number(number: u64, real: Real) -> bool
    ensures { result ≡ is_number number real }
{
    match real {
        Real::Whole(whole) => whole == number,
        Real::Reciprocal(denominator) => number.checked_mul(denominator) == Some(1),
        Real::Ratio(numerator, denominator) => number.checked_mul(denominator) == Some(numerator),
        _ => false,
    }
}

/// The turn by an angle in degrees; `None` if the angle isn't 0, 90, 180 or 270.
fn turn_by(angle: Real) -> Option<Turn>
    ensures { result ≡ turn_by angle }
{
    if is_number(0, angle) {
        return Some(Turn::R0);
    }
    if is_number(90, angle) {
        return Some(Turn::R90);
    }
    if is_number(180, angle) {
        return Some(Turn::R180);
    }
    if is_number(270, angle) {
        return Some(Turn::R270);
    }
    None
}

/// The turn of a placement; `None` if its angle isn't 0, 90, 180 or 270.
fn turn_of(transform: Transform) -> Option<Turn>
    ensures { result ≡ turn_of transform }
{
    match transform {
        Transform::Turned(turn) => Some(turn),
        Transform::Scaled { angle: None, .. } => Some(Turn::R0),
        Transform::Scaled {
            angle: Some(angle),
            ..
        } => turn_by(angle),
    }
}

/// Whether a placement has a magnification other than 1.
fn is_magnified(transform: Transform) -> bool
    ensures { result ≡ is_magnified transform }
{
    match transform {
        Transform::Scaled {
            magnification: Some(magnification),
            ..
        } => !is_number(1, magnification),
        _ => false,
    }
}

impl Modal {
    /// The map of a placement, unless it breaches a rule.
    fn resolve_placement(&self, placement: &Placement) -> Result<Map, FigureRule>
        ensures ok { IfOk result (λ by. (earlier : List ARecord) → StandsFor self.now earlier
            → IsResolved earlier placement.now by) }
        ensures err { IfErr result (λ rule. (ignore : Ignored) (earlier : List ARecord) → StandsFor self.now earlier
            → Breaches ignore earlier (a_placement placement.now) rule) }
    {
        if placement.cell.is_none() && self.cell.is_none() {
            return Err(FigureRule::Undefined(Variable::PlacementCell));
        }
        let position = &placement.position;
        if !is_known(&position.repetition, &self.repetition) {
            return Err(FigureRule::Undefined(Variable::Repetition));
        }
        let Some(at) = moved(self.placement, position.x, position.y, self.is_relative) else {
            return Err(FigureRule::OutOfRange);
        };
        if !all_fit_at(at, &position.repetition, &self.repetition) {
            return Err(FigureRule::OutOfRange);
        }
        if is_magnified(placement.transform) {
            return Err(FigureRule::Magnification);
        }
        let Some(turn) = turn_of(placement.transform) else {
            return Err(FigureRule::Angle);
        };
        Ok(Map {
            flip: placement.flip,
            turn,
            at,
        })
    }

    /// Takes a PLACEMENT. Its cell and its repetition are moved into the modal variables.
    pub(crate) fn take_placement(
        &mut self,
        placement: &mut Placement,
    ) -> Result<Option<DrawnRecord>, Cause<FigureRule>>
        ensures { (ignore : Ignored) → Takes ignore self.old (a_placement placement.old) result self.new }
    {
        let by = self.resolve_placement(placement)?;
        self.placement = by.at;
        if placement.cell.is_some() {
            self.cell = placement.cell.take();
        }
        self.repeat(&mut placement.position.repetition);
        Ok(Some(DrawnRecord::Placement(by)))
    }
}
