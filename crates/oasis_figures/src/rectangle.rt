//! RECTANGLE: two of its corners.
ghost use Rattle.std.specs.Prelude.{◌≡◌, Some, List, IfOk, IfErr, if◌then◌else◌, is_some};
ghost use Rattle.std.specs.Option.{option_or};
ghost use Rattle.oasis_figures.specs.Modal.{listed};
ghost use Rattle.lvl_profile.specs.declared.ignore.Ignore.{Ignore as Ignored};
ghost use Rattle.oasis_records.specs.declared.record.Record.{Record as ARecord};
ghost use Rattle.oasis_figures.specs.Keeping.{StandsFor};
ghost use Rattle.oasis_figures.specs.Rules.{Breaches};
ghost use Rattle.oasis_figures.specs.inside.Rectangles.{a_rectangle, IsResolved};
ghost use Rattle.oasis_figures.specs.inside.Taking.{Takes};

use crate::drawn::DrawnRecord;
use crate::layer::layer_of;
use crate::modal::Modal;
use crate::position::moved;
use crate::repetition::{after, is_known};
use crate::rule::FigureRule;
use crate::variable::Variable;
use lvl_grid::Point;
use lvl_names::Layer;
use lvl_refusal::Cause;
use oasis_records::Rectangle;
use oasis_values::Repetition;

/// A rectangle whose values are known.
#[derive(Clone, Copy)]
pub(crate) struct Resolved {
    layer: u64,
    datatype: u64,
    width: u64,
    height: u64,
    on: Layer,
    low: Point,
    high: Point,
}

/// The height of a rectangle of this width; `None` if the record doesn't give it.
fn height_of(rectangle: &Rectangle, width: u64) -> Option<u64>
    ensures { result ≡ (if rectangle.now.is_square then Some width else rectangle.now.height) }
{
    if rectangle.is_square {
        return Some(width);
    }
    rectangle.height
}

impl Modal {
    /// The values of a rectangle, unless it breaches a rule.
    #[inline(always)]
    fn resolve_rectangle(&self, rectangle: &Rectangle) -> Result<Resolved, FigureRule>
        ensures ok { IfOk result (λ v. (earlier : List ARecord) → StandsFor self.now earlier
            → IsResolved earlier rectangle.now v) }
        ensures err { IfErr result (λ rule. (ignore : Ignored) (earlier : List ARecord) → StandsFor self.now earlier
            → Breaches ignore earlier (a_rectangle rectangle.now) rule) }
    {
        let Some(layer) = rectangle.on.layer.or(self.layer) else {
            return Err(FigureRule::Undefined(Variable::Layer));
        };
        let Some(datatype) = rectangle.on.datatype.or(self.datatype) else {
            return Err(FigureRule::Undefined(Variable::Datatype));
        };
        let Some(width) = rectangle.width.or(self.width) else {
            return Err(FigureRule::Undefined(Variable::GeometryW));
        };
        let Some(height) = height_of(rectangle, width).or(self.height) else {
            return Err(FigureRule::Undefined(Variable::GeometryH));
        };
        let position = &rectangle.position;
        if !is_known(&position.repetition, &self.repetition) {
            return Err(FigureRule::Undefined(Variable::Repetition));
        }
        let Some(on) = layer_of(layer, datatype) else {
            return Err(FigureRule::Layer);
        };
        let Some(low) = moved(self.geometry, position.x, position.y, self.is_relative) else {
            return Err(FigureRule::OutOfRange);
        };
        let Some(high) = low.offset(width, height) else {
            return Err(FigureRule::OutOfRange);
        };
        Ok(Resolved {
            layer,
            datatype,
            width,
            height,
            on,
            low,
            high,
        })
    }

    /// Takes a RECTANGLE. Its repetition is moved into the modal variable.
    #[inline(always)]
    pub(crate) fn take_rectangle(
        &mut self,
        rectangle: &mut Rectangle,
    ) -> Result<Option<DrawnRecord>, Cause<FigureRule>>
        ensures { (ignore : Ignored) → Takes ignore self.old (a_rectangle rectangle.old) result self.new }
    {
        let values = self.resolve_rectangle(rectangle)?;
        self.geometry = values.low;
        self.layer = Some(values.layer);
        self.datatype = Some(values.datatype);
        self.width = Some(values.width);
        self.height = Some(values.height);
        self.repeat(&mut rectangle.position.repetition);
        Ok(Some(DrawnRecord::Rectangle(values.on, values.low, values.high)))
    }

    // Moves the repetition of a record into the modal variable. Mostly there is none.
    #[inline(always)]
    pub(crate) fn repeat(&mut self, repetition: &mut Option<Repetition>)
        ensures { self.new ≡ record self.old {
          is_repeated = is_some repetition.old;
          repetition = option_or (listed repetition.old) self.old.repetition;
        } }
    {
        self.is_repeated = repetition.is_some();
        if self.is_repeated {
            self.keep(repetition.take());
        }
    }

    // Keeps the shifts of a repetition, if it has its own.
    #[inline(never)]
    fn keep(&mut self, repetition: Option<Repetition>)
        ensures { self.new ≡ record self.old { repetition = option_or (listed repetition) self.old.repetition } }
    {
        self.repetition = after(repetition, self.repetition.take());
    }
}
