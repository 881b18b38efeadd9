//! Modal variables: what the records of a cell set for later ones.
ghost use Rattle.std.specs.Prelude.{◌≡◌, ◌∷◌, [], List, IfOk, IfErr, OnOk, OnErr};
ghost use Rattle.std.specs.Option.{option_copied};
ghost use Rattle.lvl_refusal.specs.Refused.{Says};
ghost use Rattle.lvl_profile.specs.declared.ignore.Ignore.{Ignore as Ignored};
ghost use Rattle.oasis_records.specs.declared.record.Record.{Record as ARecord};
ghost use Rattle.oasis_figures.specs.Figures.{shifts_of, IsDrawn, PlacesFit};
ghost use Rattle.oasis_figures.specs.Keeping.{StandsFor};
ghost use Rattle.oasis_figures.specs.Modal.{modal, cell_set};
ghost use Rattle.oasis_figures.specs.Rules.{Breaches, BreachesNone};
ghost use Rattle.oasis_figures.specs.inside.Taking.{mode, IsOther, Takes};

use crate::drawn::DrawnRecord;
use crate::rule::FigureRule;
use lvl_grid::Point;
use lvl_names::Offsets;
use lvl_profile::Ignore;
use lvl_refusal::Cause;
use oasis_records::{CellRef, Record};
use std::alloc::Global;
use std::mem;

/// The modal variables, with the values that the records since CELL have set (SEMI P39, "Modal
/// variables").
#[derive(Debug, Drop)]
pub struct Modal {
    pub(crate) is_relative: bool,
    pub(crate) placement: Point,
    pub(crate) geometry: Point,
    pub(crate) cell: Option<CellRef>,
    pub(crate) layer: Option<u64>,
    pub(crate) datatype: Option<u64>,
    pub(crate) width: Option<u64>,
    pub(crate) height: Option<u64>,
    pub(crate) polygon: Option<Vec<Point>>,
    pub(crate) half_width: Option<u64>,
    pub(crate) path: Option<Vec<Point>>,
    pub(crate) start: Option<u64>,
    pub(crate) end: Option<u64>,
    pub(crate) repetition: Option<Offsets>,
    /// Whether the last record has a repetition.
    pub(crate) is_repeated: bool,
    /// Only the zero shift.
    pub(crate) single: Offsets,
}

impl Modal {
    /// The variables after CELL.
    pub fn new() -> Modal
        ensures { StandsFor result [] }
    {
        let origin = Point { x: 0, y: 0 };
        Modal {
            is_relative: false,
            placement: origin,
            geometry: origin,
            cell: None,
            layer: None,
            datatype: None,
            width: None,
            height: None,
            polygon: None,
            half_width: None,
            path: None,
            start: None,
            end: None,
            repetition: None,
            is_repeated: false,
            single: Offsets::single(),
        }
    }

    /// Takes the next record after CELL, and returns what it draws, in grid steps, at each of
    /// [`Modal::shifts`]; `None` if it draws nothing (SEMI P39, "Modal variables", and the section of each
    /// record). Its lists are moved into the variables; what is left in `next` means nothing.
    ///
    /// If the record breaches a [`FigureRule`], the first of them in their order is returned. After that,
    /// and after a failed allocation, the variables are as they were. If points of paths that equal the one
    /// before are ignored, the rules of paths are asked without them.
    pub fn take(
        &mut self,
        alloc: Global,
        ignore: Ignore,
        next: &mut Record,
    ) -> Result<Option<DrawnRecord>, Cause<FigureRule>>
        ensures drawn { IfOk result (λ drawn. (earlier : List ARecord) → StandsFor self.old earlier
            → IsDrawn earlier next.old drawn) }
        ensures places { IfOk result (λ drawn. (earlier : List ARecord) → StandsFor self.old earlier
            → PlacesFit (shifts_of earlier next.old) drawn) }
        ensures kept { OnOk result ((earlier : List ARecord) → StandsFor self.old earlier
            → StandsFor self.new (next.old ∷ earlier)) }
        ensures none { OnOk result ((earlier : List ARecord) → StandsFor self.old earlier
            → BreachesNone ignore earlier next.old) }
        ensures refused { IfErr result (λ e. Says e (λ rule. (earlier : List ARecord) → StandsFor self.old earlier
            → Breaches ignore earlier next.old rule)) }
        ensures same { OnErr result (self.new ≡ self.old) }
    {
        match next {
            Record::Rectangle(rectangle) => self.take_rectangle(rectangle),
            Record::Placement(placement) => self.take_placement(placement),
            _ => self.take_moved(alloc, ignore, mem::replace(next, Record::Pad)),
        }
    }

    // Takes the next record, which was moved.
    #[inline(never)]
    fn take_moved(
        &mut self,
        alloc: Global,
        ignore: Ignore,
        next: Record,
    ) -> Result<Option<DrawnRecord>, Cause<FigureRule>>
        ensures { Takes ignore self.old next result self.new }
    {
        match next {
            Record::Rectangle(mut rectangle) => self.take_rectangle(&mut rectangle),
            Record::Polygon(polygon) => self.take_polygon(alloc, polygon),
            Record::Path(path) => self.take_path(alloc, ignore, path),
            Record::Placement(mut placement) => self.take_placement(&mut placement),
            Record::Text(repetition) => self.take_text(repetition),
            Record::XyAbsolute => self.take_mode(false),
            Record::XyRelative => self.take_mode(true),
            other => self.take_other(other),
        }
    }

    /// The shifts at which the last record is drawn, in grid steps: those of its repetition, or only the
    /// zero shift. The shifts of the modal repetition aren't copied.
    pub fn shifts(&self) -> &Offsets
        ensures { (r : ARecord) (earlier : List ARecord) → StandsFor self.now (r ∷ earlier)
            → result.now ≡ shifts_of earlier r }
    {
        match (&self.repetition, self.is_repeated) {
            (Some(shifts), true) => shifts,
            _ => &self.single,
        }
    }

    /// The cell of the latest PLACEMENT; `None` if no PLACEMENT since CELL has named one.
    pub fn cell(&self) -> Option<&CellRef>
        ensures { (records : List ARecord) → StandsFor self.now records
            → option_copied result ≡ modal cell_set records }
    {
        self.cell.as_ref()
    }

    /// Takes an XYRELATIVE or an XYABSOLUTE: from now on a coordinate is added to the one before it, or
    /// replaces it.
    fn take_mode(&mut self, is_relative: bool) -> Result<Option<DrawnRecord>, Cause<FigureRule>>
        ensures { (ignore : Ignored) → Takes ignore self.old (mode is_relative) result self.new }
    {
        self.is_relative = is_relative;
        self.is_repeated = false;
        Ok(None)
    }

    /// Takes a record that sets no variable.
    fn take_other(&mut self, next: Record) -> Result<Option<DrawnRecord>, Cause<FigureRule>>
        requires { IsOther next }
        ensures { (ignore : Ignored) → Takes ignore self.old next result self.new }
    {
        drop(next);
        self.is_repeated = false;
        Ok(None)
    }
}
