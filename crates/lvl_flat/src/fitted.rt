//! Libraries whose top places nothing outside 64 bits.
ghost use Rattle.std.specs.Prelude.{◌≡◌, AllPairs, Contains, IfOk, IfErr, IfSome};
ghost use Rattle.lvl_grid.specs.declared.point.Square.{Square as GridSquare};
ghost use Rattle.lvl_grid.specs.declared.point.Window.{Window as GridWindow};
ghost use Rattle.lvl_grid.specs.Clip.{IsInWindow};
ghost use Rattle.lvl_names.specs.declared.layer.Layer.{Layer as PlainLayer};
ghost use Rattle.lvl_names.specs.Layers.{ComesBefore};
ghost use Rattle.lvl_flat.specs.Candidates.{AreCandidates};
ghost use Rattle.lvl_flat.specs.Flattened.{CoversAt, IsFlattenedWithin, IsFlatFault, IsTopInRange, TopCovers};
ghost use Rattle.lvl_refusal.specs.Refused.{Says};

use crate::boxes::Boxes;
use crate::candidates::{Candidates, Part, narrowed, sampled};
use crate::estimate::{Count, Estimate, Measures};
use crate::fault::{FlatFault, OverBudget};
use crate::flat::Flat;
use crate::indexes::Indexes;
use crate::layers::{empty_sheets, layers_of};
use crate::room::Room;
use crate::selected::draw_candidates;
use crate::windowed::check_range;
use lvl_cells::Checked;
use lvl_grid::Window;
use lvl_names::Layer;
use lvl_refusal::Cause;
use std::alloc::{AllocError, Global};
use std::marker::Model;

/// A checked library whose top places nothing outside 64 signed bits, with the box of each of its
/// cells. Some of its Layers can be flattened in a window.
#[derive(Debug, Drop)]
pub struct Fitted {
    checked: Checked,
    boxes: Boxes,
    measures: Measures,
}

impl Model for Fitted {
    ghost use Rattle.lvl_cells.specs.Checks.{Settled};
    ghost use Rattle.lvl_flat.specs.inside.Kept.{IsFitted};

    ghost Value = { Settled };

    ghost view = { λ f. f.checked };

    ghost invariant = { λ f. IsFitted f.checked f.boxes };
}

impl Fitted {
    /// Computes the boxes of the cells. Refuses a library exactly if [`flatten`](crate::flatten)
    /// does: if the shift of a chain of references, or a vertex that it places, is outside 64
    /// signed bits (own rule).
    pub fn new(alloc: Global, checked: Checked) -> Result<Fitted, Cause<FlatFault>>
        ensures ok { IfOk result (λ fitted. fitted ≡ checked) }
        ensures in_range { IfOk result IsTopInRange }
        ensures err { IfErr result (λ refusal. Says refusal (IsFlatFault checked)) }
    {
        let boxes = Boxes::new(alloc, &checked)?;
        check_range(alloc, &checked, &boxes)?;
        let measures = Measures::new(alloc, &checked)?;
        Ok(Fitted {
            checked,
            boxes,
            measures,
        })
    }

    /// The same library with the cell at an index as its top. Cells and boxes aren't copied. None if there is
    /// no such cell, if its box may leave 64 signed bits, or if it places more than the limits for whole chips
    /// allow.
    pub fn rooted(&self, alloc: Global, cell: usize) -> Result<Option<Fitted>, AllocError>
        ensures { IfOk result (λ found. IfSome found (λ rooted.
            rooted ≡ record { cells = self.now.cells; top = cell; order = self.now.order })) }
    {
        let Some(checked) = self.checked.rooted(alloc, cell)? else {
            return Ok(None);
        };
        let boxes = self.boxes.shared()?;
        if !boxes.hold_top(&checked) {
            return Ok(None);
        }
        let measures = self.measures.shared()?;
        Ok(Some(Fitted {
            checked,
            boxes,
            measures,
        }))
    }

    /// The library.
    pub fn checked(&self) -> &Checked
        ensures library { result.now ≡ self.now }
        ensures in_range { IsTopInRange self.now }
    {
        &self.checked
    }

    /// A window that has every square that the top covers.
    pub fn extent(&self) -> Window
        ensures { (layer : PlainLayer) (s : GridSquare) → TopCovers self.now layer s → IsInWindow result s }
    {
        self.boxes.extent(&self.checked)
    }

    /// A window that has every square that the cell at index `cell` covers, through all references,
    /// in the coordinates of that cell. None if there is no such cell, or if its box may leave 64
    /// signed bits.
    pub fn extent_of(&self, cell: usize) -> Option<Window>
        ensures { IfSome result (λ window. (layer : PlainLayer) (s : GridSquare)
            → CoversAt self.now.cells cell layer s → IsInWindow window s) }
    {
        self.boxes.extent_of(&self.checked, cell)
    }

    /// The Layers of all shapes of all cells, in their order, without duplicates. The top draws on
    /// no others.
    pub fn layers(&self, alloc: Global) -> Result<Vec<Layer>, AllocError>
        ensures rising { IfOk result (λ layers. AllPairs ComesBefore layers.items) }
        ensures all { IfOk result (λ layers. (layer : PlainLayer) (s : GridSquare)
            → TopCovers self.now layer s → Contains layers.items layer) }
    {
        layers_of(alloc, self.checked.cells())
    }

    /// The rings that the top places on each Layer of a list, clipped to a window.
    ///
    /// On each of these Layers the rings together cover exactly the squares of the window that the
    /// top covers there through all references. The Layers must be in their order, without
    /// duplicates. Only what is drawn on them in the window takes memory. If the rings would have
    /// more than `most` points, those that lie over one another are joined; if that doesn't halve
    /// them, that is over the budget.
    pub fn within(
        &self,
        alloc: Global,
        layers: &[Layer],
        window: &Window,
        most: usize,
    ) -> Result<Flat, Cause<OverBudget>>
        requires { AllPairs ComesBefore layers.now }
        ensures { IfOk result (IsFlattenedWithin self.now layers.now window.now) }
    {
        self.within_of(alloc, &self.candidates(), layers, window, most)
    }

    /// All own shapes and references of the top. They are candidates for any window.
    pub fn candidates(&self) -> Candidates
        ensures { (window : GridWindow) → AreCandidates self.now window result }
    {
        let top = self.checked.cell(self.checked.top());
        Candidates {
            shapes: Indexes::below(top.shapes.len()),
            references: Indexes::below(top.references.len()),
        }
    }

    /// Those of the candidates for a window that may cover squares of it, without others whose boxes
    /// show that they don't, with an estimate of their points in the window. A list of 4 bytes for
    /// each is made.
    pub fn narrowed(
        &self,
        alloc: Global,
        candidates: &Candidates,
        window: &Window,
    ) -> Result<(Candidates, Estimate), AllocError>
        requires { AreCandidates self.now window.now candidates.now }
        ensures { IfOk result (λ narrowed. AreCandidates self.now window.now narrowed.0) }
    {
        let mut count = Count::new(window);
        let shapes = narrowed(
            alloc,
            &self.checked,
            &self.boxes,
            &self.measures,
            Part::Shape,
            &candidates.shapes,
            window,
            &mut count,
        )?;
        let references = narrowed(
            alloc,
            &self.checked,
            &self.boxes,
            &self.measures,
            Part::Reference,
            &candidates.references,
            window,
            &mut count,
        )?;
        Ok((Candidates { shapes, references }, count.estimate()))
    }

    /// The estimate of [`Fitted::narrowed`] alone, by a sample of the candidates if they are many.
    pub fn sampled(&self, candidates: &Candidates, window: &Window) -> Estimate {
        let mut count = Count::new(window);
        sampled(
            &self.checked,
            &self.boxes,
            &self.measures,
            Part::Shape,
            &candidates.shapes,
            window,
            &mut count,
        );
        sampled(
            &self.checked,
            &self.boxes,
            &self.measures,
            Part::Reference,
            &candidates.references,
            window,
            &mut count,
        );
        count.estimate()
    }

    /// What [`Fitted::within`] returns, found from candidates for the window: only these own shapes
    /// and references of the top are looked at.
    pub fn within_of(
        &self,
        alloc: Global,
        candidates: &Candidates,
        layers: &[Layer],
        window: &Window,
        most: usize,
    ) -> Result<Flat, Cause<OverBudget>>
        requires rising { AllPairs ComesBefore layers.now }
        requires candidates { AreCandidates self.now window.now candidates.now }
        ensures { IfOk result (IsFlattenedWithin self.now layers.now window.now) }
    {
        let mut room = Room::of(alloc, most);
        let sheets = empty_sheets(alloc, layers)?;
        let (checked, boxes) = (&self.checked, &self.boxes);
        match draw_candidates(&mut room, checked, boxes, candidates, sheets, window) {
            Ok(flat) => Ok(flat),
            Err(_) => Err(room.cause()),
        }
    }
}
