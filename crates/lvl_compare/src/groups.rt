//! Groups of consecutive Layers, which are compared one group after another.
ghost use Rattle.std.specs.Prelude.{◌≡◌, filter, true, false, IfOk, Some};
ghost use Rattle.lvl_names.specs.declared.layer.Layer.{Layer as PlainLayer};
ghost use Rattle.lvl_view.specs.Views.{target_of};
ghost use Rattle.lvl_compare.specs.Flats.{IsLesser};
ghost use Rattle.lvl_compare.specs.inside.Groups.{AreListed, AreNotBefore, NoneBefore, is_before, is_of_span};

use crate::flats::lesser;
use crate::pair::Pair;
use lvl_names::{Layer, comes_before, in_order};
use lvl_view::View;
use std::alloc::{AllocError, Global};

/// The number of Layers of a group, unless there would be too many groups. A group takes some
/// hundred bytes for each of its Layers while it is compared.
const GROUP: usize = 65_536;

/// The greatest number of groups. Each of them walks through both layouts, and looks for the Layer of each shape.
const MOST_GROUPS: usize = 12;

/// Consecutive Layers: those after a Layer, if it is given, up to another, if that is given.
#[derive(Clone, Copy)]
pub(crate) struct Span {
    pub after: Option<Layer>,
    pub last: Option<Layer>,
}

/// The Layers of two layouts that count as Layers of a span, each list in order.
#[derive(Drop)]
pub(crate) struct Group {
    pub span: Span,
    pub ours: Vec<Layer>,
    pub theirs: Vec<Layer>,
}

/// Whether the first Layer comes before the second.
fn precedes(first: Layer, second: Layer) -> bool
    ensures { result ≡ is_before first second }
{
    comes_before(first, second)
}

impl Span {
    /// Whether the Layer is one of the span.
    fn has(self, layer: Layer) -> bool
        ensures { result ≡ is_of_span self layer }
    {
        let is_after = match self.after {
            Some(other) => precedes(other, layer),
            None => true,
        };
        let is_until = match self.last {
            Some(other) => !precedes(other, layer),
            None => true,
        };
        is_after && is_until
    }

    /// How many points are expected of the span, if nothing is known of them. Those of a part of all Layers are
    /// expected to be few, so that they are drawn before all shapes are looked at.
    pub(crate) fn least_size(self) -> u64 {
        if self.after.is_some() || self.last.is_some() {
            return 0;
        }
        u64::MAX
    }

    /// The Layers of the span that don't come after this one.
    pub(crate) fn up_to(self, layer: Layer) -> Span
        ensures after { result.after ≡ self.after }
        ensures last { IsLesser self.last (Some layer) result.last }
    {
        Span {
            after: self.after,
            last: lesser(self.last, Some(layer)),
        }
    }
}

/// The Layers that count as Layers of the span under the view.
fn layers_in(
    alloc: Global,
    layers: &[Layer],
    view: &View,
    span: Span,
) -> Result<Vec<Layer>, AllocError>
    ensures { IfOk result (λ kept.
        kept.items ≡ filter (λ l. is_of_span span (target_of view.now.pairs l)) layers.now) }
{
    let mut kept = Vec::new(alloc);
    for layer in layers {
        if span.has(view.target(*layer)) {
            kept.push(*layer)?;
        }
    }
    Ok(kept)
}

/// Whether one of the Layers counts as a Layer before this one under the view.
fn some_before(layers: &[Layer], view: &View, layer: Layer) -> bool
    ensures { result ≡ false → AreNotBefore view.now.pairs layer layers.now }
{
    for other in layers {
        if comes_before(view.target(*other), layer) {
            return true;
        }
    }
    false
}

impl Group {
    /// All Layers of both layouts.
    pub(crate) fn whole(alloc: Global, pair: &Pair<'_>) -> Result<Group, AllocError>
        ensures every { IfOk result (λ group. (layer : PlainLayer) → is_of_span group.span layer ≡ true) }
        ensures listed { IfOk result (AreListed pair.now) }
    {
        Ok(Group {
            span: Span {
                after: None,
                last: None,
            },
            ours: pair.first.layers(alloc)?,
            theirs: pair.second.layers(alloc)?,
        })
    }

    /// Those of the Layers that count as Layers of a part of the span.
    pub(crate) fn part(
        &self,
        alloc: Global,
        pair: &Pair<'_>,
        span: Span,
    ) -> Result<Group, AllocError>
        requires within { (layer : PlainLayer) → is_of_span span layer ≡ true → is_of_span self.now.span layer ≡ true }
        requires listed { AreListed pair.now self.now }
        ensures span { IfOk result (λ part. part.span ≡ span) }
        ensures listed { IfOk result (AreListed pair.now) }
    {
        let unmapped = View::whole(alloc);
        let ours = layers_in(alloc, &self.ours, &unmapped, span)?;
        let theirs = layers_in(alloc, &self.theirs, pair.view, span)?;
        Ok(Group { span, ours, theirs })
    }

    /// Whether a Layer of the group counts as a Layer before this one.
    pub(crate) fn has_before(&self, alloc: Global, view: &View, layer: Layer) -> bool
        ensures { result ≡ false → NoneBefore view.now.pairs self.now layer }
    {
        let unmapped = View::whole(alloc);
        some_before(&self.ours, &unmapped, layer) || some_before(&self.theirs, view, layer)
    }

    /// The last Layers of all groups but the last one, in order: there are so many groups that each
    /// has at most 65,536 Layers, but at most twelve.
    pub(crate) fn ends(&self, alloc: Global, view: &View) -> Result<Vec<Layer>, AllocError> {
        let mut ends = Vec::new(alloc);
        let most = self.ours.len().saturating_add(self.theirs.len());
        if most <= GROUP {
            return Ok(ends);
        }
        let layers = self.targets(alloc, view)?;
        let size = GROUP.max(layers.len().div_ceil(MOST_GROUPS));
        for index in 1..layers.len() {
            if index.checked_rem(size) == Some(0) {
                ends.push(layers[index - 1])?;
            }
        }
        Ok(ends)
    }

    /// The Layers that the Layers of both layouts count as, in order.
    pub(crate) fn targets(&self, alloc: Global, view: &View) -> Result<Vec<Layer>, AllocError> {
        let most = self.ours.len().saturating_add(self.theirs.len());
        let mut targets = Vec::with_capacity(alloc, most)?;
        for layer in &self.ours {
            targets.push(*layer)?;
        }
        for layer in &self.theirs {
            targets.push(view.target(*layer))?;
        }
        in_order(targets)
    }
}
