//! Views.
ghost use Rattle.std.specs.Prelude.{◌≡◌, ◌↔◌, IsTrue, IfOk, IfErr, Some, SomeIff, option_map, MatchOption, None};
ghost use Rattle.std.specs.Prelude.{[], false};
ghost use Rattle.std.specs.List.{IsDistinct};
ghost use Rattle.lvl_names.specs.Layers.{same_layer};
ghost use Rattle.lvl_view.specs.Views.{IsEmptyWindow, IsFaultOf, IsReadingOf, IsViewOf, PlainView, sources, target_of};
ghost use Rattle.lvl_view.specs.Views.{IsWhole, text_of};
ghost use Rattle.lvl_view.specs.inside.Reading.{AreTargets, IsTwiceFault};
ghost use Rattle.lvl_refusal.specs.Refused.{Says};

use crate::fault::ViewFault;
use crate::map::{LayerPair, pairs_of};
use crate::window::window_of;
use lvl_grid::Window;
use lvl_names::Layer;
use lvl_refusal::Cause;
use std::alloc::{AllocError, Global};
use std::collections::BTreeMap;
use std::marker::Model;

/// A map of layers and an optional window. All pairs of the map apply at once: what is on a source
/// counts as being on its target only. A Layer that isn't a source is its own target.
#[derive(Debug, Drop)]
pub struct View {
    pairs: Vec<LayerPair>,
    /// The target of each source.
    targets: BTreeMap<Layer, Layer>,
    window: Option<Window>,
}

impl Model for View {
    ghost use Rattle.lvl_view.specs.Views.{PlainView};
    ghost use Rattle.lvl_view.specs.inside.Reading.{AreTargets};

    ghost Value = { PlainView };

    ghost view = { λ v. record { pairs = v.pairs.items; window = v.window } };

    ghost invariant = { λ v. AreTargets v.pairs.items v.targets };
}

/// A map from each source to its target. Refuses with [`ViewFault::MapTwice`] and the first source
/// that an earlier pair has, if there is one.
fn targets_of(
    alloc: Global,
    pairs: &[LayerPair],
) -> Result<BTreeMap<Layer, Layer>, Cause<ViewFault>>
    ensures targets { IfOk result (AreTargets pairs.now) }
    ensures distinct { IfOk result (λ targets. IsDistinct same_layer (sources pairs.now)) }
    ensures err { IfErr result (λ refusal. Says refusal (IsTwiceFault pairs.now)) }
{
    let mut targets = BTreeMap::new(alloc);
    for pair in pairs {
        let earlier = targets.insert(pair.source, pair.target)?;
        if earlier.is_some() {
            return Err(Cause::Breach(ViewFault::MapTwice(pair.source)));
        }
    }
    Ok(targets)
}

/// Whether there is a window without squares.
fn is_empty(window: Option<Window>) -> bool
    ensures { IsTrue result ↔ IsEmptyWindow window }
{
    match window {
        Some(window) => window.x0 >= window.x1 || window.y0 >= window.y1,
        None => false,
    }
}

impl View {
    /// Reads a view from the text of a map and that of a window. If a text isn't given, the view
    /// has no map, or no window.
    ///
    /// A map is one or more pairs `L/D=L/D` joined by commas; each number has 1 to 10 decimal
    /// digits and is below 2^32. A window is `x=A..B,y=C..D`; each number has an optional minus and
    /// 1 to 19 decimal digits and fits in 64 signed bits (own rules). Sources are compared as
    /// numbers, so `1/0` and `01/0` are the same.
    pub fn read(
        alloc: Global,
        map: Option<&str>,
        window: Option<&str>,
    ) -> Result<View, Cause<ViewFault>>
        ensures view { IfOk result (IsViewOf (text_of map.entry) (text_of window.entry)) }
        ensures only { IfOk result (λ view. (other : PlainView)
            → IsReadingOf (text_of map.entry) (text_of window.entry) other → other ≡ view) }
        ensures err { IfErr result (λ refusal. Says refusal
            (IsFaultOf (text_of map.entry) (text_of window.entry))) }
    {
        let pairs = pairs_of(alloc, map)?;
        let window = match window_of(window) {
            Ok(window) => window,
            Err(fault) => return Err(Cause::Breach(fault)),
        };
        let targets = targets_of(alloc, &pairs)?;
        if is_empty(window) {
            return Err(Cause::Breach(ViewFault::EmptyWindow));
        }
        Ok(View {
            pairs,
            targets,
            window,
        })
    }

    /// A view without a map and without a window. Allocates nothing.
    pub fn whole(alloc: Global) -> View
        ensures { IsWhole result }
    {
        View {
            pairs: Vec::new(alloc),
            targets: BTreeMap::new(alloc),
            window: None,
        }
    }

    /// A view with the same map and without a window. Fails only if out of memory.
    pub fn everywhere(&self, alloc: Global) -> Result<View, AllocError>
        ensures pairs { IfOk result (λ view. view.pairs ≡ self.now.pairs) }
        ensures window { IfOk result (λ view. view.window ≡ None) }
    {
        let pairs = Vec::from_slice(alloc, &self.pairs)?;
        // the sources are those of this view, each of them once
        let Ok(targets) = targets_of(alloc, &pairs) else {
            return Err(AllocError);
        };
        Ok(View {
            pairs,
            targets,
            window: None,
        })
    }

    /// Whether the view has a map.
    pub fn has_map(&self) -> bool
        ensures { result ≡ false → self.now.pairs ≡ [] }
    {
        !self.pairs.is_empty()
    }

    /// The pairs of the map, in the order of its text.
    pub fn pairs(&self) -> &[LayerPair]
        ensures { result.now ≡ self.now.pairs }
    {
        &self.pairs
    }

    /// The window, if there is one.
    pub fn window(&self) -> Option<&Window>
        ensures { option_map (λ w. w.now) result ≡ self.now.window }
    {
        self.window.as_ref()
    }

    /// The Layer that this Layer counts as: the target of the pair whose source it is, or itself.
    pub fn target(&self, layer: Layer) -> Layer
        ensures { result ≡ target_of self.now.pairs layer }
    {
        match self.targets.get(&layer) {
            Some(target) => *target,
            None => layer,
        }
    }
}
