//! A set of Layers.
ghost use Rattle.std.specs.Prelude.{Contains, IsTrue, IfOk, IfSome, OnOk};
ghost use Rattle.lvl_names.specs.declared.layer.Layer.{Layer as PlainLayer};
ghost use Rattle.lvl_view.specs.Views.{target_of};
ghost use Rattle.lvl_changed.specs.inside.Layers.{IsOn, Spreads};

use lvl_names::Layer;
use lvl_view::View;
use std::alloc::{AllocError, Global};

/// The greatest number of Layers of a set that isn't every Layer.
const MOST_LAYERS: usize = 64;

/// Some Layers, or every Layer.
#[derive(Drop)]
pub(crate) struct Layers {
    list: Vec<Layer>,
    every: bool,
}

impl Layers {
    /// The empty set. Allocates nothing.
    pub(crate) fn none(alloc: Global) -> Layers {
        Layers {
            list: Vec::new(alloc),
            every: false,
        }
    }

    /// Whether the set has the Layer.
    fn has(&self, layer: Layer) -> bool
        ensures { IsTrue result → IsOn self.now layer }
    {
        if self.every {
            return true;
        }
        self.list.contains(&layer)
    }

    /// Makes the set every Layer.
    pub(crate) fn add_every(&mut self)
        ensures { (layer : PlainLayer) → IsOn self.new layer }
    {
        self.every = true;
    }

    /// Adds a Layer. If there would be more than [`MOST_LAYERS`], the set becomes every Layer.
    pub(crate) fn add(&mut self, layer: Layer) -> Result<(), AllocError>
        ensures added { OnOk result (IsOn self.new layer) }
        ensures kept { OnOk result (Spreads self.old self.new) }
    {
        if self.has(layer) {
            return Ok(());
        }
        if self.list.len() >= MOST_LAYERS {
            self.add_every();
            return Ok(());
        }
        self.list.push(layer)?;
        Ok(())
    }

    /// Adds the Layers of another set.
    pub(crate) fn add_all(&mut self, others: &Layers) -> Result<(), AllocError>
        ensures added { OnOk result (Spreads others.now self.new) }
        ensures kept { OnOk result (Spreads self.old self.new) }
    {
        if others.every {
            self.add_every();
            return Ok(());
        }
        for layer in &others.list {
            self.add(*layer)?;
        }
        Ok(())
    }

    /// Adds the Layers of another set, as the view maps them.
    pub(crate) fn add_mapped(&mut self, others: &Layers, view: &View) -> Result<(), AllocError>
        ensures added { OnOk result ((layer : PlainLayer)
            → IsOn others.now layer → IsOn self.new (target_of view.now.pairs layer)) }
        ensures kept { OnOk result (Spreads self.old self.new) }
    {
        if others.every {
            self.add_every();
            return Ok(());
        }
        for layer in &others.list {
            self.add(view.target(*layer))?;
        }
        Ok(())
    }

    /// A copy of the Layers, or None if these are all.
    pub(crate) fn copied(&self, alloc: Global) -> Result<Option<Vec<Layer>>, AllocError>
        ensures { IfOk result (λ copied. IfSome copied
            (λ list. (layer : PlainLayer) → IsOn self.now layer → Contains list.items layer)) }
    {
        if self.every {
            return Ok(None);
        }
        Ok(Some(Vec::from_slice(alloc, &self.list)?))
    }

    /// The Layers, or None if these are all.
    pub(crate) fn into_list(self) -> Option<Vec<Layer>>
        ensures { IfSome result (λ list. (layer : PlainLayer) → IsOn self layer → Contains list.items layer) }
    {
        let Layers { list, every } = self;
        if every {
            return None;
        }
        Some(list)
    }
}
