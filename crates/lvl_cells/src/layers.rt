//! The Layers of shapes.
ghost use Rattle.std.specs.Prelude.{All, Contains, OnOk};

use crate::lists::push_item;
use crate::shapes::Shapes;
use lvl_names::Layer;
use std::alloc::AllocError;

/// Appends a Layer, unless it is the last one already.
fn push_layer(layers: &mut Vec<Layer>, layer: Layer) -> Result<(), AllocError>
    ensures kept { OnOk result (All (Contains layers.new.items) layers.old.items) }
    ensures added { OnOk result (Contains layers.new.items layer) }
{
    if layers.last() == Some(&layer) {
        return Ok(());
    }
    push_item(layers, layer)
}

impl Shapes {
    /// Appends the Layers of the shapes to a list. A Layer of several consecutive shapes is
    /// appended once.
    pub fn push_layers(&self, layers: &mut Vec<Layer>) -> Result<(), AllocError>
        ensures kept { OnOk result (All (Contains layers.new.items) layers.old.items) }
        ensures added { OnOk result (All (λ h. Contains layers.new.items h.layer) self.now) }
    {
        for i in 0..self.len() {
            push_layer(layers, self.layer(i))?;
        }
        Ok(())
    }
}
