//! The layer and datatype of a shape.
ghost use Rattle.std.specs.Prelude.{◌≡◌, ◌==◌, ◌≤ℤ◌, ◌<ℤ◌, pos, IfOk, IfErr, OnOk, length, if◌then◌else◌};
ghost use Rattle.gds_elements.specs.Types.{layer, datatype};
ghost use Rattle.gds_elements.specs.Values.{short, magnitude};
ghost use Rattle.gds_elements.specs.inside.Formed.{IsFormed, IsLayerNumber};
ghost use Rattle.gds_elements.specs.inside.Misplaced.{breach};

use crate::fault::{ElementFault, ElementRule, breach};
use crate::values::short;
use gds_records::record_type;
use lvl_names::Layer;
use lvl_refusal::Cause;

/// The layer and datatype of a shape after one more record. Only LAYER and DATATYPE change them.
pub(crate) fn read_layer(old: Layer, kind: u8, payload: &[u8]) -> Result<Layer, Cause<ElementFault>>
    requires { IsFormed kind payload.now }
    ensures layer { IfOk result (λ l. l.layer ≡ (if kind == layer then magnitude (short payload.now) else old.layer)) }
    ensures datatype { IfOk result
        (λ l. l.datatype ≡ (if kind == datatype then magnitude (short payload.now) else old.datatype)) }
    ensures allowed { OnOk result (IsLayerNumber kind → pos 0 ≤ℤ short payload.now) }
    ensures refused { IfErr result (λ e. (e ≡ breach ElementRule.Layer) × IsLayerNumber kind
        × (short payload.now <ℤ pos 0)) }
{
    let mut layer = old;
    match kind {
        record_type::LAYER => layer.layer = layer_number(payload)?,
        record_type::DATATYPE => layer.datatype = layer_number(payload)?,
        _ => {}
    }
    Ok(layer)
}

fn layer_number(payload: &[u8]) -> Result<u32, Cause<ElementFault>>
    requires { length payload.now ≡ 2 }
    ensures value { IfOk result (λ n. (n ≡ magnitude (short payload.now)) × (pos 0 ≤ℤ short payload.now)) }
    ensures negative { IfErr result (λ e. (e ≡ breach ElementRule.Layer) × (short payload.now <ℤ pos 0)) }
{
    match u32::try_from(short(payload)) {
        Ok(number) => Ok(number),
        Err(_) => Err(breach(ElementRule::Layer)),
    }
}
