//! The number of rings on each Layer.
ghost use Rattle.std.specs.Prelude.{◌≡◌, ◌+◌, ◌*◌, ◌^◌, ◌<◌, if◌then◌else◌, map, slice_get, All, Contains};
ghost use Rattle.std.specs.Prelude.{IfOk, IfSome};
ghost use Rattle.lvl_cells.specs.Cells.{each_ring};
ghost use Rattle.lvl_count.specs.Counted.{AreCounted};
ghost use Rattle.lvl_count.specs.inside.Counts.{AreListed, AreSorted, IsCountOf, more, rings_on, placed_on};
ghost use Rattle.lvl_cells.specs.Times.{AreTimes};
ghost use Rattle.lvl_names.specs.Layers.{same_layer};

use crate::layers::layers_of;
use lvl_cells::{Checked, Shapes};
use lvl_names::{Layer, comes_before, in_order};
use std::alloc::{AllocError, Global};

/// A Layer and the number of rings that are placed on it.
#[derive(Clone, Copy, Debug, PartialEq, Eq)]
pub struct LayerRings {
    pub layer: Layer,
    pub rings: usize,
}

/// A count of 0 for each Layer.
fn no_counts(alloc: Global, layers: &[Layer]) -> Result<Vec<LayerRings>, AllocError>
    ensures { IfOk result (λ counts. counts.items ≡ map (λ l. record { layer = l; rings = 0 }) layers.now) }
{
    layers
        .iter()
        .map(|layer| LayerRings {
            layer: *layer,
            rings: 0,
        })
        .collect(alloc)
}

/// A count of 0 for each of the Layers, in their order, without duplicates.
fn counts_for(alloc: Global, layers: Vec<Layer>) -> Result<Vec<LayerRings>, AllocError>
    ensures sorted { IfOk result (λ counts. AreSorted counts.items) }
    ensures layers { IfOk result (λ counts. All (Contains (map (λ c. c.layer) counts.items)) layers.items) }
    ensures zero { IfOk result (λ counts. All (λ c. c.rings ≡ 0) counts.items) }
{
    no_counts(alloc, &in_order(layers)?)
}

/// The index of the count of a Layer.
fn index_of(counts: &[LayerRings], layer: Layer) -> usize
    requires sorted { AreSorted counts.now }
    requires there { Contains (map (λ c. c.layer) counts.now) layer }
    ensures { IsCountOf counts.now layer result }
{
    counts.partition_point(|count| comes_before(count.layer, layer))
}

/// Adds rings to the count of their Layer.
fn add_rings(counts: &mut [LayerRings], layer: Layer, rings: usize)
    requires sorted { AreSorted counts.old }
    requires there { Contains (map (λ c. c.layer) counts.old) layer }
    requires few { All (λ c. c.layer ≡ layer → c.rings + rings < 2 ^ 64) counts.old }
    ensures { counts.new ≡ map (more (λ l. if same_layer layer l then rings else 0)) counts.old }
{
    let index = index_of(counts, layer);
    counts[index].rings += rings;
}

/// Adds the rings of the shapes of a cell that is placed `times` times.
fn add_shapes(counts: &mut [LayerRings], shapes: &Shapes, times: u64)
    requires sorted { AreSorted counts.old }
    requires there { All (λ h. Contains (map (λ c. c.layer) counts.old) h.layer) shapes.now }
    requires placed { 0 < times }
    requires few { All (λ c. c.rings + times * rings_on c.layer shapes.now < 2 ^ 64) counts.old }
    ensures { counts.new ≡ map (more (λ l. times * rings_on l shapes.now)) counts.old }
{
    for i in 0..shapes.len() {
        let rings = shapes.ring_count(i) as u64 * shapes.shift_count(i);
        add_rings(counts, shapes.layer(i), (times * rings) as usize);
    }
}

/// Adds the rings of all cells, each multiplied by how often the cell is placed.
fn add_cells(counts: &mut [LayerRings], checked: &Checked, times: &[u64])
    requires times { AreTimes checked.now times.now }
    requires sorted { AreSorted counts.old }
    requires there { All (AreListed checked.now.cells times.now (map (λ c. c.layer) counts.old)) checked.now.order }
    requires zero { All (λ c. c.rings ≡ 0) counts.old }
    ensures { counts.new ≡ map (more (λ l. placed_on l checked.now.cells times.now checked.now.order)) counts.old }
{
    for index in checked.order() {
        let here = times[*index];
        if here > 0 {
            let cell = &checked.cells()[*index];
            add_shapes(counts, &cell.shapes, here);
        }
    }
}

/// The number of rings that the top of a checked library places on each Layer, in the order of the
/// Layers. Layers on which it places none are left out.
///
/// Takes one pass over the cells, however much they place.
pub fn rings_by_layer(alloc: Global, checked: &Checked) -> Result<Vec<LayerRings>, AllocError>
    ensures { IfOk result (λ layers. IfSome (slice_get checked.now.cells checked.now.top)
        (λ top. AreCounted each_ring checked.now.cells top layers.items)) }
{
    let times = checked.times();
    let layers = layers_of(alloc, checked, times)?;
    let mut counts = counts_for(alloc, layers)?;
    add_cells(&mut counts, checked, times);
    counts.retain(|count| count.rings > 0);
    Ok(counts)
}
