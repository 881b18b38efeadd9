//! The hashes of some Layers of a layout, which take what is drawn strip by strip.
ghost use Rattle.std.specs.Prelude.{◌≡◌, ◌<◌, ◌-◌, ◌^◌, ◌<ℤ◌, ◌≤ℤ◌, negsuc, ℕ, [], length, map, None};
ghost use Rattle.std.specs.Prelude.{slice_index_or, All, AllPairs, IfOk, OnOk};
ghost use Rattle.lvl_names.specs.Layers.{ComesBefore};
ghost use Rattle.lvl_corners.specs.Digests.{HasHashed};
ghost use Rattle.lvl_corners.specs.declared.digest.LayerHash.{LayerHash as HashOfLayer};
ghost use Rattle.lvl_flat.specs.Flattened.{IsFlattenedWithin};
ghost use Rattle.lvl.specs.Hashes.{around, below_at, HasAll, IsHashedTo, IsPushed, IsStep};

use crate::pace::Pace;
use crate::parts::push_parts;
use crate::strip::{Axis, Strip, end_before, end_of, next_strip};
use lvl_corners::{LayerHash, Span};
use lvl_flat::{Fitted, Flat};
use lvl_grid::Window;
use lvl_names::Layer;
use std::alloc::{AllocError, Global};

/// A hash for each of the Layers, without corners.
fn hashes_of(alloc: Global, layers: &[Layer]) -> Result<Vec<LayerHash>, AllocError>
    ensures layers { IfOk result (λ hashes. map (λ h. h.layer) hashes.items ≡ layers.now) }
    ensures none { IfOk result (λ hashes. All (λ h. HasHashed h []) hashes.items) }
{
    let mut hashes = Vec::with_capacity(alloc, layers.len())?;
    for layer in layers {
        hashes.push(LayerHash::new(alloc, *layer)?)?;
    }
    Ok(hashes)
}

/// Hashes the corners of a flat layout at the abscissas of a span, those of each Layer by its hash.
fn push_strip(
    alloc: Global,
    hashes: &mut [LayerHash],
    flat: &Flat,
    span: Span,
) -> Result<(), AllocError>
    ensures { OnOk result ((k : ℕ) (h : HashOfLayer) → k < length hashes.old
        → IsPushed flat.now span (slice_index_or hashes.old k h) (slice_index_or hashes.new k h)) }
{
    for hash in hashes.iter_mut() {
        let rings = flat.rings(hash.layer());
        hash.push(alloc, rings, span)?;
    }
    Ok(())
}

/// Where a strip ends, and the pace of the next one.
#[derive(Clone, Copy)]
pub(crate) struct Next {
    pub end: i64,
    pub pace: Pace,
}

/// Hashes the corners of a strip where much is drawn. If the window ends there, those on the right side of
/// the last column are hashed after them: nothing is drawn right of it.
fn push_full(
    alloc: Global,
    hashes: &mut [LayerHash],
    fitted: &Fitted,
    layers: &[Layer],
    window: &Window,
    from: i64,
    pace: Pace,
    most: usize,
) -> Result<Next, AllocError>
    requires rising { AllPairs ComesBefore layers.now }
    requires layers { map (λ h. h.layer) hashes.old ≡ layers.now }
    requires all { HasAll fitted.now window.now }
    requires low { negsuc (2 ^ 63 - 1) ≤ℤ window.now.x0 }
    requires squares { from <ℤ window.now.x1 }
    requires wide { 0 < pace.width }
    ensures hashed { IfOk result (λ next. (k : ℕ) (h : HashOfLayer) → k < length hashes.old
        → IsStep fitted.now from (below_at next.end window.now.x1) (slice_index_or hashes.old k h)
        (slice_index_or hashes.new k h)) }
    ensures further { IfOk result (λ next. from <ℤ next.end) }
    ensures inside { IfOk result (λ next. next.end ≤ℤ window.now.x1) }
    ensures wide { IfOk result (λ next. 0 < next.pace.width) }
{
    let asked = end_of(window.x1, from, pace.width_in_parts());
    let pushed = push_parts(alloc, hashes, fitted, layers, window, from, asked, most)?;
    let end = pushed.end;
    let pace = pace.after_parts(pushed.strip);
    if end < window.x1 {
        return Ok(Next { end, pace });
    }
    push_parts(alloc, hashes, fitted, layers, window, end, end, most)?;
    Ok(Next { end, pace })
}

/// Hashes the corners of a strip that begins at `from` and was flattened, those of each Layer by its hash.
fn push_flat(
    alloc: Global,
    hashes: &mut [LayerHash],
    fitted: &Fitted,
    layers: &[Layer],
    window: &Window,
    from: i64,
    end: i64,
    flat: &Flat,
) -> Result<(), AllocError>
    requires layers { map (λ h. h.layer) hashes.old ≡ layers.now }
    requires all { HasAll fitted.now window.now }
    requires low { negsuc (2 ^ 63 - 1) ≤ℤ window.now.x0 }
    requires flat { IsFlattenedWithin fitted.now layers.now (around window.now from end) flat.now }
    requires further { from <ℤ end }
    ensures { OnOk result ((k : ℕ) (h : HashOfLayer) → k < length hashes.old
        → IsStep fitted.now from (below_at end window.now.x1) (slice_index_or hashes.old k h)
        (slice_index_or hashes.new k h)) }
{
    let span = Span {
        from: Some(from),
        below: end_before(end, window.x1),
    };
    push_strip(alloc, hashes, flat, span)?;
    Ok(())
}

/// Hashes the corners of a strip that begins at `from`, those of each Layer by its hash.
fn push_next(
    alloc: Global,
    hashes: &mut [LayerHash],
    fitted: &Fitted,
    layers: &[Layer],
    window: &Window,
    from: i64,
    pace: Pace,
    most: usize,
) -> Result<Next, AllocError>
    requires rising { AllPairs ComesBefore layers.now }
    requires layers { map (λ h. h.layer) hashes.old ≡ layers.now }
    requires all { HasAll fitted.now window.now }
    requires low { negsuc (2 ^ 63 - 1) ≤ℤ window.now.x0 }
    requires squares { from <ℤ window.now.x1 }
    requires wide { 0 < pace.width }
    ensures hashed { IfOk result (λ next. (k : ℕ) (h : HashOfLayer) → k < length hashes.old
        → IsStep fitted.now from (below_at next.end window.now.x1) (slice_index_or hashes.old k h)
        (slice_index_or hashes.new k h)) }
    ensures further { IfOk result (λ next. from <ℤ next.end) }
    ensures inside { IfOk result (λ next. next.end ≤ℤ window.now.x1) }
    ensures wide { IfOk result (λ next. 0 < next.pace.width) }
{
    if pace.is_in_parts() {
        return push_full(alloc, hashes, fitted, layers, window, from, pace, most);
    }
    let Strip { flat, end, pace } = next_strip(alloc, fitted, layers, window, Axis::X, from, pace)?;
    let Some(flat) = flat else {
        return push_full(alloc, hashes, fitted, layers, window, from, pace, most);
    };
    push_flat(alloc, hashes, fitted, layers, window, from, end, &flat)?;
    Ok(Next { end, pace })
}

/// The hashes of what the top covers on some Layers. The Layers must be in their order, without
/// duplicates. Strips are so wide that the rings have at most `most` points in one, and where they have
/// more in a narrow strip, it is hashed part by part.
pub(crate) fn hash_layers(
    alloc: Global,
    fitted: &Fitted,
    layers: &[Layer],
    most: usize,
) -> Result<Vec<LayerHash>, AllocError>
    requires { AllPairs ComesBefore layers.now }
    ensures layers { IfOk result (λ hashes. map (λ h. h.layer) hashes.items ≡ layers.now) }
    ensures hashed { IfOk result (λ hashes. All (IsHashedTo fitted.now None) hashes.items) }
{
    let mut hashes = hashes_of(alloc, layers)?;
    let window = fitted.extent();
    let mut from = window.x0;
    let mut pace = Pace::new(window.x0, window.x1, most);
    while from < window.x1 {
        let next = push_next(
            alloc,
            &mut hashes,
            fitted,
            layers,
            &window,
            from,
            pace,
            most,
        )?;
        from = next.end;
        pace = next.pace;
    }
    Ok(hashes)
}
