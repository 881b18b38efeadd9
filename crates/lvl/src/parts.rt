//! Strips where much is drawn, hashed part by part along y.
ghost use Rattle.std.specs.Prelude.{◌≡◌, ◌<◌, ◌<ℤ◌, ◌≤ℤ◌, Bool, [], None, ℕ, length, map, slice_index_or};
ghost use Rattle.std.specs.Prelude.{All, AllPairs, IfOk, OnOk};
ghost use Rattle.lvl_grid.specs.declared.point.Square.{Square as GridSquare};
ghost use Rattle.lvl_names.specs.Layers.{ComesBefore};
ghost use Rattle.lvl_corners.specs.Gathered.{HasGathered, IsLowered};
ghost use Rattle.lvl_corners.specs.declared.digest.LayerHash.{LayerHash as HashOfLayer};
ghost use Rattle.lvl_flat.specs.Flattened.{IsFlattenedWithin};
ghost use Rattle.lvl.specs.Hashes.{around, rows_around, HasAll, IsCleared, IsGathering, IsPartPushed};
ghost use Rattle.lvl.specs.Hashes.{IsRightPushed, IsStripPushed};

use crate::pace::{InParts, Pace};
use crate::strip::{Axis, Strip, all_drawn, end_before, end_of, next_strip, slice_around};
use lvl_corners::{LayerHash, Span};
use lvl_flat::{Fitted, Flat};
use lvl_grid::Window;
use lvl_names::Layer;
use std::alloc::{AllocError, Global};

/// What is drawn in a part of a strip that begins at some abscissa: up to which other one, and up to which
/// ordinate, which are both excluded. Then the pace of the next part.
#[derive(Drop)]
pub(crate) struct Part {
    pub flat: Flat,
    pub end: i64,
    pub top: i64,
    pub pace: Pace,
}

/// The rings of some Layers in the part, from the ordinate `y` on, of the strip of a window from one
/// abscissa up to another. If one row of it has too many points, the strip is halved; one row of one column
/// may have any number.
fn next_part(
    alloc: Global,
    fitted: &Fitted,
    layers: &[Layer],
    window: &Window,
    from: i64,
    end: i64,
    y: i64,
    pace: Pace,
) -> Result<Part, AllocError>
    requires high { 0 < pace.width }
    requires squares { y <ℤ window.now.y1 }
    requires rising { AllPairs ComesBefore layers.now }
    ensures flat { IfOk result (λ part. IsFlattenedWithin fitted.now layers.now
        (rows_around (around window.now from part.end) y part.top) part.flat) }
    ensures lowered { IfOk result (λ part. IsLowered from end part.end) }
    ensures further { IfOk result (λ part. y <ℤ part.top) }
    ensures inside { IfOk result (λ part. part.top ≤ℤ window.now.y1) }
    ensures high { IfOk result (λ part. 0 < part.pace.width) }
{
    let columns = slice_around(window, Axis::X, from, end);
    let Strip {
        flat,
        end: top,
        pace,
    } = next_strip(alloc, fitted, layers, &columns, Axis::Y, y, pace)?;
    if let Some(flat) = flat {
        return Ok(Part {
            flat,
            end,
            top,
            pace,
        });
    }
    let width = from.abs_diff(end);
    if from < end && width > 1 {
        let end = end_of(end, from, width / 2);
        let pace = Pace::of_parts(y, window.y1, pace.points);
        return next_part(alloc, fitted, layers, window, from, end, y, pace);
    }
    let row = slice_around(&columns, Axis::Y, y, top);
    let flat = all_drawn(alloc, fitted, layers, &row)?;
    Ok(Part {
        flat,
        end,
        top,
        pace,
    })
}

/// Hashes the corners of a flat layout at `x` and at the ordinates of some rows, those of each Layer by its
/// hash, and gathers those right of it.
fn push_part(
    alloc: Global,
    hashes: &mut [LayerHash],
    flat: &Flat,
    x: i64,
    end: i64,
    rows: Span,
    room: usize,
) -> Result<i64, AllocError>
    ensures pushed { IfOk result (λ stop. (k : ℕ) (h : HashOfLayer) → k < length hashes.old
        → IsPartPushed flat.now x stop rows (slice_index_or hashes.old k h) (slice_index_or hashes.new k h)) }
    ensures lowered { IfOk result (IsLowered x end) }
{
    let mut stop = end;
    for hash in hashes.iter_mut() {
        let rings = flat.rings(hash.layer());
        stop = hash.push_part(alloc, rings, x, stop, rows, room)?;
    }
    Ok(stop)
}

/// The number of points at which some Layers have gathered corners.
fn count_gathered(hashes: &[LayerHash]) -> usize {
    let mut count: usize = 0;
    for hash in hashes {
        count = count.saturating_add(hash.gathered());
    }
    count
}

/// The middle one of the abscissas at which some Layers have gathered corners.
fn middle_of(alloc: Global, hashes: &[LayerHash], count: usize) -> Result<Option<i64>, AllocError> {
    let mut abscissas = Vec::with_capacity(alloc, count)?;
    for hash in hashes {
        hash.push_abscissas(&mut abscissas)?;
    }
    abscissas.sort_unstable();
    Ok(abscissas.get(abscissas.len() / 2).copied())
}

/// Where the corners that are gathered right of `x` end: at `end`, or, if there are more than there is room
/// for, at the middle one of them.
fn lowered_end(
    alloc: Global,
    hashes: &[LayerHash],
    x: i64,
    end: i64,
    room: usize,
) -> Result<i64, AllocError>
    ensures { IfOk result (IsLowered x end) }
{
    let count = count_gathered(hashes);
    if count <= room {
        return Ok(end);
    }
    match middle_of(alloc, hashes, count)? {
        Some(middle) if x < middle && middle < end => Ok(middle),
        _ => Ok(end),
    }
}

/// Drops what was gathered.
fn clear_gathered(hashes: &mut [LayerHash])
    ensures { (k : ℕ) (h : HashOfLayer) → k < length hashes.old
        → IsCleared (slice_index_or hashes.old k h) (slice_index_or hashes.new k h) }
{
    for hash in hashes.iter_mut() {
        hash.clear_gathered();
    }
}

/// Hashes the gathered corners that are at the abscissas of a span, those of each Layer by its hash.
fn push_gathered(alloc: Global, hashes: &mut [LayerHash], span: Span) -> Result<(), AllocError>
    requires { (k : ℕ) (h : HashOfLayer) → k < length hashes.old
        → (covered : GridSquare → Bool) × HasGathered covered span (slice_index_or hashes.old k h) }
    ensures { OnOk result ((k : ℕ) (h : HashOfLayer) → k < length hashes.old
        → IsRightPushed span (slice_index_or hashes.old k h) (slice_index_or hashes.new k h)) }
{
    for hash in hashes.iter_mut() {
        hash.push_gathered(alloc, span)?;
    }
    Ok(())
}

/// Where a strip ends that was hashed part by part, and how many parts it had.
#[derive(Clone, Copy)]
pub(crate) struct Gathered {
    pub end: i64,
    pub parts: usize,
}

/// Hashes the corners at `from` of what the top covers on some Layers, each by its hash, and gathers those
/// right of it and left of an end, which is lowered if there are more than there is room for.
fn gather_parts(
    alloc: Global,
    hashes: &mut [LayerHash],
    fitted: &Fitted,
    layers: &[Layer],
    window: &Window,
    from: i64,
    end: i64,
    most: usize,
) -> Result<Gathered, AllocError>
    requires rising { AllPairs ComesBefore layers.now }
    requires layers { map (λ h. h.layer) hashes.old ≡ layers.now }
    requires all { HasAll fitted.now window.now }
    requires none { All (λ h. h.right.items ≡ []) hashes.old }
    ensures gathered { IfOk result (λ found. (k : ℕ) (h : HashOfLayer) → k < length hashes.old
        → IsGathering fitted.now window.now from found.end None (slice_index_or hashes.old k h)
        (slice_index_or hashes.new k h)) }
    ensures lowered { IfOk result (λ found. IsLowered from end found.end) }
{
    let room = most / 2;
    let mut stop = end;
    let mut parts: usize = 0;
    let mut y = window.y0;
    let mut pace = Pace::of_parts(window.y0, window.y1, room);
    while y < window.y1 {
        let part = next_part(alloc, fitted, layers, window, from, stop, y, pace)?;
        let rows = Span {
            from: Some(y),
            below: end_before(part.top, window.y1),
        };
        let below = push_part(alloc, hashes, &part.flat, from, part.end, rows, room)?;
        stop = lowered_end(alloc, hashes, from, below, room)?;
        y = part.top;
        pace = part.pace;
        parts = parts.saturating_add(1);
    }
    Ok(Gathered { end: stop, parts })
}

/// Where a strip ends that was hashed part by part, and how that went.
#[derive(Clone, Copy)]
pub(crate) struct Pushed {
    pub end: i64,
    pub strip: InParts,
}

/// Hashes the corners, at the abscissas of a strip, of what the top covers on some Layers, each by its hash.
/// The strip begins at `from` and ends at `asked`, or before it if there are more than there is room for.
/// At `from` there may be any number.
pub(crate) fn push_parts(
    alloc: Global,
    hashes: &mut [LayerHash],
    fitted: &Fitted,
    layers: &[Layer],
    window: &Window,
    from: i64,
    asked: i64,
    most: usize,
) -> Result<Pushed, AllocError>
    requires rising { AllPairs ComesBefore layers.now }
    requires layers { map (λ h. h.layer) hashes.old ≡ layers.now }
    requires all { HasAll fitted.now window.now }
    ensures pushed { IfOk result (λ pushed. (k : ℕ) (h : HashOfLayer) → k < length hashes.old
        → IsStripPushed fitted.now window.now from pushed.end (slice_index_or hashes.old k h)
        (slice_index_or hashes.new k h)) }
    ensures lowered { IfOk result (λ pushed. IsLowered from asked pushed.end) }
{
    clear_gathered(hashes);
    let found = gather_parts(alloc, hashes, fitted, layers, window, from, asked, most)?;
    let strip = InParts {
        asked: from.abs_diff(asked),
        width: from.abs_diff(found.end),
        parts: found.parts,
        is_empty: count_gathered(hashes) <= most / 8,
    };
    let right = from.saturating_add(1);
    let end = found.end;
    if end <= right {
        return Ok(Pushed { end, strip });
    }
    let span = Span {
        from: Some(right),
        below: Some(end),
    };
    push_gathered(alloc, hashes, span)?;
    Ok(Pushed { end, strip })
}
