//! Whether a comparison cell by cell is likely to pay.
use lvl_cells::{Cell, Checked};
use lvl_flat::Fitted;
use lvl_grid::Window;

/// The number of rings that a cell itself draws, at most `u64::MAX`: each counts once for each
/// shift of its shape.
pub(crate) fn rings_of(cell: &Cell) -> u64 {
    let shapes = &cell.shapes;
    let mut sum = 0u64;
    for i in 0..shapes.len() {
        let drawn = (shapes.ring_count(i) as u64).saturating_mul(shapes.shift_count(i));
        sum = sum.saturating_add(drawn);
    }
    sum
}

/// The number of shifts of the shapes and references of a cell, at most `u64::MAX`.
fn shifts_of(cell: &Cell) -> u64 {
    let mut sum = 0u64;
    for i in 0..cell.shapes.len() {
        sum = sum.saturating_add(cell.shapes.shift_count(i));
    }
    for j in 0..cell.references.len() {
        sum = sum.saturating_add(cell.references.reference(j).shift_count());
    }
    sum
}

/// The numbers of cells and references, and of the rings that cells draw themselves, each at most
/// `u64::MAX`.
pub(crate) fn size_of(checked: &Checked) -> (u64, u64) {
    let mut cells = 0u64;
    let mut rings = 0u64;
    for cell in checked.cells() {
        cells = cells
            .saturating_add(1)
            .saturating_add(cell.references.len() as u64);
        rings = rings.saturating_add(rings_of(cell));
    }
    (cells, rings)
}

/// The number of rings that are placed, at most `u64::MAX`.
pub(crate) fn placed_rings(checked: &Checked) -> u64 {
    let mut placed = 0u64;
    for (cell, times) in checked.cells().iter().zip(checked.times()) {
        if *times > 0 {
            placed = placed.saturating_add(rings_of(cell).saturating_mul(*times));
        }
    }
    placed
}

/// A count as it is shared out by length: the part of it that belongs to `part` of `whole`.
pub(crate) fn share(count: u64, part: u64, whole: u64) -> u64 {
    let product = u128::from(count).saturating_mul(u128::from(part.min(whole)));
    let shared = product / u128::from(whole.max(1));
    u64::try_from(shared).unwrap_or(u64::MAX)
}

/// How many of the rings that a layout places may be in a window, by the size of its extent.
pub(crate) fn placed_in(fitted: &Fitted, window: Option<&Window>) -> u64 {
    let placed = placed_rings(fitted.checked());
    let Some(window) = window else {
        return placed;
    };
    let all = fitted.extent();
    let wide = share(
        placed,
        window.x0.abs_diff(window.x1),
        all.x0.abs_diff(all.x1),
    );
    share(wide, window.y0.abs_diff(window.y1), all.y0.abs_diff(all.y1))
}

/// Whether a comparison cell by cell is likely to cost less than one of flat layouts. It is if the
/// cells that are placed have at most a quarter as many own rings as are placed in all, and if all
/// cells together have at most about twice as many shifts as there are placed rings, since each
/// shift is looked at. The answer is one of cost only.
pub fn pays_by_cells(checked: &Checked) -> bool {
    let mut own = 0u64;
    let mut placed = 0u64;
    let mut shifts = 0u64;
    for (cell, times) in checked.cells().iter().zip(checked.times()) {
        shifts = shifts.saturating_add(shifts_of(cell));
        if *times > 0 {
            let rings = rings_of(cell);
            own = own.saturating_add(rings);
            placed = placed.saturating_add(rings.saturating_mul(*times));
        }
    }
    placed / 4 >= own && shifts / 2 <= placed
}
