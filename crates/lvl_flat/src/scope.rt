//! What a walk draws.
use lvl_grid::Window;

/// What a walk draws of what the top places.
#[derive(Clone, Copy)]
pub(crate) enum Scope {
    /// All of it, each ring by itself.
    Everything,
    /// What lies in the window. Rings that lie over one another may be joined.
    Within(Window),
}
