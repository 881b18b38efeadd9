//! Two layouts that are compared.
use lvl_flat::Fitted;
use lvl_view::View;

/// Two layouts, and the view under which they are compared. The view maps the Layers of the second,
/// and if it has a window, only squares of this window are compared.
#[derive(Clone, Copy)]
pub struct Pair<'a> {
    /// The first layout.
    pub first: &'a Fitted,
    /// The second layout.
    pub second: &'a Fitted,
    /// The view.
    pub view: &'a View,
}
