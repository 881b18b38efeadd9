//! What is asked about two files, and the answer.

use crate::layout::Head;
use crate::verdict::{Tops, Verdict};
use lvl_names::Layer;
use lvl_profile::Profile;
use lvl_view::View;
use lvl_why::Why;

/// What is asked about two files.
#[derive(Drop)]
pub struct Question<'a> {
    /// The names of their tops.
    pub tops: &'a Tops,
    /// The view under which they are compared.
    pub view: &'a View,
    /// The profile under which both are read.
    pub profile: Profile,
    /// Whether the reason is asked for, if they differ.
    pub why: bool,
    /// Whether they are compared only if their grid steps agree.
    pub units: bool,
}

/// The answer to a [`Question`].
#[derive(Debug, Drop)]
pub struct Answer {
    /// What the first file says about itself.
    pub first: Head,
    /// What the second file says about itself.
    pub second: Head,
    /// How they compare; `None` if their grid steps must agree and don't. Then the files were read, and nothing else
    /// was done.
    pub judged: Option<Judged>,
}

/// How two layouts compare.
#[derive(Debug, Drop)]
pub struct Judged {
    pub verdict: Verdict,
    /// The first source of the map on which no cell of the second file has a shape, if there is one: its pair moves
    /// nothing, perhaps since a number in it is mistyped (own rule).
    pub undrawn: Option<Layer>,
    /// If that is asked for and they differ, why the side that alone covers the square does so.
    pub why: Option<Why>,
}
