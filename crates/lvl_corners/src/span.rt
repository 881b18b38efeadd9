//! Spans: the abscissas of a column or a strip, or the ordinates of some rows.
ghost use Rattle.std.specs.Prelude.{◌≡◌, ◌<ℤ◌, negsuc, ◌-◌, ◌^◌, true, Some, IsTrue};
ghost use Rattle.lvl_sweep.specs.Ahead.{is_from};
ghost use Rattle.lvl_corners.specs.Spans.{is_below, spanned, whole, left_part, right_part, StripsAppend};
ghost use Rattle.lvl_corners.specs.Gathered.{GatheredAppend, GatheredLeft};
ghost use Rattle.lvl_corners.specs.Parts.{PartsAppend, PartsAreAll};

/// The abscissas (or ordinates) from `from` on, if it is given, and below `below`, if that is given.
#[derive(Clone, Copy)]
pub struct Span {
    pub from: Option<i64>,
    pub below: Option<i64>,
}

fn is_from(from: Option<i64>, x: i64) -> bool
    ensures { result ≡ is_from from x }
{
    match from {
        Some(least) => least <= x,
        None => true,
    }
}

fn is_below(below: Option<i64>, x: i64) -> bool
    ensures { result ≡ is_below below x }
{
    match below {
        Some(end) => x < end,
        None => true,
    }
}

impl Span {
    /// All abscissas.
    pub fn whole() -> Span
        ensures { result ≡ whole }
    {
        Span {
            from: None,
            below: None,
        }
    }

    /// Whether the span has the abscissa.
    pub(crate) fn has(&self, x: i64) -> bool
        ensures { result ≡ spanned self.now x }
    {
        is_from(self.from, x) && is_below(self.below, x)
    }

    /// Whether the span has both the abscissa and the one before it, so that a cut there leaves
    /// some on both sides.
    pub(crate) fn has_around(&self, at: i64) -> bool
        ensures within { IsTrue result → spanned self.now at ≡ true }
        ensures inner { IsTrue result → negsuc (2 ^ 63 - 1) <ℤ at }
    {
        let Some(before) = at.checked_sub(1) else {
            return false;
        };
        self.has(before) && self.has(at)
    }

    /// The abscissas of the span that are below `at`, which is one of the span.
    pub(crate) fn left_of(self, at: i64) -> Span
        ensures { result ≡ left_part self at }
    {
        Span {
            from: self.from,
            below: Some(at),
        }
    }

    /// The abscissas of the span from `at` on, which is one of the span.
    pub(crate) fn right_from(self, at: i64) -> Span
        ensures { result ≡ right_part self at }
    {
        Span {
            from: Some(at),
            below: self.below,
        }
    }
}

/// A law, for proofs: corners of squares are found strip by strip. The corners left of an abscissa
/// are those of the squares left of it, the others those of the squares from one column before it
/// on, and both lists, one after the other, are the corners of all. The call does nothing.
pub fn strips_append()
    ensures { StripsAppend }
{}

/// A law, for proofs: corners at one abscissa are found part by part. Those below an ordinate are those
/// of the squares below it, the others those of the squares from one row before it on, and both lists,
/// one after the other, are the corners at that abscissa. So are those right of it that are gathered, up to
/// an end that is lowered meanwhile. The call does nothing.
pub fn parts_append()
    ensures append { PartsAppend }
    ensures all { PartsAreAll }
    ensures gathered { GatheredAppend }
    ensures left { GatheredLeft }
{}
