//! The bands of rings, worked by hand.
use crate::words::{cut, holds, rings_of, rows_hold};
use lvl_grid::{Ring, Rings};
use lvl_region::Region;
use lvl_sweep::{Band, SlabRegion, Sweep};
use std::alloc::Global;
use std::test::Fail;

/// What rings are, their points, and their bands, each by its rows and its intervals.
const BANDS: &str = "\
one square | 0,0 10,0 10,10 0,10 | 0..10: 0..10;
a reversed ring does not cancel | 0,0 10,0 10,10 0,10; 0,0 0,10 10,10 10,0 | 0..10: 0..10;
a corner makes two bands | 0,0 20,0 20,10 10,10 10,20 0,20 | 0..10: 0..20;10..20: 0..10;
bands that touch are one | 0,0 10,0 10,10 0,10; 0,10 10,10 10,20 0,20 | 0..20: 0..10;
a band has several intervals | 0,0 10,0 10,10 0,10; 20,0 30,0 30,10 20,10 | 0..10: 0..10 20..30;
edges that begin and end together | \
    0,0 10,0 10,10 0,10; 20,0 30,0 30,10 20,10; 0,10 10,10 10,20 0,20; -5,0 25,0 25,5 -5,5 | \
    0..5: -5..30;5..10: 0..10 20..30;10..20: 0..10;
no area | 0,0 0,5 0,0 |
no rings | |
";

fn push_band(text: &mut String, band: &Band) -> Result<(), Fail> {
    write!(text, "{}..{}:", band.y0, band.y1)?;
    for (low, high) in &band.intervals {
        write!(text, " {low}..{high}")?;
    }
    text.push_str(";")?;
    Ok(())
}

/// The band that the sweep has, or a space where it has none.
fn push_swept(text: &mut String, sweep: &Sweep) -> Result<(), Fail> {
    match sweep.band() {
        Some(band) => push_band(text, band),
        None => Ok(text.push_str(" ")?),
    }
}

/// What the sweep gives in nine steps.
fn text_of_sweep(alloc: Global, sweep: &mut Sweep) -> Result<String, Fail> {
    let mut text = String::new(alloc);
    for _ in 0..9 {
        push_swept(&mut text, sweep)?;
        sweep.advance();
    }
    Ok(text)
}

/// What a sweep of the rings gives.
fn swept_text(alloc: Global, rings: &[Ring]) -> Result<String, Fail> {
    let mut sweep = Sweep::new(alloc, &Rings::from_slice(alloc, rings)?)?;
    text_of_sweep(alloc, &mut sweep)
}

fn text_of_bands(alloc: Global, bands: &[Band]) -> Result<String, Fail> {
    let mut text = String::new(alloc);
    for band in bands {
        push_band(&mut text, band)?;
    }
    Ok(text)
}

/// The bands of the region of the rings.
fn kept_text(alloc: Global, rings: &[Ring]) -> Result<String, Fail> {
    let region = SlabRegion::build(alloc, rings)?;
    text_of_bands(alloc, region.bands())
}

/// Whether the rings have these bands, swept and kept.
fn have_bands(alloc: Global, rings: &[Ring], bands: &str) -> Result<bool, Fail> {
    Ok(
        swept_text(alloc, rings)?.as_str().trim_end() == bands
            && kept_text(alloc, rings)?.as_str() == bands,
    )
}

/// Whether the rings of a row have its bands.
fn row_has_bands(alloc: Global, row: &str) -> Result<bool, Fail> {
    let (_, row) = cut(row, " |");
    let (rings, bands) = cut(row, " |");
    have_bands(alloc, &rings_of(alloc, rings)?, bands.trim())
}

#[test]
fn bands_of_rings(rt: HostRuntime) -> Result<(), Fail> {
    rows_hold(rt.alloc(), BANDS, row_has_bands)
}

/// A ring of two bands, the lower of which is wider.
const CORNERED: &str = "0,0 20,0 20,10 10,10 10,20 0,20";

/// Whether a band has these rows, and one interval from 0 to there.
fn is_band(band: &Band, low: i64, high: i64, right: i64) -> bool {
    band.y0 == low && band.y1 == high && band.intervals.as_slice() == [(0, right)].as_slice()
}

/// Whether the sweep has such a band, from which it goes on to the next.
fn gives_band(sweep: &mut Sweep, low: i64, high: i64, right: i64) -> bool {
    let is_there = match sweep.band() {
        Some(band) => is_band(band, low, high, right),
        None => false,
    };
    sweep.advance();
    is_there
}

/// Whether the sweep has no band, nor a next one.
fn gives_none(sweep: &mut Sweep) -> bool {
    let is_over = sweep.band().is_none();
    sweep.advance();
    is_over && sweep.band().is_none()
}

/// Whether a sweep of the ring gives its bands one at a time, and then none.
fn sweeps_cornered(alloc: Global) -> Result<bool, Fail> {
    let rings = rings_of(alloc, CORNERED)?;
    let mut sweep = Sweep::new(alloc, &Rings::from_slice(alloc, &rings)?)?;
    Ok(
        gives_band(&mut sweep, 0, 10, 20)
            && gives_band(&mut sweep, 10, 20, 10)
            && gives_none(&mut sweep),
    )
}

/// Whether the region of the ring has its bands.
fn keeps_cornered(alloc: Global) -> Result<bool, Fail> {
    let region = SlabRegion::build(alloc, &rings_of(alloc, CORNERED)?)?;
    Ok(match region.bands() {
        [lower, upper] => is_band(lower, 0, 10, 20) && is_band(upper, 10, 20, 10),
        _ => false,
    })
}

#[test]
fn growths_of_bands(rt: HostRuntime) -> Result<(), Fail> {
    holds(sweeps_cornered(rt.alloc()))?;
    holds(keeps_cornered(rt.alloc()))
}
