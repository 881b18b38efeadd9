//! A region that stores its slab list.
ghost use Rattle.std.specs.Prelude.{◌≡◌, ◌&&◌, ◌↔◌, ◌++◌, map, IsTrue, IfOk, IfNone, IfSome, None};
ghost use Rattle.std.specs.List.{list_any};
ghost use Rattle.lvl_grid.specs.declared.point.Square.{Square as GridSquare};
ghost use Rattle.lvl_region.specs.Region.{SomeCovers, IsAlone};
ghost use Rattle.lvl_sweep.specs.Slab.{IsSlabList, slab_covers, slabs_cover, spans};
ghost use Rattle.lvl_sweep.specs.Bands.{slab_of, AreBandsOf, AreFewerThanLines, HaveFewIntervals};
ghost use Rattle.lvl_sweep.specs.Ahead.{IsLeastAlone};

use crate::band::Band;
use crate::differ::{Bands, walk_in_step};
use crate::sweep::Sweep;
use lvl_grid::{Ring, Square};
use lvl_region::{Region, Side};
use std::alloc::{AllocError, Global};
use std::marker::Model;

/// The squares that rings cover, as a slab list: bands from the lowest on, each with its intervals
/// from left to right.
#[derive(Debug, Drop)]
pub struct SlabRegion {
    bands: Vec<Band>,
}

impl Model for SlabRegion {
    ghost use Rattle.std.specs.Prelude.{List, map};
    ghost use Rattle.lvl_sweep.specs.Slab.{Slab, IsSlabList};
    ghost use Rattle.lvl_sweep.specs.Bands.{slab_of};

    ghost Value = { List Slab };

    ghost view = { λ r. map slab_of r.bands.items };

    ghost invariant = { λ r. IsSlabList (map slab_of r.bands.items) };
}

/// The bands of a list, read one at a time.
#[derive(Drop)]
struct Listed<'a> {
    bands: &'a [Band],
}

impl Bands for Listed<'_> {
    ghost left = { λ l. map slab_of l.bands.now };

    fn band(&self) -> Option<&Band> {
        self.bands.first()
    }

    fn advance(&mut self) {
        if let Some((_, rest)) = self.bands.split_first() {
            self.bands = rest;
        }
    }
}

/// A copy of the band.
fn copied(alloc: Global, band: &Band) -> Result<Band, AllocError>
    ensures { IfOk result (λ copy. slab_of copy ≡ slab_of band.now) }
{
    let intervals = Vec::from_slice(alloc, &band.intervals)?;
    Ok(Band {
        y0: band.y0,
        y1: band.y1,
        intervals,
    })
}

/// All bands of a sweep.
fn collected(alloc: Global, mut sweep: Sweep) -> Result<Vec<Band>, AllocError>
    ensures { IfOk result (λ bands. map slab_of bands.items ≡ sweep) }
{
    let mut bands = Vec::new(alloc);
    while let Some(band) = sweep.band() {
        bands.push(copied(alloc, band)?)?;
        sweep.advance();
    }
    Ok(bands)
}

/// Whether the interval has the abscissa.
fn has_abscissa(interval: (i64, i64), x: i64) -> bool
    ensures { result ≡ spans x interval }
{
    interval.0 <= x && x < interval.1
}

/// Whether one of the intervals has the abscissa.
fn row_has(intervals: &[(i64, i64)], x: i64) -> bool
    ensures { result ≡ list_any (spans x) intervals.now }
{
    intervals.iter().any(|interval| has_abscissa(*interval, x))
}

/// Whether the band has the square.
fn has_square(band: &Band, square: Square) -> bool
    ensures { result ≡ slab_covers square (slab_of band.now) }
{
    band.y0 <= square.y && square.y < band.y1 && row_has(&band.intervals, square.x)
}

/// Whether one of the bands has the square.
fn some_has(bands: &[Band], square: Square) -> bool
    ensures { result ≡ list_any (λ b. slab_covers square (slab_of b)) bands.now }
{
    bands.iter().any(|band| has_square(band, square))
}

/// Whether the bands cover the square.
fn cover(bands: &[Band], square: Square) -> bool
    ensures { result ≡ slabs_cover (map slab_of bands.now) square }
{
    some_has(bands, square)
}

impl SlabRegion {
    /// Its bands, from the lowest on.
    pub fn bands(&self) -> &[Band]
        ensures all { map slab_of result.now ≡ self.now }
        ensures list { IsSlabList self.now }
    {
        &self.bands
    }
}

impl Region for SlabRegion {
    ghost holds = { λ r s. IsTrue (slabs_cover r s) };

    fn build(alloc: Global, rings: &[Ring]) -> Result<Self, AllocError>
        ensures covers { IfOk result
            (λ region. (s : GridSquare) → IsTrue (slabs_cover region s) ↔ SomeCovers rings.now s) }
        ensures list { IfOk result (λ region. AreBandsOf rings.now region) }
        ensures few_bands { IfOk result (λ region. AreFewerThanLines rings.now region) }
        ensures few_intervals { IfOk result (λ region. HaveFewIntervals rings.now region) }
    {
        let bands = collected(alloc, Sweep::new(alloc, &rings)?)?;
        Ok(SlabRegion { bands })
    }

    fn covers(&self, square: Square) -> bool {
        cover(&self.bands, square)
    }

    /// The least square, by `y` and then `x`, that only one of the two has, with its side, or None
    /// if both have the same squares, and then also the same bands.
    fn first_difference(&self, other: &Self) -> Option<(Square, Side)>
        ensures same { IfNone result
            ((s : GridSquare) → IsTrue (slabs_cover self.now s) ↔ IsTrue (slabs_cover other.now s)) }
        ensures equal { IfNone result (self.now ≡ other.now) }
        ensures differ { IfSome result (λ found. IsAlone
            (λ s. IsTrue (slabs_cover self.now s))
            (λ s. IsTrue (slabs_cover other.now s))
            found.0
            found.1) }
        ensures least { IfSome result (λ found. IsLeastAlone None self.now other.now found.0 found.1) }
    {
        let mut ours = Listed { bands: &self.bands };
        let mut theirs = Listed {
            bands: &other.bands,
        };
        walk_in_step(&mut ours, &mut theirs, None)
    }
}
