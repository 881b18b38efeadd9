//! The sweep: strips joined to bands.
ghost use Rattle.std.specs.Prelude.{◌≡◌, ◌≢◌, ◌≤◌, ◌+◌, ◌*◌, ◌∷◌, [], length, drop, IsTrue, false, Some, IfOk, IfSome};
ghost use Rattle.std.specs.Prelude.{IfNone};
ghost use Rattle.std.specs.Vec.{vec_len, vec_capacity};
ghost use Rattle.lvl_sweep.specs.inside.Alive.{HasSame};
ghost use Rattle.lvl_sweep.specs.inside.Rows.{row_at, bands_from};
ghost use Rattle.lvl_sweep.specs.inside.Strips.{IsAt, IsTop, IsOver};
ghost use Rattle.lvl_sweep.specs.Bands.{slab_of, AreBandsOf, AreFewerThanLines, HaveFewIntervals};
ghost use Rattle.lvl_sweep.specs.inside.Sweeps.{IsHeld, IsRead};

use crate::band::Band;
use crate::rows::are_same;
use crate::strips::Strips;
use lvl_grid::RingList;
use std::alloc::{AllocError, Global};
use std::marker::Model;
use std::mem;

/// The bands of what rings cover, one at a time, from the lowest on.
///
/// A sweep has the vertical edges of the rings, one count for each ring, one band, and the row above
/// that band, so that no row is walked twice. It allocates only when it is made.
#[derive(Debug, Drop)]
pub struct Sweep {
    strips: Strips,
    band: Band,
    /// The intervals of the strip.
    row: Vec<(i64, i64)>,
    is_held: bool,
}

impl Model for Sweep {
    ghost use Rattle.std.specs.Prelude.{List};
    ghost use Rattle.lvl_sweep.specs.Slab.{Slab};
    ghost use Rattle.lvl_sweep.specs.inside.Sweeps.{bands_of, IsSweep};

    ghost Value = { List Slab };

    ghost view = { λ s. bands_of s.strips s.band s.is_held };

    ghost invariant = { λ s. IsSweep s.strips s.band s.row };
}

/// Goes on to the first strip that has intervals, and returns where it ends. None if there is no
/// such strip.
fn find_row(strips: &mut Strips, row: &mut Vec<(i64, i64)>) -> Option<i64>
    requires at { IsAt strips.old }
    requires read { IsRead strips.old row.old }
    ensures at { IsAt strips.new }
    ensures read { IsRead strips.new row.new }
    ensures edges { HasSame strips.old.edges.items strips.new.edges.items }
    ensures skipped { bands_from strips.old.edges.items (Some strips.old.y)
        ≡ bands_from strips.new.edges.items (Some strips.new.y) }
    ensures top { IfSome result (λ t. IsTop strips.new t) }
    ensures some { IfSome result (λ _. row.new.items ≢ []) }
    ensures over { IfNone result (IsOver strips.new) }
    ensures capacity { vec_capacity row.new ≡ vec_capacity row.old }
{
    loop {
        let top = strips.top()?;
        if !row.is_empty() {
            return Some(top);
        }
        strips.load(top);
        strips.collect(row);
    }
}

/// Lengthens the band by the strips above it that have the same intervals.
fn lengthen(strips: &mut Strips, band: &mut Band, row: &mut Vec<(i64, i64)>)
    requires at { IsAt strips.old }
    requires read { IsRead strips.old row.old }
    requires held { IsHeld strips.old.edges.items band.old strips.old.y }
    ensures at { IsAt strips.new }
    ensures read { IsRead strips.new row.new }
    ensures edges { HasSame strips.old.edges.items strips.new.edges.items }
    ensures held { IsHeld strips.new.edges.items band.new strips.new.y }
    ensures stops { row_at strips.new.edges.items strips.new.y ≢ band.new.intervals.items }
    ensures low { band.new.y0 ≡ band.old.y0 }
    ensures intervals { band.new.intervals ≡ band.old.intervals }
    ensures capacity { vec_capacity row.new ≡ vec_capacity row.old }
{
    while are_same(row, &band.intervals) {
        let Some(top) = strips.top() else {
            return;
        };
        band.y1 = top;
        strips.load(top);
        strips.collect(row);
    }
}

/// Makes `band` the next band, and goes on to the strip above it, whose intervals are then those of
/// `row`. Returns false if there is no band. The two lists of intervals may change places.
fn settle(strips: &mut Strips, band: &mut Band, row: &mut Vec<(i64, i64)>) -> bool
    requires at { IsAt strips.old }
    requires read { IsRead strips.old row.old }
    requires few { 2 * vec_len band.old.intervals ≤ length strips.old.edges.items }
    requires room { length strips.old.edges.items ≤ 2 * vec_capacity band.old.intervals + 1 }
    ensures at { IsAt strips.new }
    ensures read { IsRead strips.new row.new }
    ensures edges { HasSame strips.old.edges.items strips.new.edges.items }
    ensures next { IsTrue result
        → bands_from strips.old.edges.items (Some strips.old.y)
        ≡ slab_of band.new ∷ bands_from strips.new.edges.items (Some strips.new.y) }
    ensures none { result ≡ false → bands_from strips.old.edges.items (Some strips.old.y) ≡ [] }
    ensures few { 2 * vec_len band.new.intervals ≤ length strips.new.edges.items }
    ensures room { length strips.new.edges.items ≤ 2 * vec_capacity band.new.intervals + 1 }
    ensures capacity { vec_capacity band.new.intervals + vec_capacity row.new
        ≡ vec_capacity band.old.intervals + vec_capacity row.old }
{
    let Some(top) = find_row(strips, row) else {
        return false;
    };
    mem::swap(&mut band.intervals, row);
    band.y0 = strips.y;
    band.y1 = top;
    strips.load(top);
    strips.collect(row);
    lengthen(strips, band, row);
    true
}

impl Sweep {
    /// A sweep over the squares that at least one of the rings covers. Fails only if out of memory;
    /// all memory is allocated here.
    pub fn new<R: RingList>(alloc: Global, rings: &R) -> Result<Sweep, AllocError>
        ensures bands { IfOk result (λ sweep. AreBandsOf (R.rings rings.now) sweep) }
        ensures few_bands { IfOk result (λ sweep. AreFewerThanLines (R.rings rings.now) sweep) }
        ensures few_intervals { IfOk result (λ sweep. HaveFewIntervals (R.rings rings.now) sweep) }
    {
        let mut strips = Strips::new(alloc, rings)?;
        let most = strips.edges.len() / 2;
        let mut band = Band {
            y0: 0,
            y1: 0,
            intervals: Vec::with_capacity(alloc, most)?,
        };
        let mut row = Vec::with_capacity(alloc, most)?;
        strips.collect(&mut row);
        let is_held = settle(&mut strips, &mut band, &mut row);
        Ok(Sweep {
            strips,
            band,
            row,
            is_held,
        })
    }

    /// The first of the bands still to come, or None if there is none.
    pub fn band(&self) -> Option<&Band>
        ensures first { IfSome result (λ band. self.now ≡ slab_of band.now ∷ drop 1 self.now) }
        ensures none { IfNone result (self.now ≡ []) }
    {
        if self.is_held { Some(&self.band) } else { None }
    }

    /// Drops the first of the bands still to come, if there is one.
    pub fn advance(&mut self)
        ensures { self.new ≡ drop 1 self.old }
    {
        if self.is_held {
            self.is_held = settle(&mut self.strips, &mut self.band, &mut self.row);
        }
    }
}
