//! The bands of a path, or why its points aren't one.
ghost use Rattle.std.specs.Prelude.{◌≡◌, ◌<◌, ◌+◌, ◌≤◌, ◌↔◌, ◌-ℤ◌, unsigned_abs, length, IsTrue, IfOk, IfErr, Any};
ghost use Rattle.lvl_grid.specs.declared.point.Square.{Square as GridSquare};
ghost use Rattle.lvl_grid.specs.Winding.{Covers};
ghost use Rattle.lvl_path.specs.Runs.{HasFault, PathCovers, path_rings, run_length, runs, IsPath, IsLowestFault};
ghost use Rattle.lvl_refusal.specs.Refused.{Says};

use crate::PathFault;
use crate::band::Reach;
use crate::steps::{has_oblique_step, has_repeated_point, is_corner, turns_back};
use lvl_grid::{Point, Ring};
use lvl_refusal::Cause;
use std::alloc::Global;

/// The bands of a path's runs, in the order of the runs, each as a ring: lower left, lower right,
/// upper right, upper left. A band reaches `half` grid steps to both sides of its run and beyond a
/// corner of the path. Beyond the path's ends it reaches `start` and `end` grid steps (own rule).
///
/// A breach is the fault of lowest number that the path has.
pub fn bands(
    alloc: Global,
    points: &[Point],
    half: u64,
    start: u64,
    end: u64,
) -> Result<Vec<Ring>, Cause<PathFault>>
    ensures rings { IfOk result (λ rings.
        rings.items ≡ path_rings points.now (record { half = half; start = start; end = end })) }
    ensures covers { IfOk result (λ rings. (s : GridSquare) → Any (λ ring. Covers ring s) rings.items
        ↔ PathCovers points.now (record { half = half; start = start; end = end }) s) }
    ensures ok { IfOk result (λ _. IsPath points.now (record { half = half; start = start; end = end })) }
    ensures err { IfErr result (λ refusal.
        Says refusal (IsLowestFault points.now (record { half = half; start = start; end = end }))) }
{
    if half == 0 {
        return Err(Cause::Breach(PathFault::NoWidth));
    }
    if points.len() < 2 {
        return Err(Cause::Breach(PathFault::FewPoints));
    }
    if has_oblique_step(points) {
        return Err(Cause::Breach(PathFault::Oblique));
    }
    if has_repeated_point(points) {
        return Err(Cause::Breach(PathFault::RepeatedPoint));
    }
    if turns_back(points) {
        return Err(Cause::Breach(PathFault::TurnsBack));
    }
    let runs = measure_runs(points, half);
    if runs.count > 1 && runs.some_short {
        return Err(Cause::Breach(PathFault::ShortRun));
    }
    run_bands(alloc, points, &Reach { half, start, end }, runs.count)
}

/// The number of runs of a path, and whether one of them is shorter than half its width.
#[derive(Clone, Copy)]
struct Measured {
    count: usize,
    some_short: bool,
}

fn measure_runs(points: &[Point], half: u64) -> Measured
    requires { 2 ≤ length points.now }
    ensures count { result.count ≡ length (runs points.now) }
    ensures short { IsTrue result.some_short ↔ Any (λ run. run_length points.now run < half) (runs points.now) }
{
    let mut measured = Measured {
        count: 0,
        some_short: false,
    };
    let mut from = 0;
    for to in 1..points.len() {
        if !is_corner(points, to) {
            continue;
        }
        measured = Measured {
            count: measured.count + 1,
            some_short: measured.some_short | is_short(points[from], points[to], half),
        };
        from = to;
    }
    measured
}

/// Whether the straight run between the points is shorter than `half`.
fn is_short(from: Point, to: Point, half: u64) -> bool
    ensures { IsTrue result ↔ (unsigned_abs (to.x -ℤ from.x) + unsigned_abs (to.y -ℤ from.y) < half) }
{
    u128::from(to.x.abs_diff(from.x)) + u128::from(to.y.abs_diff(from.y)) < u128::from(half)
}

/// The bands of the runs as rings. `count` is the number of runs, for which room is reserved.
fn run_bands(
    alloc: Global,
    points: &[Point],
    reach: &Reach,
    count: usize,
) -> Result<Vec<Ring>, Cause<PathFault>>
    requires { 2 ≤ length points.now }
    ensures ok { IfOk result (λ rings. rings.items ≡ path_rings points.now reach.now) }
    ensures fits { IfOk result (λ _. ¬ HasFault points.now reach.now PathFault.OutOfRange) }
    ensures err { IfErr result (λ refusal.
        Says refusal (λ fault. (fault ≡ PathFault.OutOfRange) × HasFault points.now reach.now fault)) }
{
    let mut rings = Vec::with_capacity(alloc, count)?;
    let mut from = 0;
    for to in 1..points.len() {
        if !is_corner(points, to) {
            continue;
        }
        let ring = reach.band(points, from, to).ring(alloc)?;
        rings.push(ring)?;
        from = to;
    }
    Ok(rings)
}
