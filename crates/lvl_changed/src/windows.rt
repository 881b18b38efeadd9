//! A few windows that together have all squares of some set, and possibly more.
ghost use Rattle.std.specs.Prelude.{◌<◌, ◌≤◌, ◌+◌, IsTrue, IfOk, IfSome, OnOk, Contains, vec_len};
ghost use Rattle.lvl_grid.specs.declared.point.Point.{Point as GridPoint};
ghost use Rattle.lvl_grid.specs.declared.point.Square.{Square};
ghost use Rattle.lvl_grid.specs.Clip.{IsInWindow};
ghost use Rattle.lvl_grid.specs.Turn.{image_square};
ghost use Rattle.lvl_names.specs.declared.layer.Layer.{Layer};
ghost use Rattle.lvl_cells.specs.Cells.{map_at};
ghost use Rattle.lvl_flat.specs.Flattened.{CoversAt};
ghost use Rattle.lvl_compare.specs.Parts.{SomeHas};
ghost use Rattle.lvl_changed.specs.inside.Arrays.{as_reference, each_place, HasEach};
ghost use Rattle.lvl_changed.specs.inside.Placements.{PlacedCover};
ghost use Rattle.lvl_changed.specs.inside.Windows.{Has, HasPlaced, Widens};

use crate::arrays::Array;
use crate::closeness::{along, are_dense, cost_of_joining, meet, spread_across, squares_of};
use crate::corners::{between, high_corner, low_corner, spot};
use crate::shifts::moved;
use lvl_flat::Fitted;
use lvl_grid::{Map, Window};
use std::alloc::{AllocError, Global};

/// The greatest number of windows that are kept where many squares may differ.
pub(crate) const MOST_WINDOWS: usize = 64;

/// The greatest number of places of an array at which windows are placed one by one.
const MOST_PLACES: u64 = 4096;

/// A set of squares: some windows, or the whole grid if `anywhere` is set. Windows that share a
/// square are joined when one is added. If there are more than twice `most`, they are reduced to
/// `most`, or to one.
#[derive(Drop)]
pub(crate) struct Windows {
    list: Vec<Window>,
    most: usize,
    anywhere: bool,
}

/// Whether the window has no squares.
fn has_no_square(window: Window) -> bool
    ensures { IsTrue result → (s : Square) → ¬ IsInWindow window s }
{
    window.x0 >= window.x1 || window.y0 >= window.y1
}

/// The image of a window, or None if a corner of it is outside 64 signed bits.
fn placed(window: &Window, map: &Map) -> Option<Window>
    ensures { IfSome result
        (λ placed. (s : Square) → IsInWindow window.now s → IsInWindow placed (image_square map.now s)) }
{
    let low = map.place(low_corner(window))?;
    let high = map.place(high_corner(window))?;
    Some(spot(low).joined(spot(high)))
}

/// A window that has the images of a window at all places of the array, or None if it would leave
/// 64 signed bits.
fn everywhere(window: &Window, array: &Array) -> Option<Window>
    ensures { IfSome result (λ all. HasEach array.now window.now (IsInWindow all)) }
{
    let first = placed(window, &array.by)?;
    let (least, greatest) = array.shifts.reach();
    let low = moved(low_corner(&first), least)?;
    let high = moved(high_corner(&first), greatest)?;
    Some(between(low, high))
}

impl Windows {
    /// The empty set. If more than twice `most` windows are added, some are joined.
    pub(crate) fn none(alloc: Global, most: usize) -> Windows {
        Windows {
            list: Vec::new(alloc),
            most,
            anywhere: false,
        }
    }

    /// Whether the set has no squares.
    pub(crate) fn is_empty(&self) -> bool
        ensures { IsTrue result → (s : Square) → ¬ Has self.now s }
    {
        !self.anywhere && self.list.is_empty()
    }

    /// The number of squares of the windows together, or the greatest number if the set is the whole grid.
    pub(crate) fn squares(&self) -> u128 {
        if self.anywhere {
            return u128::MAX;
        }
        squares_of(&self.list)
    }

    /// At most `most` windows, and at least one, unless the set has no squares, in the order of the axis on
    /// which they spread most; one if they have most squares of their hull. None if it is the whole grid.
    pub(crate) fn into_list(self) -> Option<Vec<Window>>
        ensures { IfSome result (λ list. (s : Square) → Has self s → SomeHas list.items s) }
    {
        let most = self.most;
        let mut reduced = self;
        reduced.reduce(most);
        reduced.condense();
        if reduced.anywhere {
            return None;
        }
        let across = spread_across(&reduced.list);
        reduced
            .list
            .sort_unstable_by_key(|window| along(window, across));
        Some(reduced.list)
    }

    /// The windows of a copy, as [`Windows::into_list`] gives them.
    pub(crate) fn copied(&self, alloc: Global) -> Result<Option<Vec<Window>>, AllocError>
        ensures { IfOk result (λ copied. IfSome copied
            (λ list. (s : Square) → Has self.now s → SomeHas list.items s)) }
    {
        let copy = Windows {
            list: Vec::from_slice(alloc, &self.list)?,
            most: self.most,
            anywhere: self.anywhere,
        };
        Ok(copy.into_list())
    }

    /// Makes the set the whole grid.
    pub(crate) fn hold_anywhere(&mut self)
        ensures { (s : Square) → Has self.new s }
    {
        self.anywhere = true;
    }

    /// The index of a window that shares a square with the given one.
    fn met(&self, window: Window) -> Option<usize>
        ensures { IfSome result (λ i. i < vec_len self.now.list) }
    {
        for i in 0..self.list.len() {
            if meet(self.list[i], window) {
                return Some(i);
            }
        }
        None
    }

    /// Adds a window, unless it has no squares. It is joined with windows that share a square with
    /// it.
    fn add(&mut self, window: Window) -> Result<(), AllocError>
        ensures held { OnOk result ((s : Square) → IsInWindow window s → Has self.new s) }
        ensures kept { OnOk result (Widens self.old self.new) }
    {
        if has_no_square(window) {
            return Ok(());
        }
        let mut whole = window;
        while let Some(i) = self.met(whole) {
            let other = self.list.swap_remove(i);
            whole = whole.joined(other);
        }
        self.list.push(whole)?;
        Ok(())
    }

    /// The index of a window that is joined with the next at the least cost, or None if there is no
    /// next one.
    fn closest(&self) -> Option<usize>
        ensures { IfSome result (λ i. i + 1 < vec_len self.now.list) }
    {
        let mut closest = None;
        let mut least = u128::MAX;
        for i in 1..self.list.len() {
            let cost = cost_of_joining(self.list[i - 1], self.list[i]);
            if closest.is_none() || cost < least {
                closest = Some(i - 1);
                least = cost;
            }
        }
        closest
    }

    /// Joins a window with the next.
    fn join_next(&mut self, i: usize)
        requires { i + 1 < vec_len self.old.list }
        ensures kept { Widens self.old self.new }
        ensures fewer { vec_len self.new.list < vec_len self.old.list }
    {
        let next = self.list.remove(i + 1);
        self.list[i] = self.list[i].joined(next);
    }

    /// Whether a window is to be joined with the next: if there are too many, if that costs at most
    /// this, and if the next wasn't the last that was joined.
    fn is_close(&self, i: usize, joined: usize, most_cost: u128) -> bool
        requires { i + 1 < vec_len self.now.list }
    {
        if self.list.len() <= self.most || i + 1 == joined {
            return false;
        }
        cost_of_joining(self.list[i], self.list[i + 1]) <= most_cost
    }

    /// Joins windows with the next where that costs at most this, from right to left, until there are
    /// at most `most`. None is joined twice.
    fn join_at(&mut self, most_cost: u128)
        ensures kept { Widens self.old self.new }
        ensures fewer { vec_len self.new.list ≤ vec_len self.old.list }
    {
        let mut joined = self.list.len();
        for i in (0..self.list.len()).rev() {
            if i + 1 < self.list.len() && self.is_close(i, joined, most_cost) {
                self.join_next(i);
                joined = i;
            }
        }
    }

    /// If there are more than `limit` windows, joins some until there are at most `most`: those that
    /// follow one another from left to right and cost least, and with them those that cost at most
    /// twice that.
    fn reduce(&mut self, limit: usize)
        ensures { Widens self.old self.new }
    {
        if self.list.len() <= limit {
            return;
        }
        self.list
            .sort_unstable_by_key(|window| (window.x0, window.y0));
        while self.list.len() > self.most {
            let Some(i) = self.closest() else {
                return;
            };
            let least = cost_of_joining(self.list[i], self.list[i + 1]);
            self.join_next(i);
            self.join_at(least.saturating_mul(2));
        }
    }

    /// Joins all windows if they have most of the squares of their hull: to search that once costs less.
    fn condense(&mut self)
        ensures { Widens self.old self.new }
    {
        if !are_dense(&self.list) {
            return;
        }
        while self.list.len() > 1 {
            self.join_next(0);
        }
    }

    /// Adds a window, unless it has no squares. Of twice as many windows as are kept, some are
    /// joined.
    pub(crate) fn hold(&mut self, window: Window) -> Result<(), AllocError>
        ensures held { OnOk result ((s : Square) → IsInWindow window s → Has self.new s) }
        ensures kept { OnOk result (Widens self.old self.new) }
    {
        self.add(window)?;
        let most = self.most.saturating_mul(2);
        self.reduce(most);
        Ok(())
    }

    /// Adds the image of a window.
    fn hold_placed(&mut self, window: &Window, map: &Map) -> Result<(), AllocError>
        ensures held { OnOk result
            ((s : Square) → IsInWindow window.now s → Has self.new (image_square map.now s)) }
        ensures kept { OnOk result (Widens self.old self.new) }
    {
        match placed(window, map) {
            Some(window) => self.hold(window),
            None => {
                self.hold_anywhere();
                Ok(())
            }
        }
    }

    /// Adds the images of other windows.
    fn hold_all_placed(&mut self, held: &Windows, map: &Map) -> Result<(), AllocError>
        ensures held { OnOk result (HasPlaced map.now held.now self.new) }
        ensures kept { OnOk result (Widens self.old self.new) }
    {
        if held.anywhere {
            self.hold_anywhere();
            return Ok(());
        }
        for window in &held.list {
            self.hold_placed(window, map)?;
        }
        Ok(())
    }

    /// Adds one window that has the images of a window at all places of the array.
    fn hold_everywhere(&mut self, window: &Window, array: &Array) -> Result<(), AllocError>
        ensures held { OnOk result (HasEach array.now window.now (Has self.new)) }
        ensures kept { OnOk result (Widens self.old self.new) }
    {
        match everywhere(window, array) {
            Some(window) => self.hold(window),
            None => {
                self.hold_anywhere();
                Ok(())
            }
        }
    }

    /// Adds for each other window one that has its images at all places of the array.
    fn hold_all_everywhere(&mut self, held: &Windows, array: &Array) -> Result<(), AllocError>
        ensures held { OnOk result ((e : GridPoint) → Contains array.now.shifts e
            → HasPlaced (map_at (as_reference array.now) e) held.now self.new) }
        ensures kept { OnOk result (Widens self.old self.new) }
    {
        if held.anywhere {
            self.hold_anywhere();
            return Ok(());
        }
        for window in &held.list {
            self.hold_everywhere(window, array)?;
        }
        Ok(())
    }

    /// Adds the images of other windows at each place of the array. If there are more than
    /// [`MOST_PLACES`], one window has all images of each.
    pub(crate) fn hold_places(&mut self, held: &Windows, array: &Array) -> Result<(), AllocError>
        ensures held { OnOk result ((e : GridPoint) → Contains array.now.shifts e
            → HasPlaced (map_at (as_reference array.now) e) held.now self.new) }
        ensures kept { OnOk result (Widens self.old self.new) }
    {
        if held.is_empty() {
            return Ok(());
        }
        if array.shifts.len() > MOST_PLACES {
            return self.hold_all_everywhere(held, array);
        }
        for k in 0..array.shifts.len() {
            let Some(map) = array.place(k) else {
                self.hold_anywhere();
                return Ok(());
            };
            self.hold_all_placed(held, &map)?;
        }
        Ok(())
    }

    /// Adds a window that has all that an array covers.
    pub(crate) fn hold_array(&mut self, library: &Fitted, array: &Array) -> Result<(), AllocError>
        ensures held { OnOk result ((layer : Layer) (s : Square) → ¬ Has self.new s
            → ¬ PlacedCover library.now.cells (each_place array.now) layer s) }
        ensures kept { OnOk result (Widens self.old self.new) }
    {
        match library.extent_of(array.cell) {
            Some(window) => self.hold_everywhere(&window, array),
            None => {
                self.hold_anywhere();
                Ok(())
            }
        }
    }

    /// Adds a window that has all squares that a cell covers.
    pub(crate) fn hold_cell(&mut self, library: &Fitted, cell: usize) -> Result<(), AllocError>
        ensures held { OnOk result
            ((layer : Layer) (s : Square) → CoversAt library.now.cells cell layer s → Has self.new s) }
        ensures kept { OnOk result (Widens self.old self.new) }
    {
        match library.extent_of(cell) {
            Some(window) => self.hold(window),
            None => {
                self.hold_anywhere();
                Ok(())
            }
        }
    }

    /// Adds a window that has all squares that a cell covers, placed by the map.
    pub(crate) fn hold_placed_cell(
        &mut self,
        library: &Fitted,
        cell: usize,
        map: &Map,
    ) -> Result<(), AllocError>
        ensures held { OnOk result ((layer : Layer) (s : Square)
            → CoversAt library.now.cells cell layer s → Has self.new (image_square map.now s)) }
        ensures kept { OnOk result (Widens self.old self.new) }
    {
        match library.extent_of(cell) {
            Some(window) => self.hold_placed(&window, map),
            None => {
                self.hold_anywhere();
                Ok(())
            }
        }
    }
}
