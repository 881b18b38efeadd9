//! Twins: which shapes of two lists may be the same.
//!
//! They only guide a search, so no contract says which they are: what they lead to is compared.
ghost use Rattle.std.specs.Prelude.{◌<◌, length, IsTrue};
ghost use Rattle.lvl_cells.specs.Cells.{shape_at};

use crate::figures::Seen;
use crate::slots::{Look, Table};
use lvl_cells::Shapes;
use std::alloc::{AllocError, Global};
use std::hash::{FoldHasher, Hasher};

/// No shape.
const NONE: u32 = u32::MAX;

/// How many shapes are looked up together, since each looked up by itself would wait for the memory.
const TOGETHER: usize = 64;

/// The number of shapes of the first list that are looked for in the second by a sample.
const SAMPLED: u64 = 128;

/// Of so few shapes no sample is taken: it would take almost as long as to look for all.
const FEW: usize = 1_024;

/// The number of bits that tell most keys from those of the sampled shapes.
const BITS: u64 = 4096;

/// For each shape of two lists, by index, the shape of the other list that may be the same.
#[derive(Drop)]
pub(crate) struct Twins {
    pub ours: Vec<u32>,
    pub theirs: Vec<u32>,
}

/// Shapes of two lists by their keys, while twins are looked for. Of the first list, the first shape with a key
/// represents all that have it.
#[derive(Drop)]
struct Classes {
    table: Table,
    /// For each shape of the first list that represents a key, the first shape of the second list that has it.
    found: Vec<u32>,
}

/// The number at an index, or `NONE`.
fn at(list: &[u32], index: usize) -> u32 {
    list.get(index).copied().unwrap_or(NONE)
}

/// The index in 32 bits, or `NONE`.
fn word(index: usize) -> u32 {
    u32::try_from(index).unwrap_or(NONE)
}

/// The twin of the shape at an index, if it has one.
pub(crate) fn twin_at(twins: &[u32], index: usize) -> Option<usize> {
    match at(twins, index) {
        NONE => None,
        twin => Some(twin as usize),
    }
}

/// Whether the list has a shape at an index that has rings.
fn has_rings(shapes: &Shapes, j: usize) -> bool
    ensures { IsTrue result → (j < length shapes.now) × (0 < length (shape_at shapes.now j).figure) }
{
    j < shapes.len() && shapes.ring_count(j) > 0
}

/// Whether the list has a shape at an index with a ring that begins to the left of the greatest abscissa.
fn begins_within(shapes: &Shapes, j: usize) -> bool {
    if !has_rings(shapes, j) {
        return false;
    }
    match shapes.ring(j, 0).get(0) {
        Some(point) => point.x < i64::MAX,
        None => false,
    }
}

/// The twins of some shapes that follow one another, which are looked at together: each looked at by itself would wait
/// for the memory.
#[derive(Drop)]
pub(crate) struct Near([Option<usize>; TOGETHER]);

impl Near {
    /// No twins.
    pub(crate) fn none() -> Near {
        Near([None; TOGETHER])
    }

    /// The twin of the shape at an index, if it has one. The shapes are to be asked for in their order.
    pub(crate) fn twin(&mut self, others: Seen<'_>, twins: &[u32], index: usize) -> Option<usize> {
        if index % TOGETHER == 0 {
            self.look(others, twins, index);
            self.look_further(others);
        }
        self.0[index % TOGETHER]
    }

    /// Looks where the twins of the shapes from an index on are kept.
    fn look(&mut self, others: Seen<'_>, twins: &[u32], from: usize) {
        for k in 0..TOGETHER {
            let twin = twin_at(twins, from.saturating_add(k));
            self.0[k] = twin.filter(|twin| has_rings(others.shapes, *twin));
        }
    }

    /// Looks where the rings of these twins begin. Almost every twin passes this: it is asked so that it is looked at.
    fn look_further(&mut self, others: Seen<'_>) {
        for k in 0..TOGETHER {
            self.0[k] = self.0[k].filter(|twin| begins_within(others.shapes, *twin));
        }
    }
}

impl Classes {
    fn new(alloc: Global, count: usize) -> Result<Classes, AllocError> {
        Ok(Classes {
            table: Table::with_room(alloc, count)?,
            found: vec![in alloc; NONE; count]?,
        })
    }

    /// Adds a shape of the first list. Returns the one that represents its key, which may have been found before.
    fn add(&mut self, key: u64, shape: usize, found: Option<usize>) -> u32 {
        let before = match found {
            Some(first) => Some(first),
            None => self.table.put(key, shape),
        };
        word(before.unwrap_or(shape))
    }

    /// Adds a shape of the second list. Returns the one of the first list that represents its key, if there is one,
    /// which may have been found before.
    fn join(&mut self, key: u64, shape: usize, found: Option<usize>) -> u32 {
        let there = match found {
            Some(first) => Some(first),
            None => self.table.find(key),
        };
        let Some(first) = there else {
            return NONE;
        };
        if let Some(found) = self.found.get_mut(first) {
            *found = word(shape).min(*found);
        }
        word(first)
    }
}

/// The keys of the shapes of a list from an index on, of as many as are looked up together.
fn keys_from(seen: Seen<'_>, start: usize) -> [u64; TOGETHER] {
    let mut keys = [0; TOGETHER];
    for k in 0..TOGETHER {
        let shape = start.saturating_add(k);
        if shape < seen.shapes.len() {
            keys[k] = seen.key(shape);
        }
    }
    keys
}

/// What is found of these shapes before any of them is added.
fn looks_from(table: &Table, keys: &[u64; TOGETHER]) -> [Look; TOGETHER] {
    let mut looks = [Look::NOTHING; TOGETHER];
    table.look(keys, &mut looks);
    looks
}

/// How many times shapes are looked up together.
fn rounds(seen: Seen<'_>) -> usize {
    (seen.shapes.len() / TOGETHER).saturating_add(1)
}

/// Adds the shapes of the first list. Returns for each the one that represents its key.
fn add_all(alloc: Global, classes: &mut Classes, ours: Seen<'_>) -> Result<Vec<u32>, AllocError> {
    let mut firsts = Vec::with_capacity(alloc, ours.shapes.len())?;
    for round in 0..rounds(ours) {
        let start = round.saturating_mul(TOGETHER);
        let keys = keys_from(ours, start);
        let looks = looks_from(&classes.table, &keys);
        for k in 0..TOGETHER {
            let shape = start.saturating_add(k);
            if shape < ours.shapes.len() {
                firsts.push(classes.add(keys[k], shape, looks[k].shape()))?;
            }
        }
    }
    Ok(firsts)
}

/// Adds the shapes of the second list. Returns for each the one of the first list that represents its key.
fn join_all(
    alloc: Global,
    classes: &mut Classes,
    theirs: Seen<'_>,
) -> Result<Vec<u32>, AllocError> {
    let mut firsts = Vec::with_capacity(alloc, theirs.shapes.len())?;
    for round in 0..rounds(theirs) {
        let start = round.saturating_mul(TOGETHER);
        let keys = keys_from(theirs, start);
        let looks = looks_from(&classes.table, &keys);
        for k in 0..TOGETHER {
            let shape = start.saturating_add(k);
            if shape < theirs.shapes.len() {
                firsts.push(classes.join(keys[k], shape, looks[k].shape()))?;
            }
        }
    }
    Ok(firsts)
}

/// The twins of the shapes of two lists. Shapes that a list has more than once have one twin.
pub(crate) fn twins_of(
    alloc: Global,
    ours: Seen<'_>,
    theirs: Seen<'_>,
) -> Result<Twins, AllocError> {
    let mut classes = Classes::new(alloc, ours.shapes.len())?;
    let mut our_twins = add_all(alloc, &mut classes, ours)?;
    let their_twins = join_all(alloc, &mut classes, theirs)?;
    for twin in &mut our_twins {
        *twin = at(&classes.found, *twin as usize);
    }
    Ok(Twins {
        ours: our_twins,
        theirs: their_twins,
    })
}

/// A number below `count` that looks like one at random, the same in each run.
fn scattered(number: u64, count: usize) -> usize {
    let mut hasher = FoldHasher::default();
    hasher.write_u64(number);
    let product = u128::from(hasher.finish()).saturating_mul(count as u128);
    (product >> 64) as usize
}

/// The keys of some shapes, sorted.
fn sampled_keys(alloc: Global, seen: Seen<'_>) -> Result<Vec<u64>, AllocError> {
    let mut keys = Vec::new(alloc);
    let count = seen.shapes.len();
    for number in 0..SAMPLED {
        let shape = scattered(number, count);
        if shape < count {
            keys.push(seen.key(shape))?;
        }
    }
    keys.sort_unstable();
    Ok(keys)
}

/// How many shapes have one of these keys, which are sorted.
fn found_keys(alloc: Global, seen: Seen<'_>, keys: &[u64]) -> Result<usize, AllocError> {
    let mut bits: Vec<bool> = vec![in alloc; false; BITS as usize]?;
    for key in keys {
        if let Some(bit) = bits.get_mut((*key % BITS) as usize) {
            *bit = true;
        }
    }
    let mut found: usize = 0;
    for j in 0..seen.shapes.len() {
        let key = seen.key(j);
        if bits.get((key % BITS) as usize) == Some(&true) && keys.binary_search(&key).is_ok() {
            found = found.saturating_add(1);
        }
    }
    Ok(found)
}

/// Whether the second list may have half of the shapes of the first: if they aren't few, a sample says so.
pub(crate) fn have_many(
    alloc: Global,
    ours: Seen<'_>,
    theirs: Seen<'_>,
) -> Result<bool, AllocError> {
    if ours.shapes.len().max(theirs.shapes.len()) <= FEW {
        return Ok(true);
    }
    let keys = sampled_keys(alloc, ours)?;
    let found = found_keys(alloc, theirs, &keys)?;
    Ok(found.saturating_mul(2) as u64 >= SAMPLED)
}

/// How many shapes of both lists have no twin.
pub(crate) fn count_alone(twins: &Twins) -> usize {
    let ours = twins.ours.iter().filter(|twin| **twin == NONE).count();
    ours.saturating_add(twins.theirs.iter().filter(|twin| **twin == NONE).count())
}
