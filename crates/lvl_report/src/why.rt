//! The text of a reason: the chain of references and the ring that covers a square.
ghost use Rattle.std.specs.Prelude.{◌≡◌, ◌++◌, flat_map, OnOk};
ghost use Rattle.lvl_report.specs.Texts.{box_text, flip_text, map_text, of_all, reason_text, ring_text, step_line};
ghost use Rattle.lvl_report.specs.Texts.{turn_text, why_text};

use lvl::{NamedStep, PlacedRing, Why};
use lvl_grid::{Map, Turn};
use lvl_names::Layer;
use lvl_text::push_name;
use std::io;
use std::io::Write;

/// Appends the number of what has this index, counted from 1, and how many there are.
fn push_of(text: &mut Vec<u8>, index: u64, all: u64) -> io::Result<()>
    ensures { OnOk result (text.new.items ≡ text.old.items ++ of_all index all) }
{
    let number = u128::from(index) + 1;
    write!(text, "{number} of {all}")
}

/// A turn in degrees.
fn degrees(turn: Turn) -> &'static str
    ensures { result.now ≡ turn_text turn }
{
    match turn {
        Turn::R0 => "0",
        Turn::R90 => "90",
        Turn::R180 => "180",
        Turn::R270 => "270",
    }
}

fn flipped(flip: bool) -> &'static str
    ensures { result.now ≡ flip_text flip }
{
    if flip { " flipped" } else { "" }
}

/// Appends where a map puts the origin, and how it turns.
fn push_map(text: &mut Vec<u8>, map: &Map) -> io::Result<()>
    ensures { OnOk result (text.new.items ≡ text.old.items ++ map_text map.now) }
{
    let at = map.at;
    let (x, y) = (at.x, at.y);
    write!(text, ", at {x} {y} turned ")?;
    let (turn, flip) = (degrees(map.turn), flipped(map.flip));
    write!(text, "{turn}{flip}")
}

/// Appends the line of a step.
fn push_step(text: &mut Vec<u8>, named: &NamedStep) -> io::Result<()>
    ensures { OnOk result (text.new.items ≡ text.old.items ++ step_line named.now) }
{
    let step = named.step;
    write!(text, "why: reference ")?;
    push_of(text, step.reference as u64, step.references as u64)?;
    write!(text, " to")?;
    push_name(text, &named.cell)?;
    write!(text, ", place ")?;
    push_of(text, step.place, step.places)?;
    push_map(text, &step.map)?;
    writeln!(text)
}

/// Appends the line of each step.
fn push_steps(text: &mut Vec<u8>, steps: &[NamedStep]) -> io::Result<()>
    ensures { OnOk result (text.new.items ≡ text.old.items ++ flat_map step_line steps.now) }
{
    for named in steps {
        push_step(text, named)?;
    }
    Ok(())
}

/// Appends which ring of a cell covers the square.
fn push_ring(text: &mut Vec<u8>, ring: &PlacedRing) -> io::Result<()>
    ensures { OnOk result (text.new.items ≡ text.old.items ++ ring_text ring.now) }
{
    write!(text, "why: shape ")?;
    push_of(text, ring.shape as u64, ring.shapes as u64)?;
    write!(text, ", place ")?;
    push_of(text, ring.place, ring.places)?;
    write!(text, ", ring ")?;
    push_of(text, ring.ring as u64, ring.rings as u64)?;
    let Layer { layer, datatype } = ring.layer;
    write!(text, " on layer {layer} datatype {datatype}")
}

/// Appends the box of a ring.
fn push_box(text: &mut Vec<u8>, ring: &PlacedRing) -> io::Result<()>
    ensures { OnOk result (text.new.items ≡ text.old.items ++ box_text ring.now) }
{
    let (x0, y0) = (ring.low.x, ring.low.y);
    let (x1, y1) = (ring.high.x, ring.high.y);
    write!(text, ", box {x0} {y0} {x1} {y1}")
}

/// Appends a reason.
fn push_why(text: &mut Vec<u8>, why: &Why) -> io::Result<()>
    ensures { OnOk result (text.new.items ≡ text.old.items ++ why_text why.now) }
{
    write!(text, "why: cell")?;
    push_name(text, &why.top)?;
    writeln!(text)?;
    push_steps(text, &why.steps)?;
    push_ring(text, &why.ring)?;
    push_box(text, &why.ring)?;
    writeln!(text)
}

/// Appends a reason, if there is one.
pub(crate) fn push_reason(text: &mut Vec<u8>, why: &Option<Why>) -> io::Result<()>
    ensures { OnOk result (text.new.items ≡ text.old.items ++ reason_text why.now) }
{
    match why {
        Some(why) => push_why(text, why),
        None => Ok(()),
    }
}
