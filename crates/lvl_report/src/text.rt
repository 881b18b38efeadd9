//! The text of an answer: two heads and a verdict, what is shown of a layout, or a refusal.
ghost use Rattle.std.specs.Prelude.{◌≡◌, ◌++◌, Some, flat_map, OnOk, IfOk};
ghost use Rattle.lvl_report.specs.Texts.{answer_text, layer_line, line, side_text};
ghost use Rattle.lvl_report.specs.Texts.{verdict_text, head_text, file_fault, refusal_text};
ghost use Rattle.lvl_report.specs.Texts.{front_text, shown_text, text_of, text_of_shown};

use crate::why::push_reason;
use lvl::{Answer, FileFault, Head, Judged, Refusal, Shown, Verdict};
use lvl_count::LayerRings;
use lvl_grid::Square;
use lvl_names::Layer;
use lvl_region::Side;
use lvl_text::{
    push_cell_fault, push_flat_fault, push_gds_fault, push_gds_head, push_name, push_oasis_fault,
    push_oasis_head,
};
use std::alloc::{AllocError, Global};
use std::io;
use std::io::Write;

pub(crate) fn side_name(side: Side) -> &'static str
    ensures { result.now ≡ side_text side }
{
    match side {
        Side::First => "first",
        Side::Second => "second",
    }
}

/// Appends a verdict.
fn push_verdict(text: &mut Vec<u8>, verdict: &Verdict) -> io::Result<()>
    ensures { OnOk result (text.new.items ≡ text.old.items ++ verdict_text verdict.now) }
{
    match verdict {
        Verdict::Same => write!(text, "same"),
        Verdict::Differ {
            layer,
            square,
            side,
        } => {
            let Layer { layer, datatype } = *layer;
            let Square { x, y } = *square;
            let side = side_name(*side);
            write!(
                text,
                "differ: layer {layer} datatype {datatype} square {x} {y} only in {side}"
            )
        }
    }
}

/// Appends why a file wasn't read: the format, the fault, and the offset in bytes.
fn push_file_fault(text: &mut Vec<u8>, fault: &FileFault) -> io::Result<()>
    ensures { OnOk result (text.new.items ≡ text.old.items ++ file_fault fault.now) }
{
    match fault {
        FileFault::Gds(fault) => {
            write!(text, "gds ")?;
            push_gds_fault(text, fault.kind)?;
            let offset = fault.offset;
            write!(text, " at {offset}")
        }
        FileFault::Oasis(fault) => {
            write!(text, "oasis ")?;
            push_oasis_fault(text, *fault)
        }
    }
}

/// Appends what a file says about itself.
pub(crate) fn push_head(text: &mut Vec<u8>, head: &Head) -> io::Result<()>
    ensures { OnOk result (text.new.items ≡ text.old.items ++ head_text head.now) }
{
    match head {
        Head::Gds(head) => push_gds_head(text, head),
        Head::Oasis(head) => push_oasis_head(text, head),
    }
}

/// Appends which step refused a file, and why.
fn push_refused(text: &mut Vec<u8>, refusal: &Refusal) -> io::Result<()>
    ensures { OnOk result (text.new.items ≡ text.old.items ++ refusal_text refusal.now) }
{
    match refusal {
        Refusal::File(side, fault) => {
            write!(text, "refused: {}: ", side_name(*side))?;
            push_file_fault(text, fault)
        }
        Refusal::Cells(side, refused) => {
            write!(text, "refused: {}: cells ", side_name(*side))?;
            push_cell_fault(text, &refused.fault)
        }
        Refusal::Flat(side, fault) => {
            write!(text, "refused: {}: flat ", side_name(*side))?;
            push_flat_fault(text, fault)
        }
        Refusal::OutOfMemory => write!(text, "refused: out of memory"),
    }
}

/// Appends a refusal, on a line.
pub(crate) fn push_refusal(text: &mut Vec<u8>, refusal: &Refusal) -> io::Result<()>
    ensures { OnOk result (text.new.items ≡ text.old.items ++ line (refusal_text refusal.now)) }
{
    push_refused(text, refusal)?;
    writeln!(text)
}

/// The text of a refusal, on a line. It fails only if it is out of memory.
pub fn form_refusal(alloc: Global, refusal: &Refusal) -> Result<Vec<u8>, AllocError>
    ensures { IfOk result (λ text. text.items ≡ line (refusal_text refusal.now)) }
{
    let mut text = Vec::new(alloc);
    match push_refusal(&mut text, refusal) {
        Ok(()) => Ok(text),
        Err(_) => Err(AllocError),
    }
}

/// Appends both heads and the verdict, each on a line, and the reason if there is one.
fn push_judged(text: &mut Vec<u8>, first: &Head, second: &Head, judged: &Judged) -> io::Result<()>
    ensures { OnOk result (text.new.items ≡ text.old.items ++ answer_text first.now second.now (Some judged.now)) }
{
    write!(text, "first: ")?;
    push_head(text, first)?;
    write!(text, "\nsecond: ")?;
    push_head(text, second)?;
    writeln!(text)?;
    push_verdict(text, &judged.verdict)?;
    writeln!(text)?;
    push_reason(text, &judged.why)
}

/// Appends the line of each Layer.
fn push_layers(text: &mut Vec<u8>, layers: &[LayerRings]) -> io::Result<()>
    ensures { OnOk result (text.new.items ≡ text.old.items ++ flat_map layer_line layers.now) }
{
    for shown in layers {
        let Layer { layer, datatype } = shown.layer;
        let rings = shown.rings;
        writeln!(text, "layer {layer} datatype {datatype} rings {rings}")?;
    }
    Ok(())
}

/// Appends what a file says about itself and the name of its top, each on a line.
pub(crate) fn push_front(text: &mut Vec<u8>, head: &Head, top: &[u8]) -> io::Result<()>
    ensures { OnOk result (text.new.items ≡ text.old.items ++ front_text head.now top.now) }
{
    write!(text, "file: ")?;
    push_head(text, head)?;
    write!(text, "\ntop:")?;
    push_name(text, top)?;
    writeln!(text)
}

/// Appends what is shown of a layout.
fn push_shown(text: &mut Vec<u8>, shown: &Shown) -> io::Result<()>
    ensures { OnOk result (text.new.items ≡ text.old.items ++ shown_text shown.now) }
{
    push_front(text, &shown.head, &shown.top)?;
    let cells = shown.cells;
    writeln!(text, "cells: {cells}")?;
    push_layers(text, &shown.layers)
}

/// Appends an answer; nothing if the files weren't compared.
fn push_answer(text: &mut Vec<u8>, answer: &Result<Answer, Refusal>) -> io::Result<()>
    ensures { OnOk result (text.new.items ≡ text.old.items ++ text_of answer.now) }
{
    match answer {
        Ok(answer) => match &answer.judged {
            Some(judged) => push_judged(text, &answer.first, &answer.second, judged),
            None => Ok(()),
        },
        Err(refusal) => push_refusal(text, refusal),
    }
}

/// The text of an answer about two files; each line ends with one line feed.
///
/// A comparison has three lines: what each file says about itself, and the verdict; and if there is a reason, those of
/// the reason. A refusal is one line: the side, the step, the number and the name of the fault, what the fault
/// carries, and the offset if there is one; out of memory names neither a side nor a step. The text is empty if the
/// files weren't compared. It fails only if it is out of memory.
pub fn form(alloc: Global, answer: &Result<Answer, Refusal>) -> Result<Vec<u8>, AllocError>
    ensures { IfOk result (λ text. text.items ≡ text_of answer.now) }
{
    let mut text = Vec::new(alloc);
    match push_answer(&mut text, answer) {
        Ok(()) => Ok(text),
        Err(_) => Err(AllocError),
    }
}

/// Appends what is shown, or a refusal.
fn push_shown_answer(text: &mut Vec<u8>, answer: &Result<Shown, Refusal>) -> io::Result<()>
    ensures { OnOk result (text.new.items ≡ text.old.items ++ text_of_shown answer.now) }
{
    match answer {
        Ok(shown) => push_shown(text, shown),
        Err(refusal) => push_refusal(text, refusal),
    }
}

/// The text of what is shown: what the file says about itself, its top, the number of its cells,
/// and a line for each Layer. A refusal is one line. It fails only if it is out of memory.
pub(crate) fn form_shown(
    alloc: Global,
    answer: &Result<Shown, Refusal>,
) -> Result<Vec<u8>, AllocError>
    ensures { IfOk result (λ text. text.items ≡ text_of_shown answer.now) }
{
    let mut text = Vec::new(alloc);
    match push_shown_answer(&mut text, answer) {
        Ok(()) => Ok(text),
        Err(_) => Err(AllocError),
    }
}
