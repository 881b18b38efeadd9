//! What is said beside an answer, on lines of their own: that the grid steps of two files differ, that the map says
//! nothing of the second file, or which cells could be the top.
ghost use Rattle.std.specs.Prelude.{◌≡◌, IfOk, option_map};
ghost use Rattle.lvl_report.specs.inside.Steps.{DifferUnlessJudged};
ghost use Rattle.lvl_report.specs.Beside.{IsLineOf, IsLineOfOne, IsSaidBeside, one_after, undrawn_text};

use crate::steps::{difference_line, steps_line};
use crate::tops::{line_of_one, line_of_two};
use lvl::{Answer, Head, Refusal};
use lvl_names::Layer;
use std::alloc::Global;
use std::io;
use std::io::Write;

/// The line for a source of the map on which no cell of the second file has a shape.
fn undrawn_text(alloc: Global, source: Layer) -> io::Result<Vec<u8>>
    ensures { IfOk result (λ text. text.items ≡ undrawn_text source) }
{
    let Layer { layer, datatype } = source;
    let mut text = Vec::new(alloc);
    writeln!(
        text,
        "lvl: no shape of the second file is on layer {layer} datatype {datatype}, a source of --map"
    )?;
    Ok(text)
}

/// The line for such a source, if there is one.
fn undrawn_line(alloc: Global, undrawn: Option<Layer>) -> io::Result<Option<Vec<u8>>>
    ensures { IfOk result (λ line. option_map (λ text. text.items) line ≡ option_map undrawn_text undrawn) }
{
    match undrawn {
        Some(source) => Ok(Some(undrawn_text(alloc, source)?)),
        None => Ok(None),
    }
}

/// A line, if there is one, and then another, if there is one.
fn one_after(first: Option<Vec<u8>>, second: Option<Vec<u8>>) -> io::Result<Option<Vec<u8>>>
    ensures { IfOk result (λ line. option_map (λ text. text.items) line
        ≡ one_after (option_map (λ text. text.items) first) (option_map (λ text. text.items) second)) }
{
    let Some(mut text) = first else {
        return Ok(second);
    };
    if let Some(after) = second {
        text.write_all(&after)?;
    }
    Ok(Some(text))
}

/// What is said beside a verdict on files with these heads.
fn beside_verdict(
    alloc: Global,
    first: &Head,
    second: &Head,
    undrawn: Option<Layer>,
) -> io::Result<Option<Vec<u8>>>
    ensures { IfOk result
        (λ line. IsSaidBeside first.now second.now undrawn (option_map (λ text. text.items) line)) }
{
    let steps = steps_line(alloc, first, second)?;
    let undrawn = undrawn_line(alloc, undrawn)?;
    one_after(steps, undrawn)
}

/// What is said beside an answer on two files: beside a verdict that their grid steps differ and that the map says
/// nothing of the second, in place of a verdict that their grid steps differ, and beside a refusal which cells could
/// be the top.
pub(crate) fn line_beside(
    alloc: Global,
    answer: &Result<Answer, Refusal>,
) -> io::Result<Option<Vec<u8>>>
    requires { IfOk answer.now DifferUnlessJudged }
    ensures { IfOk result (λ line. IsLineOf answer.now (option_map (λ text. text.items) line)) }
{
    match answer {
        Ok(answer) => match &answer.judged {
            Some(judged) => beside_verdict(alloc, &answer.first, &answer.second, judged.undrawn),
            None => Ok(Some(difference_line(alloc, &answer.first, &answer.second)?)),
        },
        Err(refusal) => line_of_two(alloc, refusal),
    }
}

/// What is said beside an answer on one file: which cells could be the top, if it is a refusal for that.
pub(crate) fn line_beside_one<X>(
    alloc: Global,
    answer: &Result<X, Refusal>,
) -> io::Result<Option<Vec<u8>>>
    ensures { IfOk result (λ line. IsLineOfOne answer.now (option_map (λ text. text.items) line)) }
{
    match answer {
        Ok(_) => Ok(None),
        Err(refusal) => line_of_one(alloc, refusal),
    }
}
