//! The line that says that the grid steps of two files differ.
ghost use Rattle.std.specs.Prelude.{◌≡◌, ◌≤◌, ◌<◌, ◌++◌, ◌^◌, IfOk, OnOk, option_map};
ghost use Rattle.lvl.specs.Steps.{DifferInSteps};
ghost use Rattle.lvl_report.specs.Steps.{AreStepsSaid, IsStepsLine, decimals, fraction_text, length_text, steps_text};
ghost use Rattle.lvl_report.specs.inside.Steps.{IsRoundedTo};

use lvl::{Head, agree_in_steps};
use lvl_units::GridStep;
use std::alloc::Global;
use std::io;
use std::io::Write;

/// A length in millionths of a nanometre, rounded.
fn rounded(step: Option<GridStep>) -> Option<u64>
    ensures { IsRoundedTo step result }
{
    Some(step?.millionths())
}

/// Appends the digits of `rest / 10^places` after the point, without zeros at the end.
fn push_decimals(text: &mut Vec<u8>, places: u32, rest: u64) -> io::Result<()>
    requires few { places ≤ 6 }
    requires less { rest < 10 ^ places }
    ensures { OnOk result (text.new.items ≡ text.old.items ++ decimals places rest) }
{
    if places == 0 || rest == 0 {
        return Ok(());
    }
    let scale = 10u64.pow(places - 1);
    text.push(b'0' + (rest / scale) as u8)?;
    push_decimals(text, places - 1, rest % scale)
}

/// Appends a point and the digits of `rest` millionths, if there are any.
fn push_fraction(text: &mut Vec<u8>, rest: u64) -> io::Result<()>
    requires { rest < 10 ^ 6 }
    ensures { OnOk result (text.new.items ≡ text.old.items ++ fraction_text rest) }
{
    if rest == 0 {
        return Ok(());
    }
    write!(text, ".")?;
    push_decimals(text, 6, rest)
}

/// Appends a length in nanometres.
fn push_length(text: &mut Vec<u8>, millionths: Option<u64>) -> io::Result<()>
    ensures { OnOk result (text.new.items ≡ text.old.items ++ length_text millionths) }
{
    let Some(millionths) = millionths else {
        return write!(text, "an unreadable unit");
    };
    let whole = millionths / 1_000_000;
    write!(text, "{whole}")?;
    push_fraction(text, millionths % 1_000_000)?;
    write!(text, " nm")
}

/// The line for two lengths.
fn line_of(alloc: Global, first: Option<u64>, second: Option<u64>) -> io::Result<Vec<u8>>
    ensures { IfOk result (λ text. text.items ≡ steps_text first second) }
{
    let mut text = Vec::new(alloc);
    write!(text, "lvl: the grid steps differ: ")?;
    push_length(&mut text, first)?;
    write!(text, " in the first file, ")?;
    push_length(&mut text, second)?;
    writeln!(text, " in the second")?;
    Ok(text)
}

/// The line on the grid steps of two files, which differ.
pub(crate) fn difference_line(alloc: Global, first: &Head, second: &Head) -> io::Result<Vec<u8>>
    requires { DifferInSteps first.now second.now }
    ensures { IfOk result (λ line. IsStepsLine first.now second.now line.items) }
{
    line_of(
        alloc,
        rounded(first.grid_step()),
        rounded(second.grid_step()),
    )
}

/// The line on the grid steps of two files, if they differ.
pub(crate) fn steps_line(alloc: Global, first: &Head, second: &Head) -> io::Result<Option<Vec<u8>>>
    ensures { IfOk result (λ line. AreStepsSaid first.now second.now (option_map (λ text. text.items) line)) }
{
    if agree_in_steps(first, second) {
        return Ok(None);
    }
    Ok(Some(difference_line(alloc, first, second)?))
}
