//! The text of a window.
ghost use Rattle.std.specs.Prelude.{◌<◌, IfOk, IfErr};
ghost use Rattle.lvl_view.specs.Texts.{IsOnly, IsSpanText, IsAxisText, IsWindowText, Span};
ghost use Rattle.lvl_view.specs.Views.{IsWindowOf, text_of};
ghost use Rattle.lvl_view.specs.inside.Reading.{IsAlone, IsWindowFault};

use crate::fault::ViewFault;
use crate::number::coordinate_of;
use lvl_grid::Window;

/// The two coordinates of a text `A..B`, or None if the text isn't of this form.
fn span_of(text: &str) -> Option<(i64, i64)>
    ensures { IsOnly (IsSpanText text.now) result }
{
    let (low, rest) = text.split_once('.')?;
    let high = rest.strip_prefix('.')?;
    Some((coordinate_of(low)?, coordinate_of(high)?))
}

/// The two coordinates of a text like `x=A..B`, where `axis` is the first character.
fn axis_of(text: &str, axis: char) -> Option<(i64, i64)>
    requires { axis < 128 }
    ensures { IsOnly (IsAxisText axis text.now) result }
{
    let rest = text.strip_prefix(axis)?;
    let span = rest.strip_prefix('=')?;
    span_of(span)
}

/// The window of a text `x=A..B,y=C..D`, or None if the text isn't of this form.
fn read_window(text: &str) -> Option<Window>
    ensures { IsOnly (IsWindowText text.now) result }
{
    let (x, y) = text.split_once(',')?;
    let (x0, x1) = axis_of(x, 'x')?;
    let (y0, y1) = axis_of(y, 'y')?;
    Some(Window { x0, y0, x1, y1 })
}

/// The window of a text, or none if no text is given.
pub(crate) fn window_of(text: Option<&str>) -> Result<Option<Window>, ViewFault>
    ensures ok { IfOk result (IsAlone (IsWindowOf (text_of text.entry))) }
    ensures err { IfErr result (IsWindowFault (text_of text.entry)) }
{
    let Some(text) = text else {
        return Ok(None);
    };
    match read_window(text) {
        Some(window) => Ok(Some(window)),
        None => Err(ViewFault::WindowText),
    }
}
