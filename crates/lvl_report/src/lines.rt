//! Writes the text of a digest, the lines of its Layers one by one, so that no text has them all. Takes no
//! memory.
ghost use Rattle.std.specs.Prelude.{◌≡◌, flat_map, OnOk, OnErr, IfErr};
ghost use Rattle.std.specs.Io.KnownBytes.{Appends};
ghost use Rattle.hex.specs.Hex.{encode_lower};
ghost use Rattle.lvl_io.specs.Bytes.{CountsFailure, failed};
ghost use Rattle.lvl_corners.specs.Masks.{digest_line, mask_lines};
ghost use Rattle.lvl_report.specs.Writing.{AppendsBeginning};
ghost use Rattle.lvl_report.specs.inside.Parts.{parts_text};

use crate::digest::Parts;
use crate::output::write_all;
use crate::status::RunFault;
use itoa::Buffer;
use lvl::DigestedLayer;
use lvl_io::{Failure, Write};

/// Writes texts one after another, as [`write_all`] writes one.
fn write_pieces<W: Write>(out: &mut W, pieces: &[&[u8]]) -> Result<(), Failure>
    ensures whole { OnOk result
        (Appends (W.contents out.old) (W.contents out.new) (flat_map (λ p. p.now) pieces.now)) }
    ensures begun { OnErr result
        (AppendsBeginning (W.contents out.old) (W.contents out.new) (flat_map (λ p. p.now) pieces.now)) }
    ensures errors { CountsFailure (W.write_errors out.old) (W.write_errors out.new) (failed result) }
    ensures same { W.lent out.new ≡ W.lent out.old }
{
    for piece in pieces {
        write_all(out, piece)?;
    }
    Ok(())
}

/// The hexadecimal digits of a SHA-256.
fn digits_of(sha256: [u8; 32]) -> [u8; 64]
    ensures { result ≡ encode_lower sha256 }
{
    let mut digits = [0; 64];
    match hex::encode_to_slice(sha256, &mut digits) {
        Ok(()) => digits,
        Err(_) => unreachable!(),
    }
}

/// Writes the line of a Layer.
fn write_layer_line<W: Write>(out: &mut W, digested: &DigestedLayer) -> Result<(), Failure>
    ensures whole { OnOk result (Appends (W.contents out.old) (W.contents out.new) (digest_line digested.now)) }
    ensures begun { OnErr result
        (AppendsBeginning (W.contents out.old) (W.contents out.new) (digest_line digested.now)) }
    ensures errors { CountsFailure (W.write_errors out.old) (W.write_errors out.new) (failed result) }
    ensures same { W.lent out.new ≡ W.lent out.old }
{
    let mut layer = Buffer::new();
    let mut datatype = Buffer::new();
    let mut corners = Buffer::new();
    let pieces: [&[u8]; 9] = [
        b"layer ",
        layer.format(digested.layer.layer).as_bytes(),
        b" datatype ",
        datatype.format(digested.layer.datatype).as_bytes(),
        b" corners ",
        corners.format(digested.digest.corners).as_bytes(),
        b" sha256 ",
        &digits_of(digested.digest.sha256),
        b"\n",
    ];
    write_pieces(out, &pieces)
}

/// Writes the line of each Layer.
pub(crate) fn write_layer_lines<W: Write>(
    out: &mut W,
    layers: &[DigestedLayer],
) -> Result<(), Failure>
    ensures whole { OnOk result (Appends (W.contents out.old) (W.contents out.new) (mask_lines layers.now)) }
    ensures begun { OnErr result
        (AppendsBeginning (W.contents out.old) (W.contents out.new) (mask_lines layers.now)) }
    ensures errors { CountsFailure (W.write_errors out.old) (W.write_errors out.new) (failed result) }
    ensures same { W.lent out.new ≡ W.lent out.old }
{
    for digested in layers {
        write_layer_line(out, digested)?;
    }
    Ok(())
}

/// Writes the parts of a text.
fn write_parts<W: Write>(out: &mut W, parts: &Parts<'_>) -> Result<(), Failure>
    ensures whole { OnOk result (Appends (W.contents out.old) (W.contents out.new) (parts_text parts.now)) }
    ensures begun { OnErr result
        (AppendsBeginning (W.contents out.old) (W.contents out.new) (parts_text parts.now)) }
    ensures errors { CountsFailure (W.write_errors out.old) (W.write_errors out.new) (failed result) }
    ensures same { W.lent out.new ≡ W.lent out.old }
{
    write_all(out, &parts.before)?;
    write_layer_lines(out, parts.layers)?;
    write_all(out, &parts.after)
}

/// Writes the parts of a text, and flushes, as [`put`](crate::output::put) does for a whole text.
pub(crate) fn put_parts<W: Write>(out: &mut W, parts: &Parts<'_>) -> Result<(), RunFault>
    ensures whole { OnOk result (Appends (W.contents out.old) (W.contents out.new) (parts_text parts.now)) }
    ensures begun { OnErr result
        (AppendsBeginning (W.contents out.old) (W.contents out.new) (parts_text parts.now)) }
    ensures output { IfErr result (λ fault. fault ≡ RunFault.Output) }
    ensures errors { CountsFailure (W.write_errors out.old) (W.write_errors out.new) (failed result) }
    ensures same { W.lent out.new ≡ W.lent out.old }
{
    if write_parts(out, parts).is_err() || out.flush().is_err() {
        return Err(RunFault::Output);
    }
    Ok(())
}
