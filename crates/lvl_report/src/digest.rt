//! The text of a digest.
ghost use Rattle.std.specs.Prelude.{◌≡◌, ◌++◌, codes, OnOk, IfOk};
ghost use Rattle.lvl_report.specs.Texts.{digested_text, line, refusal_text, text_of_digested};
ghost use Rattle.lvl_report.specs.inside.Parts.{parts_text};
ghost use Rattle.lvl_text.specs.Gds.{hex};

use crate::text::{push_front, push_refusal};
use lvl::{Digested, DigestedLayer, Refusal};
use lvl_text::push_hex;
use std::alloc::Global;
use std::io;
use std::io::Write;

/// Appends the line of the mask.
fn push_mask_line(text: &mut Vec<u8>, sha256: &[u8; 32]) -> io::Result<()>
    ensures { OnOk result (text.new.items ≡ text.old.items ++ line (codes "mask sha256 " ++ hex sha256.now)) }
{
    write!(text, "mask sha256 ")?;
    push_hex(text, sha256)?;
    writeln!(text)
}

/// The text of a digest in three parts: what comes before the lines of the Layers, the Layers, and what
/// comes after their lines. A refusal is all before.
#[derive(Drop)]
pub(crate) struct Parts<'a> {
    pub before: Vec<u8>,
    pub layers: &'a [DigestedLayer],
    pub after: Vec<u8>,
}

/// The parts of the text of a digest.
fn parts_of_digested(alloc: Global, digested: &Digested) -> io::Result<Parts<'_>>
    ensures { IfOk result (λ parts. parts_text parts ≡ digested_text digested.now) }
{
    let mut before = Vec::new(alloc);
    let mut after = Vec::new(alloc);
    push_front(&mut before, &digested.head, &digested.top)?;
    push_mask_line(&mut after, &digested.mask.sha256)?;
    Ok(Parts {
        before,
        layers: &digested.mask.layers,
        after,
    })
}

/// The parts of the text of a refusal.
fn parts_of_refusal(alloc: Global, refusal: &Refusal) -> io::Result<Parts<'static>>
    ensures { IfOk result (λ parts. parts_text parts ≡ line (refusal_text refusal.now)) }
{
    let mut before = Vec::new(alloc);
    push_refusal(&mut before, refusal)?;
    Ok(Parts {
        before,
        layers: &[],
        after: Vec::new(alloc),
    })
}

/// The parts of the text of a digest: what the file says about itself, its top, a line for each Layer that covers a
/// square, and one with the SHA-256 of these lines. A refusal is one line. It fails only if it is out of memory.
pub(crate) fn digest_parts(
    alloc: Global,
    answer: &Result<Digested, Refusal>,
) -> io::Result<Parts<'_>>
    ensures { IfOk result (λ parts. parts_text parts ≡ text_of_digested answer.now) }
{
    match answer {
        Ok(digested) => parts_of_digested(alloc, digested),
        Err(refusal) => parts_of_refusal(alloc, refusal),
    }
}
