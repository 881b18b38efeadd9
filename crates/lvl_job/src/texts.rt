//! The texts of files that are hashed, and the status that each gives.
ghost use Rattle.std.specs.Prelude.{◌≡◌, ◌≤◌, ◌++◌, not, if◌then◌else◌, IfOk, OnOk};
ghost use Rattle.lvl_job.specs.Listing.{checked_status, checked_text, checked_words, digits_of, is_same, listed_status};
ghost use Rattle.lvl_job.specs.Listing.{listed_text, summary_line, summary_text, unlisted_text, worse};

use crate::hash::Hash;
use crate::said::open_form;
use lvl::Digested;
use lvl_list::{Entry, push_line, push_name};
use lvl_report::{Status, form_refusal};
use lvl_text::push_hex;
use std::alloc::{AllocError, Global};
use std::io;
use std::io::Write;

/// The digits of the SHA-256 of a mask.
fn digits_of(alloc: Global, digested: &Digested) -> Result<Vec<u8>, AllocError>
    ensures { IfOk result (λ digits. digits.items ≡ digits_of digested.now) }
{
    let mut digits = Vec::new(alloc);
    match push_hex(&mut digits, &digested.mask.sha256) {
        Ok(()) => Ok(digits),
        Err(_) => Err(AllocError),
    }
}

/// The line of a file in a list; empty if the file has no digest.
pub(crate) fn listed_text(alloc: Global, name: &str, hash: &Hash) -> Result<Vec<u8>, AllocError>
    ensures { IfOk result (λ text. text.items ≡ listed_text name.now hash.now) }
{
    let mut text = Vec::new(alloc);
    if let Ok(Ok(digested)) = hash {
        let digits = digits_of(alloc, digested)?;
        push_line(&mut text, &digits, name.as_bytes())?;
    }
    Ok(text)
}

/// Why a file has no digest; empty if it has one.
pub(crate) fn unlisted_text(alloc: Global, name: &str, hash: &Hash) -> Result<Vec<u8>, AllocError>
    ensures { IfOk result (λ text. text.items ≡ unlisted_text name.now hash.now) }
{
    let mut text = Vec::new(alloc);
    match hash {
        Ok(Ok(_)) => {}
        Ok(Err(refusal)) => {
            text.extend_from_slice(b"lvl: ")?;
            push_name(&mut text, name.as_bytes())?;
            text.extend_from_slice(b": ")?;
            let refusal = form_refusal(alloc, refusal)?;
            text.extend_from_slice(&refusal)?;
        }
        Err(why) => {
            text.extend_from_slice(b"lvl: cannot open ")?;
            push_name(&mut text, name.as_bytes())?;
            text.extend_from_slice(open_form(*why).as_bytes())?;
        }
    }
    Ok(text)
}

/// The status of a file that is listed.
pub(crate) fn listed_status(hash: &Hash) -> Status
    ensures { result ≡ listed_status hash.now }
{
    match hash {
        Ok(Ok(_)) => Status::Shown,
        _ => Status::Refused,
    }
}

/// The status of a file that is checked: whether its digest is the one that the list has.
pub(crate) fn checked_status(
    alloc: Global,
    entry: &Entry,
    hash: &Hash,
) -> Result<Status, AllocError>
    ensures { IfOk result (λ status. status ≡ checked_status entry.now hash.now) }
{
    let Ok(Ok(digested)) = hash else {
        return Ok(Status::Refused);
    };
    let digits = digits_of(alloc, digested)?;
    if entry.digits.as_slice() == digits.as_slice() {
        Ok(Status::Same)
    } else {
        Ok(Status::Differ)
    }
}

/// Whether a status is that of a file that is the same.
pub(crate) fn is_same(status: Status) -> bool
    ensures { result ≡ is_same status }
{
    matches!(status, Status::Same)
}

/// Appends what is written of a file that is checked, after its name.
fn push_words(
    alloc: Global,
    text: &mut Vec<u8>,
    status: Status,
    hash: &Hash,
) -> Result<(), AllocError>
    ensures { OnOk result (text.new.items ≡ text.old.items ++ checked_words status hash.now) }
{
    match hash {
        Ok(Ok(_)) if is_same(status) => text.extend_from_slice(b": same\n"),
        Ok(Ok(_)) => text.extend_from_slice(b": differs\n"),
        Ok(Err(refusal)) => {
            text.extend_from_slice(b": ")?;
            let refusal = form_refusal(alloc, refusal)?;
            text.extend_from_slice(&refusal)
        }
        Err(_) => text.extend_from_slice(b": cannot open\n"),
    }
}

/// What is written of a file that is checked. `status` is its status. If `quiet` is set, it is empty if the file
/// is the same.
pub(crate) fn checked_text(
    alloc: Global,
    quiet: bool,
    entry: &Entry,
    status: Status,
    hash: &Hash,
) -> Result<Vec<u8>, AllocError>
    requires { status ≡ checked_status entry.now hash.now }
    ensures { IfOk result (λ text. text.items ≡ checked_text quiet entry.now hash.now) }
{
    let mut text = Vec::new(alloc);
    if !(quiet && is_same(status)) {
        push_name(&mut text, entry.name.as_bytes())?;
        push_words(alloc, &mut text, status, hash)?;
    }
    Ok(text)
}

/// How many of one file aren't the same, by its status.
pub(crate) fn unlike_of(status: Status) -> usize
    ensures value { result ≡ (if not (is_same status) then 1 else 0) }
    ensures few { result ≤ 1 }
{
    match status {
        Status::Same => 0,
        _ => 1,
    }
}

/// The line that counts the files that aren't the same.
fn summary_line(alloc: Global, unlike: usize, all: usize) -> io::Result<Vec<u8>>
    ensures { IfOk result (λ text. text.items ≡ summary_line unlike all) }
{
    let mut text = Vec::new(alloc);
    writeln!(
        text,
        "lvl: {unlike} of {all} files differ or could not be compared"
    )?;
    Ok(text)
}

/// What is said at the end of a check of `all` files, `unlike` of which aren't the same; empty if all are.
pub(crate) fn summary_text(alloc: Global, unlike: usize, all: usize) -> Result<Vec<u8>, AllocError>
    ensures { IfOk result (λ text. text.items ≡ summary_text unlike all) }
{
    if unlike == 0 {
        return Ok(Vec::new(alloc));
    }
    match summary_line(alloc, unlike, all) {
        Ok(text) => Ok(text),
        Err(_) => Err(AllocError),
    }
}

/// The status with the greater code.
pub(crate) fn worse(a: Status, b: Status) -> Status
    ensures { result ≡ worse a b }
{
    if a.code() < b.code() { b } else { a }
}
