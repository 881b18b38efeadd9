//! Reads a list.
ghost use Rattle.std.specs.Prelude.{◌≡◌, ◌==◌, IfOk, IfErr};
ghost use Rattle.std.specs.List.{position};
ghost use Rattle.lvl_list.specs.List.{line_feed, IsBadLine, IsList};
ghost use Rattle.lvl_refusal.specs.Refused.{Says};

use crate::entry::Entry;
use crate::line::read_line;
use lvl_refusal::Cause;
use std::alloc::Global;

/// A line of a list that isn't the line of a file, by its number from 1. It is the first such line. An empty
/// list has a bad first line.
#[derive(Clone, Copy, Debug, Drop, PartialEq, Eq)]
pub struct BadLine(pub usize);

/// The index of the first line feed.
fn end_of_line(text: &[u8]) -> Option<usize>
    ensures { result ≡ position (λ byte. byte == line_feed) text.now }
{
    text.iter().position(|byte| *byte == b'\n')
}

/// Reads a list: one line or more, each of which is the line of a file and ends in a line feed (own rule). It
/// fails with the number of the first line that isn't, or if an allocation failed.
pub fn read_list(alloc: Global, text: &[u8]) -> Result<Vec<Entry>, Cause<BadLine>>
    ensures list { IfOk result (λ entries. IsList text.now entries.items) }
    ensures bad { IfErr result (λ cause. Says cause (λ bad. IsBadLine text.now bad.0)) }
{
    let mut entries = Vec::new(alloc);
    let mut rest = text;
    while !rest.is_empty() {
        let Some(end) = end_of_line(rest) else {
            return Err(Cause::Breach(BadLine(entries.len() + 1)));
        };
        let Some(entry) = read_line(alloc, &rest[..end])? else {
            return Err(Cause::Breach(BadLine(entries.len() + 1)));
        };
        entries.push(entry)?;
        rest = &rest[end + 1..];
    }
    if entries.is_empty() {
        return Err(Cause::Breach(BadLine(1)));
    }
    Ok(entries)
}
