//! Why a file is refused.

use oasis_blocks::BlockRule;
use oasis_figures::FigureRule;
use oasis_records::RecordRule;
use oasis_values::ValueFault;
use thiserror::Error;

/// The rules of CELLNAME records (SEMI P39, "CELLNAME record").
#[derive(Clone, Copy, Debug, Drop, PartialEq, Eq, Error)]
pub enum NameRule {
    /// Some names have numbers of their own, and others don't.
    #[error("some cell names have numbers, others don't")]
    Mixed,
    /// An earlier name has the same number.
    #[error("two cell names have the same number")]
    NumberTwice,
    /// An earlier CELLNAME has the same name.
    #[error("a cell name is given twice")]
    NameTwice,
}

/// What is wrong with a file.
#[derive(Clone, Copy, Debug, PartialEq, Eq, Error)]
pub enum OasisKind {
    /// A value can't be read, or the reader failed. `Truncated` is also reported if the input ends before
    /// END.
    #[error("a record is missing, or one of its values can't be read")]
    Value(ValueFault),
    /// A byte of the magic string differs, or a record breaches a rule by itself.
    #[error("a record breaches a rule")]
    Record(RecordRule),
    /// A record of this id may not come here: the first record isn't START, or START comes again,
    /// or a record that belongs in a cell comes while none is open; or it is END or a block, inside a block.
    #[error("a record is out of order")]
    Unexpected(u64),
    /// A CELLNAME breaches this rule.
    #[error("a CELLNAME breaches a rule")]
    Name(NameRule),
    /// A record of a cell breaches this rule after the records of the cell before it.
    #[error("a figure or a placement breaches a rule")]
    Figure(FigureRule),
    /// A byte comes after END.
    #[error("data after the end of the file")]
    AfterEnd,
    /// A CELL comes after as many cells as the limits allow (own rule).
    #[error("there are too many cells")]
    TooManyCells,
    /// A block can't be unpacked, or ends within a record. Other faults inside a block are reported as those of records
    /// outside, at the offset of the block.
    #[error("a block breaches a rule")]
    Block(BlockRule),
}
