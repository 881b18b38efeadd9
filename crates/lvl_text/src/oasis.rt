//! What an OASIS file says about itself, and why one is refused, as text.
ghost use Rattle.std.specs.Prelude.{◌≡◌, ◌++◌, OnOk, codes};
ghost use Rattle.lvl_text.specs.Oasis.{real, signature, oasis_head_text, value_fault, record_rule};
ghost use Rattle.lvl_text.specs.Gds.{hex};
ghost use Rattle.lvl_text.specs.Oasis.{block_rule, figure_rule, name_rule, oasis_kind, oasis_fault};

use crate::faults::path_fault;
use crate::gds::push_hex;
use oasis_library::{
    BlockRule, FigureRule, NameRule, OasisFault, OasisHead, OasisKind, Real, RecordRule, ValueFault,
};
use std::io;
use std::io::Write;

/// Appends bytes as hexadecimal digits, in the order of the file.
fn push_bytes(text: &mut Vec<u8>, bytes: &[u8]) -> io::Result<()>
    ensures { OnOk result (text.new.items ≡ text.old.items ++ codes "hex " ++ hex bytes.now) }
{
    write!(text, "hex ")?;
    push_hex(text, bytes)
}

/// Appends a real: a whole number, a fraction, or the bytes of an IEEE number.
fn push_real(text: &mut Vec<u8>, number: &Real) -> io::Result<()>
    ensures { OnOk result (text.new.items ≡ text.old.items ++ real number.now) }
{
    match number {
        Real::Whole(n) => write!(text, "{n}"),
        Real::NegWhole(n) => write!(text, "-{n}"),
        Real::Reciprocal(n) => write!(text, "1/{n}"),
        Real::NegReciprocal(n) => write!(text, "-1/{n}"),
        Real::Ratio(n, m) => write!(text, "{n}/{m}"),
        Real::NegRatio(n, m) => write!(text, "-{n}/{m}"),
        Real::Four(bytes) => push_bytes(text, bytes),
        Real::Eight(bytes) => push_bytes(text, bytes),
    }
}

/// Appends the signature, if there is one.
fn push_signature(text: &mut Vec<u8>, scheme: u8, bytes: &[u8]) -> io::Result<()>
    ensures { OnOk result (text.new.items ≡ text.old.items ++ signature scheme bytes.now) }
{
    if scheme == 0 {
        return Ok(());
    }
    write!(text, " signature ")?;
    push_hex(text, bytes)
}

/// Appends what an OASIS file says about itself.
pub fn push_oasis_head(text: &mut Vec<u8>, head: &OasisHead) -> io::Result<()>
    ensures { OnOk result (text.new.items ≡ text.old.items ++ oasis_head_text head.now) }
{
    write!(text, "OASIS 1.0 unit ")?;
    push_real(text, &head.unit)?;
    let scheme = head.scheme;
    write!(text, " scheme {scheme}")?;
    push_signature(text, scheme, &head.signature)
}

/// The text of a fault of a value.
fn value_fault(fault: ValueFault) -> &'static str
    ensures { result.now ≡ value_fault fault }
{
    match fault {
        ValueFault::Truncated => "1 Truncated",
        ValueFault::IntegerTooLarge => "2 IntegerTooLarge",
        ValueFault::StringByte => "3 StringByte",
        ValueFault::RealType => "4 RealType",
        ValueFault::ZeroDenominator => "5 ZeroDenominator",
        ValueFault::PointListType => "6 PointListType",
        ValueFault::PointCount => "7 PointCount",
        ValueFault::RepetitionType => "8 RepetitionType",
        ValueFault::RepetitionSize | ValueFault::ListSize => "9 RepetitionSize",
        ValueFault::OutOfRange => "10 OutOfRange",
        ValueFault::TooLong => "11 TooLong",
        ValueFault::Read => "12 Read",
        ValueFault::Failed => "13 Failed",
        ValueFault::NoModal => "14 NoModal",
    }
}

/// Appends a rule of records that a record breaches by itself.
fn push_record_rule(text: &mut Vec<u8>, rule: RecordRule) -> io::Result<()>
    ensures { OnOk result (text.new.items ≡ text.old.items ++ record_rule rule) }
{
    match rule {
        RecordRule::Magic => write!(text, "20 Magic"),
        RecordRule::Version => write!(text, "21 Version"),
        RecordRule::Unit => write!(text, "22 Unit"),
        RecordRule::Unsupported(id) => write!(text, "24 Unsupported {id}"),
        RecordRule::Info => write!(text, "29 Info"),
        RecordRule::EndLength => write!(text, "35 EndLength"),
        RecordRule::Scheme => write!(text, "36 Scheme"),
        RecordRule::CompressionType => write!(text, "41 CompressionType"),
    }
}

/// Appends a rule of figures or placements.
fn push_figure_rule(text: &mut Vec<u8>, rule: FigureRule) -> io::Result<()>
    ensures { OnOk result (text.new.items ≡ text.old.items ++ figure_rule rule) }
{
    match rule {
        FigureRule::OutOfRange => write!(text, "10 OutOfRange"),
        FigureRule::Undefined(found) => {
            write!(text, "25 Undefined ")?;
            text.write_all(found.name().as_bytes())
        }
        FigureRule::Magnification => write!(text, "30 Magnification"),
        FigureRule::Angle => write!(text, "31 Angle"),
        FigureRule::Extension => write!(text, "32 Extension"),
        FigureRule::Path(fault) => {
            write!(text, "33 Path ")?;
            text.write_all(path_fault(fault).as_bytes())
        }
        FigureRule::Oblique => write!(text, "34 Oblique"),
        FigureRule::Layer => write!(text, "38 Layer"),
    }
}

/// The text of a rule of CELLNAME records.
fn name_rule(rule: NameRule) -> &'static str
    ensures { result.now ≡ name_rule rule }
{
    match rule {
        NameRule::Mixed => "26 MixedNames",
        NameRule::NumberTwice => "27 NumberTwice",
        NameRule::NameTwice => "28 NameTwice",
    }
}

/// The text of a rule of blocks. One that unpacks to too many bytes is as a file that is too long.
fn block_rule(rule: BlockRule) -> &'static str
    ensures { result.now ≡ block_rule rule }
{
    match rule {
        BlockRule::TooLong => "11 TooLong",
        BlockRule::Deflate => "42 Deflate",
        BlockRule::BlockLength => "43 BlockLength",
    }
}

/// Appends a fault of an OASIS file, without its offset.
fn push_oasis_kind(text: &mut Vec<u8>, kind: OasisKind) -> io::Result<()>
    ensures { OnOk result (text.new.items ≡ text.old.items ++ oasis_kind kind) }
{
    match kind {
        OasisKind::Value(fault) => text.write_all(value_fault(fault).as_bytes()),
        OasisKind::Record(rule) => push_record_rule(text, rule),
        OasisKind::Figure(rule) => push_figure_rule(text, rule),
        OasisKind::Unexpected(id) => write!(text, "23 Unexpected {id}"),
        OasisKind::Name(rule) => text.write_all(name_rule(rule).as_bytes()),
        OasisKind::AfterEnd => write!(text, "37 AfterEnd"),
        OasisKind::TooManyCells => write!(text, "39 TooManyCells"),
        OasisKind::Block(rule) => text.write_all(block_rule(rule).as_bytes()),
    }
}

/// Appends a fault of an OASIS file, with its offset in bytes if it has one.
pub fn push_oasis_fault(text: &mut Vec<u8>, fault: OasisFault) -> io::Result<()>
    ensures { OnOk result (text.new.items ≡ text.old.items ++ oasis_fault fault) }
{
    match fault {
        OasisFault::At { offset, kind } => {
            push_oasis_kind(text, kind)?;
            write!(text, " at {offset}")
        }
        OasisFault::Unresolved(number) => write!(text, "40 Unresolved {number}"),
    }
}
