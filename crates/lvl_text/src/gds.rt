//! What a GDSII file says about itself, and why one is refused, as text.
ghost use Rattle.std.specs.Prelude.{◌≡◌, ◌++◌, flat_map, OnOk};
ghost use Rattle.lvl_text.specs.Faults.{spaced};
ghost use Rattle.lvl_text.specs.Gds.{hex, hex_byte, gds_head_text, record_fault, misplaced_record, element_rule};
ghost use Rattle.lvl_text.specs.Gds.{gds_fault};

use crate::faults::path_fault;
use gds_library::{ElementRule, GdsHead, GdsKind, Misplaced, RecordFault};
use std::io;
use std::io::Write;

/// Appends a byte as two hexadecimal digits.
fn push_hex_byte(text: &mut Vec<u8>, byte: u8) -> io::Result<()>
    ensures { OnOk result (text.new.items ≡ text.old.items ++ hex_byte byte) }
{
    write!(text, "{byte:02x}")
}

/// Appends each byte as two hexadecimal digits.
pub fn push_hex(text: &mut Vec<u8>, bytes: &[u8]) -> io::Result<()>
    ensures { OnOk result (text.new.items ≡ text.old.items ++ hex bytes.now) }
{
    for byte in bytes {
        push_hex_byte(text, *byte)?;
    }
    Ok(())
}

/// Appends the units, each after a space.
fn push_units(text: &mut Vec<u8>, units: &[[u8; 8]]) -> io::Result<()>
    ensures { OnOk result (text.new.items ≡ text.old.items ++ flat_map (λ unit. spaced (hex unit)) units.now) }
{
    for unit in units {
        write!(text, " ")?;
        push_hex(text, unit)?;
    }
    Ok(())
}

/// Appends what a GDSII file says about itself.
pub fn push_gds_head(text: &mut Vec<u8>, head: &GdsHead) -> io::Result<()>
    ensures { OnOk result (text.new.items ≡ text.old.items ++ gds_head_text head.now) }
{
    let version = head.version;
    write!(text, "GDSII version {version} units")?;
    push_units(text, &head.units)
}

/// The text of a fault of a record.
fn record_fault(fault: RecordFault) -> &'static str
    ensures { result.now ≡ record_fault fault }
{
    match fault {
        RecordFault::Truncated => "1 Truncated",
        RecordFault::BadLength => "2 BadLength",
        RecordFault::BadDataType => "3 BadDataType",
        RecordFault::UnknownRecord => "4 UnknownRecord",
        RecordFault::TooLong => "5 TooLong",
        RecordFault::Read => "6 Read",
    }
}

/// Appends why a record may not come where it is, with its type.
fn push_misplaced(text: &mut Vec<u8>, found: Misplaced) -> io::Result<()>
    ensures { OnOk result (text.new.items ≡ text.old.items ++ misplaced_record found) }
{
    match found {
        Misplaced::Unexpected(kind) => write!(text, "10 Unexpected {kind}"),
        Misplaced::Unsupported(kind) => write!(text, "11 Unsupported {kind}"),
    }
}

/// Appends a rule of an element.
fn push_rule(text: &mut Vec<u8>, rule: ElementRule) -> io::Result<()>
    ensures { OnOk result (text.new.items ≡ text.old.items ++ element_rule rule) }
{
    match rule {
        ElementRule::Layer => write!(text, "12 Layer"),
        ElementRule::Points => write!(text, "13 Points"),
        ElementRule::NotClosed => write!(text, "14 NotClosed"),
        ElementRule::Strans => write!(text, "15 Strans"),
        ElementRule::Magnification => write!(text, "16 Magnification"),
        ElementRule::Angle => write!(text, "17 Angle"),
        ElementRule::ColRow => write!(text, "18 ColRow"),
        ElementRule::ArrayStep => write!(text, "19 ArrayStep"),
        ElementRule::Name => write!(text, "20 Name"),
        ElementRule::Path(fault) => {
            write!(text, "21 Path ")?;
            text.write_all(path_fault(fault).as_bytes())
        }
        ElementRule::Width => write!(text, "22 Width"),
        ElementRule::PathType => write!(text, "23 PathType"),
        ElementRule::Oblique => write!(text, "25 Oblique"),
        ElementRule::Repetition => write!(text, "26 Repetition"),
    }
}

/// Appends a fault of a GDSII stream.
pub fn push_gds_fault(text: &mut Vec<u8>, kind: GdsKind) -> io::Result<()>
    ensures { OnOk result (text.new.items ≡ text.old.items ++ gds_fault kind) }
{
    match kind {
        GdsKind::Record(fault) => text.write_all(record_fault(fault).as_bytes()),
        GdsKind::Misplaced(found) => push_misplaced(text, found),
        GdsKind::Element(rule) => push_rule(text, rule),
        GdsKind::Name => write!(text, "20 Name"),
        GdsKind::AfterEnd => write!(text, "24 AfterEnd"),
        GdsKind::TooManyCells => write!(text, "27 TooManyCells"),
    }
}
