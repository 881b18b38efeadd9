//! The four bytes of a header: a length, a record type and a data type.
ghost use Rattle.std.specs.Prelude.{◌≡◌, ◌<◌, ◌≤◌, IfOk, length, false};
ghost use Rattle.gds_records.specs.Table.{table, form_among, form_of, allows, form_fault, property_rows, name_rows};
ghost use Rattle.gds_records.specs.Table.{ignored_rows, is_ignored};
ghost use Rattle.gds_records.specs.Step.{header_fault, header, Returns, is_read, OfHeader, HasByteLength};

use crate::fault::RecordFault;
use crate::form::{Form, Lengths};
use crate::record_type::*;
use byteorder::{BigEndian, ByteOrder};
use lvl_profile::Ignore;

/// The data type of records without payload.
const NO_DATA: u8 = 0;
/// Sixteen bits.
const BIT_ARRAY: u8 = 1;
/// Signed integers of two bytes.
const SHORTS: u8 = 2;
/// Signed integers of four bytes.
const LONGS: u8 = 3;
/// Reals of eight bytes.
const REALS: u8 = 5;
/// Text.
const ASCII: u8 = 6;

/// Record types are below this (own rule).
const TYPES: u8 = 60;

// The form of a record type that is always read.
fn read_form(kind: u8) -> Option<Form>
    ensures { result ≡ form_among table kind }
{
    let (data_type, lengths) = match kind {
        ENDLIB | ENDSTR | BOUNDARY | PATH | SREF | AREF | TEXT | ENDEL => {
            (NO_DATA, Lengths::Exactly(0))
        }
        PRESENTATION | STRANS => (BIT_ARRAY, Lengths::Exactly(2)),
        HEADER | LAYER | DATATYPE | TEXTTYPE | PATHTYPE => (SHORTS, Lengths::Exactly(2)),
        COLROW => (SHORTS, Lengths::Exactly(4)),
        BGNLIB | BGNSTR => (SHORTS, Lengths::Exactly(24)),
        WIDTH => (LONGS, Lengths::Exactly(4)),
        XY => (LONGS, Lengths::Points),
        MAG | ANGLE => (REALS, Lengths::Exactly(8)),
        UNITS => (REALS, Lengths::Exactly(16)),
        LIBNAME | STRNAME | SNAME | STRING => (ASCII, Lengths::Even),
        _ => return None,
    };
    Some(Form { data_type, lengths })
}

// The form of a record type of properties.
fn property_form(kind: u8) -> Option<Form>
    ensures { result ≡ form_among property_rows kind }
{
    let (data_type, lengths) = match kind {
        PROPATTR => (SHORTS, Lengths::Exactly(2)),
        ATTRTABLE | PROPVALUE => (ASCII, Lengths::Even),
        _ => return None,
    };
    Some(Form { data_type, lengths })
}

// The form of a record type that names files and fonts, or classifies structures and elements.
fn name_form(kind: u8) -> Option<Form>
    ensures { result ≡ form_among name_rows kind }
{
    let (data_type, lengths) = match kind {
        ELFLAGS | STRCLASS => (BIT_ARRAY, Lengths::Exactly(2)),
        GENERATIONS | FORMAT | LIBDIRSIZE => (SHORTS, Lengths::Exactly(2)),
        LIBSECUR => (SHORTS, Lengths::Entries),
        PLEX => (LONGS, Lengths::Exactly(4)),
        REFLIBS | FONTS | SRFNAME => (ASCII, Lengths::Even),
        _ => return None,
    };
    Some(Form { data_type, lengths })
}

// The form of a record type that is read and ignored.
fn ignored_form(ignore: Ignore, kind: u8) -> Option<Form>
    ensures { result ≡ form_among (ignored_rows ignore) kind }
{
    if ignore.properties {
        if let Some(form) = property_form(kind) {
            return Some(form);
        }
    }
    if ignore.names { name_form(kind) } else { None }
}

/// Whether records of the type are read and ignored.
pub fn is_ignored(ignore: Ignore, kind: u8) -> bool
    ensures { result ≡ is_ignored ignore kind }
{
    ignored_form(ignore, kind).is_some()
}

// The form of a record type that is read, or read and ignored; `None` for other types.
fn form_of(ignore: Ignore, kind: u8) -> Option<Form>
    ensures { result ≡ form_of ignore kind }
{
    match read_form(kind) {
        Some(form) => Some(form),
        None => ignored_form(ignore, kind),
    }
}

// Whether a payload may have `n` bytes.
fn allows(lengths: Lengths, n: u16) -> bool
    ensures { result ≡ allows lengths n }
{
    match lengths {
        Lengths::Exactly(m) => n == m,
        Lengths::Even => n % 2 == 0,
        Lengths::Points => n >= 8 && n % 8 == 0,
        Lengths::Entries => n > 0 && n <= 192 && n % 6 == 0,
    }
}

// The fault of a data type and of a payload of `n` bytes. If the type has no form, any are allowed.
fn form_fault(form: Option<Form>, data_type: u8, n: u16) -> Option<RecordFault>
    ensures exact { result ≡ form_fault form data_type n }
    ensures kind { OfHeader result }
{
    let form = form?;
    if form.data_type != data_type {
        return Some(RecordFault::BadDataType);
    }
    if !allows(form.lengths, n) {
        return Some(RecordFault::BadLength);
    }
    None
}

// The fault of a header, if it has one.
fn header_fault(ignore: Ignore, len: u16, kind: u8, data_type: u8) -> Option<RecordFault>
    ensures exact { result ≡ header_fault ignore len kind data_type }
    ensures kind { OfHeader result }
{
    if len < 4 || len % 2 == 1 {
        return Some(RecordFault::BadLength);
    }
    if kind >= TYPES {
        return Some(RecordFault::UnknownRecord);
    }
    if data_type > ASCII {
        return Some(RecordFault::BadDataType);
    }
    form_fault(form_of(ignore, kind), data_type, len - 4)
}

// The length of the record whose header is at the front, or the header's fault.
pub(crate) fn record_len(ignore: Ignore, bytes: &[u8]) -> Result<usize, RecordFault>
    requires { 4 ≤ length bytes.now }
    ensures exact { Returns result (header ignore bytes.now) }
    ensures bound { IfOk result (λ n. (4 ≤ n) × (n < 65536)) }
    ensures read { is_read result ≡ false }
    ensures low { HasByteLength bytes.now }
{
    let len = BigEndian::read_u16(bytes);
    match header_fault(ignore, len, bytes[2], bytes[3]) {
        None => Ok(len as usize),
        Some(fault) => Err(fault),
    }
}
