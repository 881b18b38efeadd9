//! GDSII streams for tests and examples, made record by record.

use crate::record_type;
use std::alloc::{AllocError, Global};

/// The eight-byte real 1.
const ONE: [u8; 8] = [0x41, 0x10, 0, 0, 0, 0, 0, 0];

/// The corners of 0..10 by 0..10, the first again at the end.
pub const SQUARE: [(i32, i32); 5] = [(0, 0), (10, 0), (10, 10), (0, 10), (0, 0)];

/// A stream to which records are appended, in any order.
#[derive(Drop)]
pub struct Stream {
    alloc: Global,
    bytes: Vec<u8>,
}

impl Stream {
    /// The records of a library before its structures: version 600, and units of 1.
    pub fn new(alloc: Global) -> Result<Stream, AllocError> {
        let mut stream = Stream {
            alloc,
            bytes: Vec::new(alloc),
        };
        stream.record(record_type::HEADER, 2, &[0x02, 0x58])?;
        stream.record(record_type::BGNLIB, 2, &[0; 24])?;
        stream.record(record_type::LIBNAME, 6, b"LB")?;
        let mut units = Vec::from_slice(alloc, &ONE)?;
        units.extend_from_slice(&ONE)?;
        stream.record(record_type::UNITS, 5, &units)?;
        Ok(stream)
    }

    /// A record of any type and data type; its payload has at most 65,531 bytes.
    fn record(&mut self, kind: u8, data_type: u8, payload: &[u8]) -> Result<(), AllocError> {
        let len = (payload.len() % 65_532 + 4) as u16;
        self.bytes.extend_from_slice(&len.to_be_bytes())?;
        self.bytes.push(kind)?;
        self.bytes.push(data_type)?;
        self.bytes.extend_from_slice(payload)
    }

    /// BGNSTR STRNAME; the name has an even number of bytes.
    pub fn structure(&mut self, name: &[u8]) -> Result<(), AllocError> {
        self.record(record_type::BGNSTR, 2, &[0; 24])?;
        self.record(record_type::STRNAME, 6, name)
    }

    /// XY
    fn points(&mut self, points: &[(i32, i32)]) -> Result<(), AllocError> {
        let mut payload = Vec::new(self.alloc);
        for (x, y) in points {
            payload.extend_from_slice(&x.to_be_bytes())?;
            payload.extend_from_slice(&y.to_be_bytes())?;
        }
        self.record(record_type::XY, 3, &payload)
    }

    /// LAYER DATATYPE
    fn layer(&mut self, layer: i16, datatype: i16) -> Result<(), AllocError> {
        self.record(record_type::LAYER, 2, &layer.to_be_bytes())?;
        self.record(record_type::DATATYPE, 2, &datatype.to_be_bytes())
    }

    /// BOUNDARY LAYER DATATYPE XY ENDEL, with the points as they are.
    pub fn boundary(
        &mut self,
        layer: i16,
        datatype: i16,
        points: &[(i32, i32)],
    ) -> Result<(), AllocError> {
        self.record(record_type::BOUNDARY, 0, b"")?;
        self.layer(layer, datatype)?;
        self.points(points)?;
        self.end_element()
    }

    /// ENDEL
    fn end_element(&mut self) -> Result<(), AllocError> {
        self.record(record_type::ENDEL, 0, b"")
    }

    /// ENDSTR
    pub fn end_structure(&mut self) -> Result<(), AllocError> {
        self.record(record_type::ENDSTR, 0, b"")
    }

    /// ENDLIB, and the bytes of the whole stream.
    pub fn end(mut self) -> Result<Vec<u8>, AllocError> {
        self.record(record_type::ENDLIB, 0, b"")?;
        Ok(self.bytes)
    }
}
