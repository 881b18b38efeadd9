//! The record types that are read, or that can be ignored, by their names and numbers in the GDSII
//! Stream Format Manual, Release 6.

pub const HEADER: u8 = 0x00;

pub const BGNLIB: u8 = 0x01;

pub const LIBNAME: u8 = 0x02;

pub const UNITS: u8 = 0x03;

pub const ENDLIB: u8 = 0x04;

pub const BGNSTR: u8 = 0x05;

pub const STRNAME: u8 = 0x06;

pub const ENDSTR: u8 = 0x07;

pub const BOUNDARY: u8 = 0x08;

pub const PATH: u8 = 0x09;

pub const SREF: u8 = 0x0A;

pub const AREF: u8 = 0x0B;

pub const TEXT: u8 = 0x0C;

pub const LAYER: u8 = 0x0D;

pub const DATATYPE: u8 = 0x0E;

pub const WIDTH: u8 = 0x0F;

pub const XY: u8 = 0x10;

pub const ENDEL: u8 = 0x11;

pub const SNAME: u8 = 0x12;

pub const COLROW: u8 = 0x13;

pub const TEXTTYPE: u8 = 0x16;

pub const PRESENTATION: u8 = 0x17;

pub const STRING: u8 = 0x19;

pub const STRANS: u8 = 0x1A;

pub const MAG: u8 = 0x1B;

pub const ANGLE: u8 = 0x1C;

pub const PATHTYPE: u8 = 0x21;

pub const REFLIBS: u8 = 0x1F;

pub const FONTS: u8 = 0x20;

pub const GENERATIONS: u8 = 0x22;

pub const ATTRTABLE: u8 = 0x23;

pub const ELFLAGS: u8 = 0x26;

pub const PROPATTR: u8 = 0x2B;

pub const PROPVALUE: u8 = 0x2C;

pub const PLEX: u8 = 0x2F;

pub const STRCLASS: u8 = 0x34;

pub const FORMAT: u8 = 0x36;

pub const LIBDIRSIZE: u8 = 0x39;

pub const SRFNAME: u8 = 0x3A;

pub const LIBSECUR: u8 = 0x3B;
