//! The bytes that tell the kind of a frame, and of a value.

pub const BOOT: u8 = 0x01;

pub const REQUEST: u8 = 0x02;

pub const PUSH: u8 = 0x03;

pub const OPENED: u8 = 0x04;

pub const ROWS: u8 = 0x05;

pub const CHANGED: u8 = 0x06;

pub const TEMPLATE: u8 = 0x07;

pub const LOGGED: u8 = 0x08;

pub const DENIED: u8 = 0x09;

pub const FAILED: u8 = 0x0a;

pub const NO_MEMORY: u8 = 0x0b;

pub const DUPLICATE: u8 = 0x0c;

pub const OPEN: u8 = 0x41;

pub const CALL: u8 = 0x42;

pub const GET: u8 = 0x43;

pub const LOG: u8 = 0x44;

pub const REPLY: u8 = 0x45;

pub const INT: u8 = 1;

pub const TEXT: u8 = 2;

pub const BYTES: u8 = 3;
