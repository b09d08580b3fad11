//! Colours that the tests use.

pub(crate) const RED: u32 = 0xFF_0000;

pub(crate) const GREEN: u32 = 0x00_FF00;

pub(crate) const BLUE: u32 = 0x00_00FF;
