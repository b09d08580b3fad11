//! Reading the fields of fixed length in what a host sends (RFC 6143, 7.6).
//!
//! Each reader reads its fields at the front of `bytes`, which must hold them all. None of them takes memory.

ghost use Rattle.std.specs.Prelude.{◌≤◌, length, take};
ghost use Rattle.byte_reading.specs.Reading.{Spells, u32};
ghost use Rattle.rfb_wire.specs.ServerHeads.{colour_map_head, copy_source, text_head, update_head};

/// The number of DesktopSize, which is -223: in place of a rectangle it brings the host's new size (RFC 6143, 7.8.2).
pub const DESKTOP_SIZE: u32 = 0xFFFF_FF21;

/// How many rectangles a FramebufferUpdate has: 3 bytes after its type (RFC 6143, 7.6.1).
pub fn read_update_head(bytes: &[u8]) -> u16
    requires { 3 ≤ length bytes.now }
    ensures { Spells update_head (take 3 bytes.now) result }
{
    let (b, _) = bytes.split_at(3);
    u16::from_be_bytes([b[1], b[2]])
}

/// How many colours a SetColorMapEntries has: 5 bytes after its type, 6 bytes a colour after them (RFC 6143, 7.6.2).
pub fn read_colour_map_head(bytes: &[u8]) -> u16
    requires { 5 ≤ length bytes.now }
    ensures { Spells colour_map_head (take 5 bytes.now) result }
{
    let (b, _) = bytes.split_at(5);
    u16::from_be_bytes([b[3], b[4]])
}

/// How many bytes a ServerCutText has: 7 bytes after its type (RFC 6143, 7.6.4).
pub fn read_text_head(bytes: &[u8]) -> u32
    requires { 7 ≤ length bytes.now }
    ensures { Spells text_head (take 7 bytes.now) result }
{
    let (b, _) = bytes.split_at(7);
    u32::from_be_bytes([b[3], b[4], b[5], b[6]])
}

/// The number of an encoding: 4 bytes (RFC 6143, 7.6.1).
pub fn read_encoding(bytes: &[u8]) -> u32
    requires { 4 ≤ length bytes.now }
    ensures { Spells u32 (take 4 bytes.now) result }
{
    let (b, _) = bytes.split_at(4);
    u32::from_be_bytes([b[0], b[1], b[2], b[3]])
}

/// The source of a CopyRect, x and then y: 4 bytes (RFC 6143, 7.7.2).
pub fn read_copy_source(bytes: &[u8]) -> (u16, u16)
    requires { 4 ≤ length bytes.now }
    ensures { Spells copy_source (take 4 bytes.now) result }
{
    let (b, _) = bytes.split_at(4);
    (
        u16::from_be_bytes([b[0], b[1]]),
        u16::from_be_bytes([b[2], b[3]]),
    )
}
