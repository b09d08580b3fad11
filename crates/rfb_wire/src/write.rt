//! Writing messages into a slice (RFC 6143, 7.5 and 7.6).
//!
//! Each writer spells one message, or the header of one, at the front of `out`, leaves what follows it, and answers
//! how many bytes it wrote. Padding is written as 0, a flag as 0 or 1.

ghost use Rattle.std.specs.Prelude.{◌≡◌, ◌≤◌, ◌<◌, ◌+◌, ◌*◌, ◌^◌, [], ◌∷◌, ◌++◌, length};
ghost use Rattle.std.specs.Int.{w32, to_be_bytes};
ghost use Rattle.pixel_format.specs.PixelFormat.{host_format, format_bytes};
ghost use Rattle.rfb_wire.specs.Handshake.{server_init, said_to_viewer};
ghost use Rattle.rfb_wire.specs.Writing.{Writes, update_head_bytes, rectangle_head_bytes, set_encodings_bytes, size_bytes, request_bytes, key_bytes, pointer_bytes, client_text_bytes, bell_bytes, server_text_bytes, text_bytes, text_head_bytes, set_pixel_format_bytes};

use crate::head::DESKTOP_SIZE;
use crate::message_type::{
    BELL, CLIENT_CUT_TEXT, FRAMEBUFFER_UPDATE, FRAMEBUFFER_UPDATE_REQUEST, KEY_EVENT,
    POINTER_EVENT, SERVER_CUT_TEXT, SET_ENCODINGS, SET_PIXEL_FORMAT,
};
use crate::security_type::NONE;
use crate::version::{VERSION, VERSION_LEN};
use byteorder::{BigEndian, ByteOrder};
use pixel_format::Format;
use raster::{Rect, Size};

/// How many bytes the header of a rectangle has (RFC 6143, 7.6.1).
pub const RECTANGLE_HEAD_LEN: usize = 12;

/// How many bytes the header of a cut text has, a viewer's or a server's (RFC 6143, 7.5.6 and 7.6.4).
pub const TEXT_HEAD_LEN: usize = 8;

/// Copies these bytes to the front.
fn put(bytes: &[u8], out: &mut [u8]) -> usize
    requires { length bytes.now ≤ length out.old }
    ensures { Writes bytes.now out.old out.new result }
{
    let (front, _) = out.split_at_mut(bytes.len());
    front.copy_from_slice(bytes);
    bytes.len()
}

/// The header of a FramebufferUpdate of this many rectangles: 4 bytes (RFC 6143, 7.6.1).
pub fn write_update_head(count: u16, out: &mut [u8]) -> usize
    requires { 4 ≤ length out.old }
    ensures { Writes (update_head_bytes count) out.old out.new result }
{
    let [high, low] = count.to_be_bytes();
    put(&[FRAMEBUFFER_UPDATE, 0, high, low], out)
}

/// A rectangle's header, which its data follow: its position and size in pixels, and the number of its encoding, 12
/// bytes in all (RFC 6143, 7.6.1).
pub fn write_rectangle_head(area: &Rect, encoding: u32, out: &mut [u8]) -> usize
    requires room { 12 ≤ length out.old }
    requires across { area.now.x + area.now.w < 2 ^ 16 }
    requires down { area.now.y + area.now.h < 2 ^ 16 }
    ensures { Writes (rectangle_head_bytes area.now encoding) out.old out.new result }
{
    let [x1, x0, y1, y0, w1, w0, h1, h0] = area.write();
    let [e3, e2, e1, e0] = encoding.to_be_bytes();
    put(&[x1, x0, y1, y0, w1, w0, h1, h0, e3, e2, e1, e0], out)
}

/// A FramebufferUpdate whose only rectangle tells a size of the screen: 16 bytes (RFC 6143, 7.8.2).
pub fn write_size(size: Size, out: &mut [u8]) -> usize
    requires room { 16 ≤ length out.old }
    requires wide { size.width < 2 ^ 16 }
    requires high { size.height < 2 ^ 16 }
    ensures { Writes (size_bytes size) out.old out.new result }
{
    let area = Rect {
        x: 0,
        y: 0,
        w: size.width,
        h: size.height,
    };
    let (front, back) = out.split_at_mut(4);
    write_update_head(1, front);
    4 + write_rectangle_head(&area, DESKTOP_SIZE, back)
}

/// SetPixelFormat with this format: 20 bytes (RFC 6143, 7.5.1).
pub fn write_set_pixel_format(format: &Format, out: &mut [u8]) -> usize
    requires { 20 ≤ length out.old }
    ensures { Writes (set_pixel_format_bytes format.now) out.old out.new result }
{
    let mut bytes = [0; 16];
    format.write(&mut bytes);
    let (front, back) = out.split_at_mut(4);
    front.copy_from_slice(&[SET_PIXEL_FORMAT, 0, 0, 0]);
    4 + put(&bytes, back)
}

/// SetEncodings with these encodings, the one liked best first: 4 bytes and 4 for each (RFC 6143, 7.5.2).
pub fn write_set_encodings(encodings: &[u32], out: &mut [u8]) -> usize
    requires few { length encodings.now < 2 ^ 16 }
    requires room { 4 + 4 * length encodings.now ≤ length out.old }
    ensures { Writes (set_encodings_bytes encodings.now) out.old out.new result }
{
    let [high, low] = (encodings.len() as u16).to_be_bytes();
    put(&[SET_ENCODINGS, 0, high, low], out);
    let end = 4 + 4 * encodings.len();
    BigEndian::write_u32_into(encodings, &mut out[4..end]);
    end
}

/// A FramebufferUpdateRequest: 10 bytes (RFC 6143, 7.5.3).
pub fn write_request(incremental: bool, area: &Rect, out: &mut [u8]) -> usize
    requires room { 10 ≤ length out.old }
    requires across { area.now.x + area.now.w < 2 ^ 16 }
    requires down { area.now.y + area.now.h < 2 ^ 16 }
    ensures { Writes (request_bytes incremental area.now) out.old out.new result }
{
    let [x1, x0, y1, y0, w1, w0, h1, h0] = area.write();
    put(
        &[
            FRAMEBUFFER_UPDATE_REQUEST,
            u8::from(incremental),
            x1,
            x0,
            y1,
            y0,
            w1,
            w0,
            h1,
            h0,
        ],
        out,
    )
}

/// A KeyEvent: 8 bytes (RFC 6143, 7.5.4).
pub fn write_key(down: bool, key: u32, out: &mut [u8]) -> usize
    requires { 8 ≤ length out.old }
    ensures { Writes (key_bytes down key) out.old out.new result }
{
    let [k3, k2, k1, k0] = key.to_be_bytes();
    put(&[KEY_EVENT, u8::from(down), 0, 0, k3, k2, k1, k0], out)
}

/// A PointerEvent with the buttons that are down as the bits of `mask`: 6 bytes (RFC 6143, 7.5.5).
pub fn write_pointer(mask: u8, x: u16, y: u16, out: &mut [u8]) -> usize
    requires { 6 ≤ length out.old }
    ensures { Writes (pointer_bytes mask x y) out.old out.new result }
{
    let [x1, x0] = x.to_be_bytes();
    let [y1, y0] = y.to_be_bytes();
    put(&[POINTER_EVENT, mask, x1, x0, y1, y0], out)
}

/// A text or a name after the number of its bytes.
fn put_counted(text: &[u8], out: &mut [u8]) -> usize
    requires few { length text.now < 2 ^ 32 }
    requires room { 4 + length text.now ≤ length out.old }
    ensures { Writes (to_be_bytes w32 (length text.now) ++ text.now) out.old out.new result }
{
    put(&(text.len() as u32).to_be_bytes(), out);
    4 + put(text, &mut out[4..])
}

/// The type of a message that is a text, and the number of the text's bytes.
fn put_text_head(kind: u8, len: u32, out: &mut [u8]) -> usize
    requires { 8 ≤ length out.old }
    ensures { Writes (text_head_bytes kind len) out.old out.new result }
{
    let [n3, n2, n1, n0] = len.to_be_bytes();
    put(&[kind, 0, 0, 0, n3, n2, n1, n0], out)
}

/// A text after the header of its message.
fn put_text(kind: u8, text: &[u8], out: &mut [u8]) -> usize
    requires few { length text.now < 2 ^ 32 }
    requires room { 8 + length text.now ≤ length out.old }
    ensures { Writes (text_bytes kind text.now) out.old out.new result }
{
    put_text_head(kind, text.len() as u32, out);
    TEXT_HEAD_LEN + put(text, &mut out[TEXT_HEAD_LEN..])
}

/// The header of a ClientCutText, which a text of `len` bytes follows: 8 bytes (RFC 6143, 7.5.6).
pub fn write_client_text_head(len: u32, out: &mut [u8]) -> usize
    requires { 8 ≤ length out.old }
    ensures { Writes (text_head_bytes 6 len) out.old out.new result }
{
    put_text_head(CLIENT_CUT_TEXT, len, out)
}

/// A ClientCutText: 8 bytes and the Latin-1 text, unchanged (RFC 6143, 7.5.6).
pub fn write_client_text(text: &[u8], out: &mut [u8]) -> usize
    requires few { length text.now < 2 ^ 32 }
    requires room { 8 + length text.now ≤ length out.old }
    ensures { Writes (client_text_bytes text.now) out.old out.new result }
{
    put_text(CLIENT_CUT_TEXT, text, out)
}

/// A Bell: one byte (RFC 6143, 7.6.3).
pub fn write_bell(out: &mut [u8]) -> usize
    requires { 1 ≤ length out.old }
    ensures { Writes bell_bytes out.old out.new result }
{
    put(&[BELL], out)
}

/// A ServerCutText: 8 bytes and the Latin-1 text, unchanged (RFC 6143, 7.6.4).
pub fn write_server_text(text: &[u8], out: &mut [u8]) -> usize
    requires few { length text.now < 2 ^ 32 }
    requires room { 8 + length text.now ≤ length out.old }
    ensures { Writes (server_text_bytes text.now) out.old out.new result }
{
    put_text(SERVER_CUT_TEXT, text, out)
}

/// The format that viewers are told, and the name after it.
fn put_format_and_name(name: &[u8], out: &mut [u8]) -> usize
    requires few { length name.now < 2 ^ 32 }
    requires room { 20 + length name.now ≤ length out.old }
    ensures { Writes (format_bytes host_format ++ to_be_bytes w32 (length name.now) ++ name.now)
        out.old out.new result }
{
    let mut format = [0; 16];
    Format::HOST.write(&mut format);
    let (front, back) = out.split_at_mut(16);
    front.copy_from_slice(&format);
    16 + put_counted(name, back)
}

/// A ServerInit, with the size of the screen in pixels, the format of `Format::HOST`, and the name: 24 bytes and the
/// name (RFC 6143, 7.3.2).
pub fn write_server_init(w: u16, h: u16, name: &[u8], out: &mut [u8]) -> usize
    requires few { length name.now < 2 ^ 32 }
    requires room { 24 + length name.now ≤ length out.old }
    ensures { Writes (server_init w h name.now) out.old out.new result }
{
    let [w1, w0] = w.to_be_bytes();
    let [h1, h0] = h.to_be_bytes();
    let (front, back) = out.split_at_mut(4);
    front.copy_from_slice(&[w1, w0, h1, h0]);
    4 + put_format_and_name(name, back)
}

/// What is said after the version and before ServerInit: one security type, None, and SecurityResult 0 (RFC
/// 6143, 7.1.2 and 7.1.3).
const SECURITY: [u8; 6] = [1, NONE, 0, 0, 0, 0];

/// How many bytes of a handshake are said before ServerInit: the version, the security types and SecurityResult.
pub(crate) const BEFORE_INIT_LEN: usize = 18;

/// How many bytes are said before the name: those before ServerInit, and the first 24 of ServerInit.
pub(crate) const BEFORE_NAME_LEN: usize = 42;

/// What a server says after its version.
fn put_security_and_init(w: u16, h: u16, name: &[u8], out: &mut [u8]) -> usize
    requires few { length name.now < 2 ^ 32 }
    requires room { 30 + length name.now ≤ length out.old }
    ensures { Writes ((1 ∷ 1 ∷ 0 ∷ 0 ∷ 0 ∷ 0 ∷ []) ++ server_init w h name.now)
        out.old out.new result }
{
    let (front, back) = out.split_at_mut(SECURITY.len());
    front.copy_from_slice(&SECURITY);
    SECURITY.len() + write_server_init(w, h, name, back)
}

/// All that a server says in a handshake, one answer after the other: the version, the security types, the
/// SecurityResult and ServerInit, 42 bytes and the name.
pub(crate) fn write_handshake(w: u16, h: u16, name: &[u8], out: &mut [u8]) -> usize
    requires few { length name.now < 2 ^ 32 }
    requires room { BEFORE_NAME_LEN + length name.now ≤ length out.old }
    ensures { Writes (said_to_viewer w h name.now 14) out.old out.new result }
{
    let (front, back) = out.split_at_mut(VERSION_LEN);
    front.copy_from_slice(&VERSION);
    VERSION_LEN + put_security_and_init(w, h, name, back)
}
