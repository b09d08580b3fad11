//! What `bench/pixel_format` calls.

use pixel_format::Format;

/// Tints colours into `out`, as rows of `width` pixels each, in the format that the 16 bytes tell. Answers false,
/// and leaves `out` as it was, where the format isn't accepted or `width` is 0.
#[unsafe(no_mangle)]
pub extern "C" fn bench_tint_rows(
    format: &[u8; 16],
    colours: &[u32],
    width: u32,
    out: &mut [u8],
) -> bool {
    let Ok(format) = Format::read(format) else {
        return false;
    };
    if width == 0 {
        return false;
    }
    let width = width as usize;
    let size = width * format.bytes();
    for (row, pixels) in colours.chunks_exact(width).zip(out.chunks_exact_mut(size)) {
        format.tint_row(row, pixels);
    }
    true
}
