//! Fields of fixed length of what a host sends.

use rfb_wire::{
    read_colour_map_head, read_copy_source, read_encoding, read_text_head, read_update_head,
};

/// The number that a header tells, by every reader that tells one.
fn reads_numbers() -> bool {
    read_update_head(&[0, 1, 2]) == 258
        && read_colour_map_head(&[0, 9, 9, 1, 2]) == 258
        && read_text_head(&[0, 0, 0, 0, 1, 0, 2]) == 65538
        && read_encoding(&[255, 255, 255, 33]) == 0xFFFF_FF21
}

fn reads_source() -> bool {
    read_copy_source(&[0, 16, 1, 0]) == (16, 256)
}

#[test]
fn heads(rt: HostRuntime) {
    assert!(rt; reads_numbers() && reads_source());
}
