//! A sum by which many bytes are compared.

/// The largest prime below 65,536.
const MODULUS: u32 = 65_521;

/// Adler-32 (RFC 1950, 8.2).
pub(crate) fn adler(bytes: &[u8]) -> u32 {
    let mut low = 1;
    let mut high = 0;
    for byte in bytes {
        low = (low % MODULUS + u32::from(*byte)) % MODULUS;
        high = (high % MODULUS + low % MODULUS) % MODULUS;
    }
    (high & 0xFFFF) << 16 | low
}
