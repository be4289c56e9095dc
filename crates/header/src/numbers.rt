//! Numbers of bytes, big-endian.
ghost use Rattle.std.specs.Prelude.{◌≡◌, length};
ghost use Rattle.byteorder.specs.Endian.{big_bytes};

/// Eight bytes to write over.
fn eight_zeros() -> [u8; 8] {
    [0; 8]
}

/// The number of eight bytes.
pub fn u64_of(bytes: &[u8]) -> u64
    // There are eight bytes.
    requires { length bytes.now ≡ 8 }
    // They are the number, big-endian.
    ensures { big_bytes 8 result ≡ bytes.now }
{
    let mut array = eight_zeros();
    array.copy_from_slice(bytes);
    u64::from_be_bytes(array)
}

/// Four bytes to write over.
fn four_zeros() -> [u8; 4] {
    [0; 4]
}

/// The number of four bytes.
pub fn u32_of(bytes: &[u8]) -> u32
    // There are four bytes.
    requires { length bytes.now ≡ 4 }
    // They are the number, big-endian.
    ensures { big_bytes 4 result ≡ bytes.now }
{
    let mut array = four_zeros();
    array.copy_from_slice(bytes);
    u32::from_be_bytes(array)
}

/// The number of two bytes.
pub fn u16_of(bytes: &[u8]) -> u16
    // There are two bytes.
    requires { length bytes.now ≡ 2 }
    // They are the number, big-endian.
    ensures { big_bytes 2 result ≡ bytes.now }
{
    let mut array = [0; 2];
    array.copy_from_slice(bytes);
    u16::from_be_bytes(array)
}
