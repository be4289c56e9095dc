//! Numbers of a text, big-endian.
ghost use Rattle.std.specs.Prelude.{◌≡◌, FitsSigned, length};
ghost use Rattle.std.specs.Int.{w64};
ghost use Rattle.tbnode.specs.Parts.{signed_bytes};

/// Eight bytes to write over.
fn eight_zeros() -> [u8; 8] {
    [0; 8]
}

/// The number of eight bytes, as two's complement.
pub(crate) fn i64_of(bytes: &[u8]) -> i64
    requires { length bytes.now ≡ 8 }
    ensures bytes { signed_bytes result ≡ bytes.now }
    ensures fits { FitsSigned w64 result }
{
    let mut array = eight_zeros();
    array.copy_from_slice(bytes);
    i64::from_be_bytes(array)
}
