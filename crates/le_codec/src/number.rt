// A number that has a field to itself.
ghost use Rattle.std.specs.Prelude.{◌≡◌, length};
ghost use Rattle.std.specs.Int.{w32, w64, from_le_bytes};

/// The number in 4 bytes, the lowest first.
pub fn number_4(field: &[u8]) -> u32
    requires { length field.now ≡ 4 }
    ensures { result ≡ from_le_bytes w32 field.now }
{
    let mut bytes = [0; 4];
    bytes.copy_from_slice(field);
    u32::from_le_bytes(bytes)
}

/// The number in 8 bytes, the lowest first.
pub fn number_8(field: &[u8]) -> u64
    requires { length field.now ≡ 8 }
    ensures { result ≡ from_le_bytes w64 field.now }
{
    let mut bytes = [0; 8];
    bytes.copy_from_slice(field);
    u64::from_le_bytes(bytes)
}
