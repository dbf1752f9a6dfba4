// Bytes as numbers, and bits as bytes.
ghost use Rattle.std.specs.Prelude.{◌≡◌, ◌<◌};
ghost use Rattle.ground.specs.Buffers.{byte_of, byte_values};

// A byte as a number, which is said to be below 256.
pub fn wide(byte: u8) -> u16
    ensures { (result ≡ byte) × (result < byte_values) }
{
    u16::from(byte)
}

// A bit as a byte: std's `From`, as a public function of this name.
pub fn byte_of(bit: bool) -> u8
    ensures { result ≡ byte_of bit }
{
    u8::from(bit)
}
