// Bytes in a buffer, one part behind the other.
ghost use Rattle.std.specs.Prelude.{◌≡◌};
ghost use Rattle.ground.specs.Buffers.{written, place_after};

// Writes bytes from a place on and answers the place behind them. Bytes that do not fit are not written, and the answer
// is the place itself, and no failure, so that what is written in turn needs no test between.
pub fn write_bytes(buffer: &mut [u8], at: usize, bytes: &[u8]) -> usize
    ensures buffer { buffer.new ≡ written buffer.old at bytes.now }
    ensures place { result ≡ place_after buffer.old at bytes.now }
{
    if buffer.len() < at || buffer.len() - at < bytes.len() {
        return at;
    }
    buffer[at..at + bytes.len()].copy_from_slice(bytes);
    at + bytes.len()
}
