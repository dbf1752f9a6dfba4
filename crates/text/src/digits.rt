// Digits in a buffer. What is written is written whole, as `ground::buffer::write_bytes` does: bytes that do not fit
// are not written, and the answer is then the place itself. The place goes from call to call as a number, and not in a
// struct with the buffer, as the public functions take and answer it so.
ghost use Rattle.std.specs.Prelude.{◌≡◌, ◌++◌, ◌+◌, ◌^◌, ◌≤◌, ◌<◌};
ghost use Rattle.ground.specs.Buffers.{written, place_after};
ghost use Rattle.text.specs.Digits.{digit as Digits·digit, decimal, hex_byte};
ghost use Rattle.text.specs.Inner.Before.{WrittenBefore};
ghost use Rattle.text.specs.Inner.Writing.{Puts};

use ground::buffer::write_bytes;

// A digit: `0` to `9`, then `a` to `f`. Text is made here and not by `Display`, as each of its bytes is stated.
fn digit(value: u8) -> u8
    requires { value < 16 }
    ensures { result ≡ Digits·digit value }
{
    if value < 10 {
        b'0' + value
    } else {
        b'a' + (value - 10)
    }
}

// Writes a number below ten, and answers the place behind it.
fn write_digit(text: &mut [u8], at: usize, n: usize) -> usize
    requires { n < 10 }
    ensures { Puts text.old at (decimal n) text.new result }
{
    // A cast, as the number fits: `try_from` would add an error that never comes.
    let one = [digit(n as u8)];
    write_bytes(text, at, &one)
}

// Writes a word and a number below ten behind it, if so many more bytes fit behind these, and answers the place behind
// them; else it writes nothing.
fn write_first(text: &mut [u8], at: usize, word: &[u8], n: usize, more: usize) -> Option<usize>
    requires { n < 10 }
    ensures { WrittenBefore text.old at (word.now ++ decimal n) more text.new result }
{
    let room = text.len().checked_sub(at)?.checked_sub(more)?;
    if room <= word.len() {
        return None;
    }
    let place = write_bytes(text, at, word);
    Some(write_digit(text, place, n))
}

// Writes a word and a number behind it, the most significant digit first, if so many more bytes fit behind these, and
// answers the place behind them; else it writes nothing. The digits before the last one are those of the number divided
// by ten, with one byte more behind them.
fn write_before(text: &mut [u8], at: usize, word: &[u8], n: usize, more: usize) -> Option<usize>
    requires { more + n ≤ 2 ^ 64 }
    ensures { WrittenBefore text.old at (word.now ++ decimal n) more text.new result }
{
    if n < 10 {
        return write_first(text, at, word, n, more);
    }
    let place = write_before(text, at, word, n / 10, more + 1)?;
    Some(write_digit(text, place, n % 10))
}

// Writes a number in decimal, and answers the place behind it.
pub fn write_decimal(text: &mut [u8], at: usize, n: usize) -> usize
    ensures buffer { text.new ≡ written text.old at (decimal n) }
    ensures place { result ≡ place_after text.old at (decimal n) }
{
    write_before(text, at, b"", n, 0).unwrap_or(at)
}

// Writes a word and a number in decimal behind it, and answers the place behind both.
pub fn write_count(text: &mut [u8], at: usize, word: &[u8], n: usize) -> usize
    ensures buffer { text.new ≡ written text.old at (word.now ++ decimal n) }
    ensures place { result ≡ place_after text.old at (word.now ++ decimal n) }
{
    write_before(text, at, word, n, 0).unwrap_or(at)
}

// Writes a byte as two hex digits, and answers the place behind them.
pub fn write_hex(text: &mut [u8], at: usize, byte: u8) -> usize
    ensures buffer { text.new ≡ written text.old at (hex_byte byte) }
    ensures place { result ≡ place_after text.old at (hex_byte byte) }
{
    let digits = [digit(byte / 16), digit(byte % 16)];
    write_bytes(text, at, &digits)
}
