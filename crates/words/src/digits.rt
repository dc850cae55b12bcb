// Numbers in decimal and bytes in hex.
ghost use Rattle.std.specs.Prelude.{◌≡◌, ◌<◌, ◌≤◌, [], ◌∷◌, ◌++◌, IfSome, is_ok, if◌then◌else◌, decimal, OnOk};
ghost use Rattle.std.specs.Char.{digit_char};
ghost use Rattle.words.specs.Digits.{number_of, hex_pair, hex};

use itoa::Buffer;
use pixel::Pixel;
use std::alloc::AllocError;

// The number of a word of decimal digits, if it is at most `most`.
pub(crate) fn read_number(word: &[u8], most: u16) -> Option<u16>
    ensures is { result ≡ number_of most word.now }
    ensures bound { IfSome result (λ n. n ≤ most) }
{
    // std's parse also takes a leading `+`
    let mut n: u32 = 0;
    for b in word {
        let digit = char::from(*b).to_digit(10)?;
        n = 10 * n + digit;
        if n > u32::from(most) {
            return None;
        }
    }
    Some(n as u16)
}

// The byte of two hex digits.
// by hand here and below: the crate `hex` fills a list or a slice of its own, which would have to be copied behind `turn` or `out`, and its errors told apart: no plainer
pub(crate) fn hex_pair(a: u8, b: u8) -> Option<u8>
    ensures { result ≡ hex_pair a b }
{
    let high = char::from(a).to_digit(16)?;
    let low = char::from(b).to_digit(16)?;
    Some((16 * high + low) as u8)
}

// A hex digit in lower case.
fn hex_digit(n: u8) -> u8
    requires { n < 16 }
    ensures { result ≡ digit_char n }
{
    char::from_digit(u32::from(n), 16).unwrap() as u8
}

// Six hex digits behind the text, red, green and blue; or nothing where there is no memory.
pub fn write_colour(p: Pixel, out: &mut Vec<u8>) -> Result<(), AllocError>
    ensures { out.new.items ≡ (if is_ok result then out.old.items ++ hex (p.red ∷ p.green ∷ p.blue ∷ []) else out.old.items) }
{
    out.extend_from_slice(&[
        hex_digit(p.red / 16),
        hex_digit(p.red % 16),
        hex_digit(p.green / 16),
        hex_digit(p.green % 16),
        hex_digit(p.blue / 16),
        hex_digit(p.blue % 16),
    ])
}

// The bytes as hex digits behind the text.
pub(crate) fn write_hex(bytes: &[u8], out: &mut Vec<u8>) -> Result<(), AllocError>
    ensures { OnOk result (out.new.items ≡ out.old.items ++ hex bytes.now) }
{
    for b in bytes {
        out.extend_from_slice(&[hex_digit(*b / 16), hex_digit(*b % 16)])?;
    }
    Ok(())
}

// The decimal digits of a number behind the text, or nothing where there is no memory.
pub fn write_number(n: usize, out: &mut Vec<u8>) -> Result<(), AllocError>
    ensures { out.new.items ≡ (if is_ok result then out.old.items ++ decimal n else out.old.items) }
{
    let mut buffer = Buffer::new();
    out.extend_from_slice(buffer.format(n).as_bytes())
}
