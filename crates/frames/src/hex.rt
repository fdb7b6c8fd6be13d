// Numbers as hexadecimal digits 0 to 9 and A to F, highest first.
// By hand: the library reads small letters too, and its formatter may fail.
ghost use Rattle.std.specs.Prelude.{◌≡◌, ◌<◌, ◌≤◌, length};
ghost use Rattle.frames.specs.Hex.{hex_char, hex_digit, hexed, hex_number};

// The digit of a number below sixteen.
fn digit_char(value: u8) -> u8
    requires { value < 16 }
    ensures { result ≡ hex_char value }
{
    if value < 10 {
        b'0' + value
    } else {
        b'A' - 10 + value
    }
}

// The number of a digit, or `None` where the byte is none.
fn digit_value(byte: u8) -> Option<u8>
    ensures { result ≡ hex_digit byte }
{
    match byte {
        b'0'..=b'9' => Some(byte - b'0'),
        b'A'..=b'F' => Some(byte - b'A' + 10),
        _ => None,
    }
}

// Fills `out` with the lowest digits of `number`.
pub(crate) fn write_hex(number: u32, out: &mut [u8])
    ensures { out.new ≡ hexed (length out.old) number }
{
    if let Some((last, front)) = out.split_last_mut() {
        *last = digit_char((number % 16) as u8);
        write_hex(number / 16, front);
    }
}

// The number that at most eight digits write, or `None` where a byte is no digit.
pub(crate) fn read_hex(text: &[u8]) -> Option<u32>
    requires { length text.now ≤ 8 }
    ensures { result ≡ hex_number 0 text.now }
{
    let mut number: u32 = 0;
    for byte in text {
        let digit = digit_value(*byte)?;
        number = number * 16 + u32::from(digit);
    }
    Some(number)
}
