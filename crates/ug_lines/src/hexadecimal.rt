// Hexadecimal digits in lower case.
ghost use Rattle.std.specs.Prelude.{◌≡◌, ◌<◌};
ghost use Rattle.std.specs.Char.{digit_char};
ghost use Rattle.ug_lines.specs.Digits.{hex_four, hex_two};

fn digit(n: u8) -> u8
    requires { n < 16 }
    ensures { result ≡ digit_char n }
{
    if n < 10 { b'0' + n } else { b'a' - 10 + n }
}

/// The number as two digits, 0 to 9 and a to f.
pub fn two_digits(n: u8) -> [u8; 2]
    ensures { result ≡ hex_two n }
{
    [digit(n / 16), digit(n % 16)]
}

/// The number as four digits, 0 to 9 and a to f.
pub fn four_digits(n: u16) -> [u8; 4]
    ensures { result ≡ hex_four n }
{
    let high = (n / 256) as u8;
    let low = (n % 256) as u8;
    [
        digit(high / 16),
        digit(high % 16),
        digit(low / 16),
        digit(low % 16),
    ]
}
