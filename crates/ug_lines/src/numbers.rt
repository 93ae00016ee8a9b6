// Numbers in decimal digits.
ghost use Rattle.std.specs.Prelude.{◌≡◌, nat_eq, decimal};
ghost use Rattle.std.specs.Cmp.Lexicographic.{pointwise};
ghost use Rattle.ug_lines.specs.Numbers.{number_in};

use itoa::Buffer;

fn is_decimal_of(word: &[u8], number: u64) -> bool
    ensures { result ≡ pointwise nat_eq word.now (decimal number) }
{
    let mut digits = Buffer::new();
    word == digits.format(number).as_bytes()
}

/// The number below 2^64 that the word is in decimal, without a sign or a leading zero.
pub fn parse_decimal(word: &[u8]) -> Option<u64>
    ensures { result ≡ number_in word.now }
{
    let text = match str::from_utf8(word) {
        Ok(text) => text,
        Err(_) => return None,
    };
    match text.parse::<u64>() {
        Ok(number) => {
            if is_decimal_of(word, number) {
                Some(number)
            } else {
                None
            }
        }
        Err(_) => None,
    }
}
