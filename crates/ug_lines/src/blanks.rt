// Blanks: space and tab.
ghost use Rattle.std.specs.Prelude.{◌≡◌, ◌≤◌, length};
ghost use Rattle.ug_lines.specs.Blanks as blanks;

pub fn is_blank(byte: u8) -> bool
    ensures { result ≡ blanks.is_line_blank byte }
{
    byte == b' ' || byte == b'\t'
}

/// The text without the blanks in front.
pub fn without_front(text: &[u8]) -> &[u8]
    ensures is { result.now ≡ blanks.without_front text.now }
    ensures shorter { length result.now ≤ length text.now }
{
    for (i, byte) in text.iter().enumerate() {
        if !is_blank(*byte) {
            return &text[i..];
        }
    }
    &text[text.len()..]
}

/// The text without the blanks behind.
pub fn without_end(text: &[u8]) -> &[u8]
    ensures { result.now ≡ blanks.without_end text.now }
{
    let mut end = text.len();
    while end > 0 {
        if !is_blank(text[end - 1]) {
            return &text[..end];
        }
        end -= 1;
    }
    &text[..0]
}
