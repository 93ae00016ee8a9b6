// Dashes and dots in a name.
ghost use Rattle.std.specs.Prelude.{◌≡◌, ◌≤◌, IfSome, length, take};
ghost use Rattle.std.specs.Option.{option_map};
ghost use Rattle.ug_types.specs.Names.{before_dash, before_last_dot, depth_of};
ghost use Rattle.ug_types.specs.Names as names;

/// The place of the last dot.
pub fn last_dot(text: &[u8]) -> Option<usize>
    ensures front { option_map (λ dot. take dot text.now) result ≡ before_last_dot text.now }
    ensures within { IfSome result (λ dot. dot ≤ length text.now) }
{
    let mut last = None;
    for (i, byte) in text.iter().enumerate() {
        if *byte == b'.' {
            last = Some(i);
        }
    }
    last
}

/// The place of the first dash.
pub fn first_dash(text: &[u8]) -> Option<usize>
    ensures front { option_map (λ dash. take dash text.now) result ≡ before_dash text.now }
    ensures within { IfSome result (λ dash. dash ≤ length text.now) }
{
    for (i, byte) in text.iter().enumerate() {
        if *byte == b'-' {
            return Some(i);
        }
    }
    None
}

fn is_mark(byte: u8) -> bool
    ensures { result ≡ names.is_mark byte }
{
    byte == b'-' || byte == b'.'
}

pub fn count_marks(text: &[u8]) -> u8
    requires { length text.now ≤ 31 }
    ensures { result ≡ depth_of text.now }
{
    let mut count: u8 = 0;
    for byte in text {
        if is_mark(*byte) {
            count += 1;
        }
    }
    count
}
