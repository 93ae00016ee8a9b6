// Node names, read byte by byte.
ghost use Rattle.std.specs.Prelude.{◌≡◌, MatchOption};
ghost use Rattle.ug_types.specs.Reading.{after, ends_name, only_letter, first_digit, with_digit};
ghost use Rattle.ug_types.specs.NodeNames.{IsNodeName, StopsAt};

/// What the bytes so far are.
#[derive(Clone, Copy)]
pub enum Reading {
    Start,
    U,
    Us,
    Usb,
    /// The name of a root hub, with its bus number so far.
    RootHub(u16),
    /// A bus number so far.
    Bus(u16),
    /// A dash or a dot stands last.
    Mark,
    /// The name of a device, with its last port number so far.
    Port(u16),
}

impl Reading {
    /// After one more byte, where some name goes on so.
    fn after(self, byte: u8) -> Option<Reading>
        ensures { result ≡ after self byte }
    {
        match self {
            Reading::Start => {
                if byte == b'u' {
                    return Some(Reading::U);
                }
                first_digit(byte).map(Reading::Bus)
            }
            Reading::U => only(b's', Reading::Us, byte),
            Reading::Us => only(b'b', Reading::Usb, byte),
            Reading::Usb => first_digit(byte).map(Reading::RootHub),
            Reading::RootHub(bus) => with_digit(999, bus, byte).map(Reading::RootHub),
            Reading::Bus(bus) => {
                if byte == b'-' {
                    return Some(Reading::Mark);
                }
                with_digit(999, bus, byte).map(Reading::Bus)
            }
            Reading::Mark => first_digit(byte).map(Reading::Port),
            Reading::Port(port) => {
                if byte == b'.' {
                    return Some(Reading::Mark);
                }
                with_digit(255, port, byte).map(Reading::Port)
            }
        }
    }

    fn ends_name(self) -> bool
        ensures { result ≡ ends_name self }
    {
        matches!(self, Reading::RootHub(_) | Reading::Port(_))
    }
}

fn only(letter: u8, next: Reading, byte: u8) -> Option<Reading>
    ensures { result ≡ only_letter letter next byte }
{
    if byte == letter { Some(next) } else { None }
}

fn first_digit(byte: u8) -> Option<u16>
    ensures { result ≡ first_digit byte }
{
    if matches!(byte, b'1'..=b'9') {
        Some((byte - b'0') as u16)
    } else {
        None
    }
}

fn with_digit(most: u16, number: u16, byte: u8) -> Option<u16>
    ensures { result ≡ with_digit most number byte }
{
    if !byte.is_ascii_digit() {
        return None;
    }
    let longer = number as u32 * 10 + (byte - b'0') as u32;
    if longer <= most as u32 {
        Some(longer as u16)
    } else {
        None
    }
}

/// Where the text stops being the beginning of a name, or its length where it ends too early; None where it is a name.
pub fn stop(text: &[u8]) -> Option<usize>
    ensures { MatchOption result (IsNodeName text.now) (λ place. (¬ IsNodeName text.now)
        × StopsAt text.now place) }
{
    let mut state = Reading::Start;
    for (i, byte) in text.iter().enumerate() {
        match state.after(*byte) {
            Some(next) => state = next,
            None => return Some(i),
        }
    }
    if state.ends_name() {
        None
    } else {
        Some(text.len())
    }
}
