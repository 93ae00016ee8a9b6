// Values of a rule against values of another rule.
ghost use Rattle.std.specs.Prelude.{◌≡◌, Bool};
ghost use Rattle.ug_lint.specs.Covers.{number_covers, id_covers, interface_covers};
ghost use Rattle.ug_match.specs.Covers.{covers_text};

use ug_types::{Id, Iface, Text};

/// A value of a rule that covers another where it matches whatever the other matches.
pub trait Covers {
    ghost covers: { Self → Self → Bool };

    fn covers(&self, other: &Self) -> bool
        ensures { result ≡ covers self.now other.now };
}

fn word_covers(number: Option<u16>, other: Option<u16>) -> bool
    ensures { result ≡ number_covers number other }
{
    match (number, other) {
        (None, _) => true,
        (Some(_), None) => false,
        (Some(number), Some(other)) => number == other,
    }
}

fn byte_covers(number: Option<u8>, other: Option<u8>) -> bool
    ensures { result ≡ number_covers number other }
{
    match (number, other) {
        (None, _) => true,
        (Some(_), None) => false,
        (Some(number), Some(other)) => number == other,
    }
}

impl Covers for Id {
    ghost covers = { id_covers };

    fn covers(&self, other: &Id) -> bool {
        word_covers(self.vendor, other.vendor) && word_covers(self.product, other.product)
    }
}

impl Covers for Iface {
    ghost covers = { interface_covers };

    fn covers(&self, other: &Iface) -> bool {
        self.class == other.class
            && byte_covers(self.subclass, other.subclass)
            && byte_covers(self.protocol, other.protocol)
    }
}

impl Covers for Text {
    ghost covers = { covers_text };

    fn covers(&self, other: &Text) -> bool {
        self.bytes() == other.bytes()
    }
}
