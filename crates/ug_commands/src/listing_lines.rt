// The lines about descriptors, each with its newline.
ghost use Rattle.std.specs.Prelude.{◌≡◌, ◌≤◌, ◌<◌, ◌+◌, ◌++◌, ◌/◌, ◌%◌, [], ◌∷◌, length, decimal};
ghost use Rattle.ug_commands.specs.ListingLines.{vendor_product_text, triple_text, device_line, configuration_line, interface_line, malformed_line};

use ug_lines::{four_digits, two_digits};
use ug_record::{Config, Descr, IfaceDescr};
use ug_types::{Line, Triple};

/// Appends a space and `vvvv:pppp`.
fn push_id(line: &mut Line, vendor: u16, product: u16)
    requires { length line.old + 9 < 512 }
    ensures text { line.new ≡ line.old ++ 32 ∷ vendor_product_text vendor product }
    ensures length { length line.new ≡ length line.old + 10 }
{
    line.push_word(&four_digits(vendor));
    line.push(b":");
    line.push(&four_digits(product));
}

/// Appends a space and `cc:ss:pp`.
fn push_triple(line: &mut Line, triple: Triple)
    requires { length line.old + 8 < 512 }
    ensures text { line.new ≡ line.old ++ 32 ∷ triple_text triple }
    ensures length { length line.new ≡ length line.old + 9 }
{
    line.push_word(&two_digits(triple.class));
    line.push(b":");
    line.push(&two_digits(triple.subclass));
    line.push(b":");
    line.push(&two_digits(triple.protocol));
}

#[tactic(auto, unfolding(crate::specs::ListingLines::device_line))]
pub fn line_of_device(descr: &Descr) -> Line
    ensures { result ≡ device_line descr.now }
{
    let mut line = Line::of(b"device");
    push_id(&mut line, descr.vendor, descr.product);
    line.push_word(b"class");
    push_triple(&mut line, descr.class);
    line.push_word(b"configurations");
    line.push_number(descr.configurations as u64);
    line.push(b"\n");
    line
}

#[tactic(auto, unfolding(crate::specs::ListingLines::configuration_line))]
pub fn line_of_configuration(config: &Config) -> Line
    ensures { result ≡ configuration_line config.now }
{
    let mut line = Line::of(b"configuration");
    line.push_number(config.value as u64);
    line.push_word(b"interfaces");
    line.push_number(config.count as u64);
    line.push(b"\n");
    line
}

#[tactic(auto, unfolding(crate::specs::ListingLines::interface_line))]
pub fn line_of_interface(interface: &IfaceDescr) -> Line
    ensures { result ≡ interface_line interface.now }
{
    let mut line = Line::of(b"interface");
    line.push_number(interface.number as u64);
    line.push_word(b"alternate");
    line.push_number(interface.alternate as u64);
    line.push_word(b"class");
    push_triple(&mut line, interface.triple);
    line.push_word(b"endpoints");
    line.push_number(interface.endpoints as u64);
    line.push(b"\n");
    line
}

#[tactic(auto, unfolding(crate::specs::ListingLines::malformed_line))]
pub fn line_of_malformed(kind: u8, place: u64) -> Line
    ensures { result ≡ malformed_line kind place }
{
    let mut line = Line::of(b"bad descriptors kind");
    line.push_number(kind as u64);
    line.push_word(b"place");
    line.push_number(place);
    line.push(b"\n");
    line
}
