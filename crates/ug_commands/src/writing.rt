// The lines about descriptors, one call of the sink for each.
ghost use Rattle.std.specs.Prelude.{◌≡◌, ◌≤◌};
ghost use Rattle.ug_types.specs.Ends.{Puts, Rose};
ghost use Rattle.ug_commands.specs.ListingLines.{configuration_text, listing_text};

use crate::listing_lines::{line_of_configuration, line_of_device, line_of_interface};
use ug_record::{Config, Descr};
use ug_types::{Put, Sink};

/// Writes the device's line and its configurations. After a failed call of the sink nothing more is written.
pub fn write_listing<K: Sink>(out: &mut K, descr: &Descr) -> Put
    ensures put { Puts (K.held out.old) (K.held out.new) (listing_text descr.now) result }
    ensures counted { K.faults out.old ≤ K.faults out.new }
    ensures cause { result ≡ Put.Failed → Rose (K.faults out.old) (K.faults out.new) }
{
    if let Put::Failed = out.put(line_of_device(descr).bytes()) {
        return Put::Failed;
    }
    for config in descr.configs.as_slice() {
        if let Put::Failed = write_configuration(out, config) {
            return Put::Failed;
        }
    }
    Put::Done
}

fn write_configuration<K: Sink>(out: &mut K, config: &Config) -> Put
    ensures put { Puts (K.held out.old) (K.held out.new) (configuration_text config.now) result }
    ensures counted { K.faults out.old ≤ K.faults out.new }
    ensures cause { result ≡ Put.Failed → Rose (K.faults out.old) (K.faults out.new) }
{
    if let Put::Failed = out.put(line_of_configuration(config).bytes()) {
        return Put::Failed;
    }
    for interface in config.items.as_slice() {
        if let Put::Failed = out.put(line_of_interface(interface).bytes()) {
            return Put::Failed;
        }
    }
    Put::Done
}
