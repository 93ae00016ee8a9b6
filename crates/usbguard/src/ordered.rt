// What to know of orders on the devices that a query matches.
use ug_arguments::{Command, read_command};

// Whether these words order something for the devices that a query matches.
fn is_order(rt: &HostRuntime, words: &[&str]) -> bool {
    match read_command(rt.alloc(), words) {
        Ok(command) => {
            let is_order = matches!(&command, Command::Order { .. });
            command.discard();
            is_order
        }
        Err(_) => false,
    }
}

/// What to do where such a command was refused. None for other commands.
pub fn advice_on_orders(rt: &HostRuntime, words: &[&str], status: u8) -> Option<&'static str> {
    if status == 7 && is_order(rt, words) {
        return Some(
            "No device matches, or an order was refused, as the lines say: list-devices shows them, and usbguard(1) lists the reasons.",
        );
    }
    None
}
