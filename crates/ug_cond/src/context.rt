// When a device is judged.
use ug_types::Moment;

/// The moment at which a device is judged.
#[derive(Clone, Copy)]
pub struct Context {
    pub moment: Moment,
    /// The second of the local day, from 0 to 86,399.
    pub second: u32,
}
