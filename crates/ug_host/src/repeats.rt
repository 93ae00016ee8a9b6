// What sweeps say again and again.

/// Troubles that last: a save that is pending, and a listing that fails.
#[derive(Clone, Copy)]
struct Troubles {
    failed_save: bool,
    save_without_memory: bool,
    failed_listing: bool,
    listing_without_memory: bool,
}

const NONE: Troubles = Troubles {
    failed_save: false,
    save_without_memory: false,
    failed_listing: false,
    listing_without_memory: false,
};

/// One of them.
#[derive(Clone, Copy)]
enum Trouble {
    FailedSave,
    SaveWithoutMemory,
    FailedListing,
    ListingWithoutMemory,
}

fn trouble_in(line: &[u8]) -> Option<Trouble> {
    if line.starts_with(b"save failed") {
        Some(Trouble::FailedSave)
    } else if line.starts_with(b"save memory") {
        Some(Trouble::SaveWithoutMemory)
    } else if line.starts_with(b"unsettled * fault ") {
        Some(Trouble::FailedListing)
    } else if line.starts_with(b"unsettled * memory") {
        Some(Trouble::ListingWithoutMemory)
    } else {
        None
    }
}

impl Troubles {
    fn has(&self, trouble: Trouble) -> bool {
        match trouble {
            Trouble::FailedSave => self.failed_save,
            Trouble::SaveWithoutMemory => self.save_without_memory,
            Trouble::FailedListing => self.failed_listing,
            Trouble::ListingWithoutMemory => self.listing_without_memory,
        }
    }

    fn add(&mut self, trouble: Trouble) {
        match trouble {
            Trouble::FailedSave => self.failed_save = true,
            Trouble::SaveWithoutMemory => self.save_without_memory = true,
            Trouble::FailedListing => self.failed_listing = true,
            Trouble::ListingWithoutMemory => self.listing_without_memory = true,
        }
    }
}

/// Reads along in a journal, and knows a line that tells a trouble which the event before told too.
#[derive(Drop)]
pub struct Repeats {
    /// What the last event told, and what the present one has told so far.
    last: Troubles,
    present: Troubles,
}

impl Repeats {
    pub fn new() -> Repeats {
        Repeats {
            last: NONE,
            present: NONE,
        }
    }

    /// An event ends.
    pub fn end_event(&mut self) {
        self.last = self.present;
        self.present = NONE;
    }

    /// Takes a line of an event, and tells whether the event before had it too.
    pub fn is_repeated(&mut self, line: &[u8]) -> bool {
        let Some(trouble) = trouble_in(line) else {
            return false;
        };
        self.present.add(trouble);
        self.last.has(trouble)
    }
}
