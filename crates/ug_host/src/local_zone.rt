// The time zone of this machine.
ghost use Rattle.std.specs.Prelude.{◌≡◌, Ok, IfSome};
ghost use Rattle.jiff_tz.specs.Tzif.{tzif_view};
ghost use Rattle.jiff_tz.specs.TzifReader.{read_tzif};
ghost use Rattle.ug_host.specs.Zones.{IsZoneOf};

use crate::civil_zone::CivilZone;
use jiff_tz::{TimeZone, Tzif};
use std::alloc::Global;
use std::rt::Files;
use ug_files::{Content, read_at};

/// The zone that the machine's clock on the wall shows.
#[derive(Drop)]
pub struct LocalZone {
    table: Option<Tzif>,
}

impl LocalZone {
    /// Reads a file such as `/etc/localtime` (localtime(5), tzfile(5)). The zone is UTC where the file is missing, can't be read or has
    /// another format, and where there is no memory for it.
    pub fn read<R: Files>(rt: &R, alloc: Global, path: &str) -> LocalZone {
        match read_at(rt, alloc, path) {
            Ok(Some(Content::Whole(text))) => LocalZone::of(alloc, text.bytes()),
            _ => LocalZone { table: None },
        }
    }

    // The zone of a file with these bytes.
    fn of(alloc: Global, bytes: &[u8]) -> LocalZone
        ensures { IfSome result.table (λ table. read_tzif bytes.now ≡ Ok (tzif_view table)) }
    {
        LocalZone {
            table: Tzif::parse(alloc, None, bytes).ok(),
        }
    }

    /// The zone as `jiff` has it.
    pub fn civil(&self) -> CivilZone<'_>
        ensures { IsZoneOf self.now.table result.zone }
    {
        let zone = match &self.table {
            Some(table) => TimeZone::Tzif(table),
            None => TimeZone::UTC,
        };
        CivilZone { zone }
    }
}
