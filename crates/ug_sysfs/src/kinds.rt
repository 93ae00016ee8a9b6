// The kind of each answer.
ghost use Rattle.std.specs.Prelude.{◌≡◌};
ghost use Rattle.ug_kernel.specs.Entries.{listing_kind, opened_kind, read_kind, probe_kind, wrote_kind};

use ug_kernel::{Kind, Listing, Opened, Probe, ReadOut, Wrote};

pub fn kind_of_listing(answer: &Listing) -> Kind
    ensures { result ≡ listing_kind answer.now }
{
    match answer {
        Listing::Names(_) => Kind::Names,
        Listing::Failed => Kind::Failed,
        Listing::Memory => Kind::Memory,
    }
}

pub fn kind_of_opened(answer: Opened) -> Kind
    ensures { result ≡ opened_kind answer }
{
    match answer {
        Opened::Token(_) => Kind::Token,
        Opened::Absent => Kind::Absent,
        Opened::Failed => Kind::Failed,
        Opened::Memory => Kind::Memory,
    }
}

pub fn kind_of_read(answer: &ReadOut) -> Kind
    ensures { result ≡ read_kind answer.now }
{
    match answer {
        ReadOut::Bytes(_) => Kind::Bytes,
        ReadOut::Absent => Kind::Absent,
        ReadOut::TooLong => Kind::TooLong,
        ReadOut::Failed => Kind::Failed,
        ReadOut::Memory => Kind::Memory,
    }
}

pub fn kind_of_probe(answer: Probe) -> Kind
    ensures { result ≡ probe_kind answer }
{
    match answer {
        Probe::Alive(_) => Kind::Alive,
        Probe::Gone => Kind::Gone,
        Probe::Failed => Kind::Failed,
    }
}

pub fn kind_of_wrote(answer: Wrote) -> Kind
    ensures { result ≡ wrote_kind answer }
{
    match answer {
        Wrote::Done => Kind::Done,
        Wrote::Gone => Kind::Gone,
        Wrote::Failed => Kind::Failed,
    }
}
