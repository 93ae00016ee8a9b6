// Seconds of local days.
use jiff_tz::{TimeZone, posix};
use ug_casefile::{Answer, number_of, split_word};
use ug_cond::{FixedZone, Zone};
use ug_host::CivilZone;
use ug_types::Moment;

// So many seconds ahead of UTC.
fn fixed(sign: i32, digits: &[u8]) -> Option<FixedZone> {
    let seconds = i32::try_from(number_of(digits)?).ok()?;
    let ahead = sign.checked_mul(seconds)?;
    Some(FixedZone { ahead })
}

fn second(zone: &[u8], moment: &[u8]) -> Option<u32> {
    let moment = Moment(number_of(moment)?);
    match zone {
        [b'+', digits @ ..] => Some(fixed(1, digits)?.local_second(moment)),
        [b'-', digits @ ..] => Some(fixed(-1, digits)?.local_second(moment)),
        _ => {
            let name = str::from_utf8(zone).ok()?;
            let zone = TimeZone::Posix(posix::TimeZone::parse(name.as_bytes()).ok()?);
            Some(CivilZone { zone }.local_second(moment))
        }
    }
}

/// The second of the day at a moment by the clocks of a zone: `ZONE MOMENT`, where a zone is `+SECONDS`, `-SECONDS` or one of
/// POSIX.
pub fn tell(told: &mut Answer, line: &[u8]) {
    let (zone, moment) = split_word(line);
    match second(zone, moment) {
        Some(second) => told.add_number(u64::from(second)),
        None => told.add(b"no zone or no moment"),
    }
}
