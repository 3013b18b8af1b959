//! The fields of records, read from the front of what is left.
ghost use Rattle.std.specs.Prelude.{◌≡◌, length, IfOk};
ghost use Rattle.std.specs.Int.{w32, w64};
ghost use Rattle.farm_record.specs.Reading.{Gives, byte_at, number_at, moment_in, front_at, id_in, sized_at, report_in};

use crate::unread::Unread;
use farm_text::{Moment, SlugId};
use task_types::Report;

/// A byte.
#[tactic(auto, unfolding(crate::specs::Reading::byte_at))]
pub(crate) fn byte_of(bytes: &[u8]) -> Result<(u8, &[u8]), Unread>
    ensures { Gives (λ x. (x.0, x.1.now)) result (byte_at bytes.now) }
{
    match bytes {
        [] => Err(Unread::NotARecord),
        [byte, rest @ ..] => Ok((*byte, rest)),
    }
}

/// A number of four bytes.
#[tactic(auto, unfolding(crate::specs::Reading::number_at))]
pub(crate) fn u32_of(bytes: &[u8]) -> Result<(u32, &[u8]), Unread>
    ensures { Gives (λ x. (x.0, x.1.now)) result (number_at w32 bytes.now) }
{
    if bytes.len() < 4 {
        return Err(Unread::NotARecord);
    }
    let (front, rest) = bytes.split_at(4);
    let number = u32::from_be_bytes([front[0], front[1], front[2], front[3]]);
    Ok((number, rest))
}

/// A number of eight bytes.
#[tactic(auto, unfolding(crate::specs::Reading::number_at))]
pub(crate) fn u64_of(bytes: &[u8]) -> Result<(u64, &[u8]), Unread>
    ensures { Gives (λ x. (x.0, x.1.now)) result (number_at w64 bytes.now) }
{
    if bytes.len() < 8 {
        return Err(Unread::NotARecord);
    }
    let (front, rest) = bytes.split_at(8);
    let number = u64::from_be_bytes([
        front[0], front[1], front[2], front[3], front[4], front[5], front[6], front[7],
    ]);
    Ok((number, rest))
}

/// So many bytes.
#[tactic(auto, unfolding(crate::specs::Reading::front_at))]
fn front_of(bytes: &[u8], len: usize) -> Result<(&[u8], &[u8]), Unread>
    ensures front { Gives (λ x. (x.0.now, x.1.now)) result (front_at len bytes.now) }
    ensures len { IfOk result (λ x. length x.0.now ≡ len) }
{
    if bytes.len() < len {
        return Err(Unread::NotARecord);
    }
    Ok(bytes.split_at(len))
}

/// The sixteen bytes of an id.
pub(crate) fn uuid_of(bytes: &[u8]) -> Result<(&[u8], &[u8]), Unread>
    ensures uuid { Gives (λ x. (x.0.now, x.1.now)) result (front_at 16 bytes.now) }
    ensures len { IfOk result (λ x. length x.0.now ≡ 16) }
{
    front_of(bytes, 16)
}

/// The id with these bytes.
pub(crate) fn id(bytes: &[u8]) -> Result<SlugId, Unread>
    requires { length bytes.now ≡ 16 }
    ensures { Gives (λ id. id) result (id_in bytes.now) }
{
    let mut uuid = [0; 16];
    uuid.copy_from_slice(bytes);
    match SlugId::of_uuid(uuid) {
        Some(id) => Ok(id),
        None => Err(Unread::NotARecord),
    }
}

/// The moment so many milliseconds after the first one.
#[tactic(auto, unfolding(crate::specs::Reading::moment_in))]
pub(crate) fn moment(millis: u64) -> Result<Moment, Unread>
    ensures { Gives (λ m. m) result (moment_in millis) }
{
    match Moment::from_millis(millis) {
        Some(moment) => Ok(moment),
        None => Err(Unread::NotARecord),
    }
}

/// A text behind its length.
#[tactic(auto, unfolding(crate::specs::Reading::sized_at))]
pub(crate) fn sized_of(bytes: &[u8]) -> Result<(&[u8], &[u8]), Unread>
    ensures { Gives (λ x. (x.0.now, x.1.now)) result (sized_at bytes.now) }
{
    let (len, rest) = u32_of(bytes)?;
    let len = len as usize;
    if rest.len() < len {
        return Err(Unread::NotARecord);
    }
    Ok(rest.split_at(len))
}

/// The report of this number.
#[tactic(auto, unfolding(crate::specs::Reading::report_in))]
pub(crate) fn report(number: u8) -> Result<Report, Unread>
    ensures { Gives (λ r. r) result (report_in number) }
{
    match number {
        1 => Ok(Report::Completed),
        2 => Ok(Report::Failed),
        3 => Ok(Report::Superseded),
        4 => Ok(Report::WorkerShutdown),
        5 => Ok(Report::MalformedPayload),
        6 => Ok(Report::ResourceUnavailable),
        7 => Ok(Report::InternalError),
        8 => Ok(Report::IntermittentTask),
        _ => Err(Unread::NotARecord),
    }
}
