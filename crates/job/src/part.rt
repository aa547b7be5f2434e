ghost use Rattle.std.specs.Prelude.{◌≡◌, ◌+◌, ◌<◌, ◌^◌, take, drop, slice_index};
ghost use Rattle.std.specs.Result.{result_err};
ghost use Rattle.job.specs.Faults.{not_below, wrong_length};
ghost use Rattle.job.specs.Fields.{two as two_of};

use crate::fault::ReadFault;

// So many bytes from a place on, as far as there are bytes.
pub(crate) fn part<'a>(bytes: &'a [u8], at: usize, len: usize) -> &'a [u8]
    ensures { result.now ≡ take len (drop at bytes.now) }
{
    let rest = &bytes[at.min(bytes.len())..];
    &rest[..len.min(rest.len())]
}

// The byte at a place; 0 past the end.
pub(crate) fn byte(bytes: &[u8], at: usize) -> u8
    ensures { result ≡ slice_index bytes.now at }
{
    bytes.get(at).copied().unwrap_or(0)
}

// A number of two bytes, lower byte first.
pub(crate) fn two(bytes: &[u8], at: usize) -> u16
    requires { at + 1 < 2 ^ 64 }
    ensures { result ≡ two_of bytes.now at }
{
    u16::from_le_bytes([byte(bytes, at), byte(bytes, at + 1)])
}

// Sees that a number, found at a place, is from 0 to below a limit.
pub(crate) fn below(place: usize, found: i32, limit: u32) -> Result<(), ReadFault>
    ensures { result_err result ≡ not_below place found limit }
{
    if u32::try_from(found).is_ok_and(|found| found < limit) {
        Ok(())
    } else {
        Err(ReadFault::NotBelow {
            place,
            found,
            limit,
        })
    }
}

// Sees that there are as many bytes as there have to be.
pub(crate) fn of_length(found: usize, right: usize) -> Result<(), ReadFault>
    ensures { result_err result ≡ wrong_length found right }
{
    if found == right {
        Ok(())
    } else {
        Err(ReadFault::WrongLength { found, right })
    }
}
