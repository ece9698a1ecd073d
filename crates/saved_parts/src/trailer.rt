// The trailer of saved bytes: where it stands, and its fields read and put (R123).
ghost use Rattle.std.specs.Prelude.{◌≡◌, ◌+◌, ◌*◌, ◌≤◌, length};
ghost use Rattle.le.specs.Mem.{write};
ghost use Rattle.rules.specs.Fields.{row_length};
ghost use Rattle.rules.specs.Saved.{trailer_row, trailer_version_field, trailer_zeros_field, trailer_bytes, trailer_start, trailer_field, saved_offset, saved_records, saved_next, saved_counter};

use crate::places;
use le::fields::{get_u32, get_u64, put_u8, put_u32, put_u64};

// Where the trailer stands (R119, R123).
fn start(b: &[u8]) -> usize
    requires { row_length trailer_row ≤ length b.now }
    ensures { result ≡ trailer_start b.now }
{
    b.len() - places::TRAILER
}

// Where the options stand, as the trailer says it (R123).
pub fn offset_of(b: &[u8]) -> usize
    requires { row_length trailer_row ≤ length b.now }
    ensures { result ≡ saved_offset b.now }
{
    get_u32(b, start(b)) as usize
}

// How many records there are (R123).
pub fn count_of(b: &[u8]) -> usize
    requires { row_length trailer_row ≤ length b.now }
    ensures { result ≡ saved_records b.now }
{
    get_u32(b, start(b) + places::COUNT_AT) as usize
}

// The next number (R123).
pub fn next_of(b: &[u8]) -> u64
    requires { row_length trailer_row ≤ length b.now }
    ensures { result ≡ saved_next b.now }
{
    get_u64(b, start(b) + places::NEXT_AT)
}

// The counter of the indexes (R123).
pub fn counter_of(b: &[u8]) -> u8
    requires { row_length trailer_row ≤ length b.now }
    ensures { result ≡ saved_counter b.now }
{
    le::fields::get_u8(b, start(b) + places::COUNTER_AT)
}

// The version and the six zeros behind it as one number, which is the version where these are zeros (R123).
pub fn version_of(b: &[u8]) -> u64
    requires { row_length trailer_row ≤ length b.now }
    ensures { result ≡ trailer_field trailer_version_field b.now + 256 * trailer_field trailer_zeros_field b.now }
{
    get_u64(b, start(b) + places::COUNTER_AT) / 256
}

// Puts the trailer at a place (R123).
pub fn put_trailer(out: &mut [u8], at: usize, offset: u32, count: u32, next: u64, counter: u8)
    requires { at + row_length trailer_row ≤ length out.old }
    ensures { out.new ≡ write out.old at (trailer_bytes offset count next counter) }
{
    put_u32(out, at, offset);
    put_u32(out, at + places::COUNT_AT, count);
    put_u64(out, at + places::NEXT_AT, next);
    put_u8(out, at + places::COUNTER_AT, counter);
    put_u8(out, at + places::VERSION_AT, places::VERSION);
    le::fields::put_u16(out, at + places::ZEROS_AT, 0);
    put_u32(out, at + places::LAST_ZEROS_AT, 0);
}
