// A record of saved bytes: its fields at a place, and these put before a name (R120).
ghost use Rattle.std.specs.Prelude.{◌≡◌, ◌≤◌, length};
ghost use Rattle.std.specs.Iterator.{YieldsFirst, item_count};
ghost use Rattle.le.specs.Mem.{write};
ghost use Rattle.rules.specs.Fields.{row_length};
ghost use Rattle.rules.specs.Saved.{node_row, head_bytes, name_length, name_start, saved_node_at, behind, end_at};
ghost use Rattle.saved_parts.specs.Starts.{places_at};

use crate::places;

// The number of the record at a place (R120).
pub fn number_at(b: &[u8], at: usize) -> u64
    requires { name_start at ≤ length b.now }
    ensures { result ≡ (saved_node_at b.now at).number }
{
    le::fields::get_u64(b, at)
}

// The parent's number in the record at a place (R120).
pub fn parent_at(b: &[u8], at: usize) -> u64
    requires { name_start at ≤ length b.now }
    ensures { result ≡ (saved_node_at b.now at).parent }
{
    le::fields::get_u64(b, at + places::PARENT_AT)
}

// How many bytes the name has of the record at a place; they stand behind the fields (R120).
pub fn name_len(b: &[u8], at: usize) -> usize
    requires { name_start at ≤ length b.now }
    ensures { result ≡ name_length b.now at }
{
    le::fields::get_u16(b, at + places::NAME_LENGTH_AT) as usize
}

// Where the record at a place ends (R120).
pub fn record_end(b: &[u8], at: usize) -> usize
    requires { behind b.now at ≤ length b.now }
    ensures { result ≡ behind b.now at }
{
    at + places::RECORD + name_len(b, at)
}

// The name of the record at a place (R120).
pub fn name_at(b: &[u8], at: usize) -> &[u8]
    requires { behind b.now at ≤ length b.now }
    ensures { result.now ≡ (saved_node_at b.now at).name }
{
    &b[at + places::RECORD..record_end(b, at)]
}

// Puts the fields of a record at the start of the lent bytes; its name is to follow (R120).
pub fn put_head(out: &mut [u8], number: u64, parent: u64, len: u16)
    requires { row_length node_row ≤ length out.old }
    ensures { out.new ≡ write out.old 0 (head_bytes number parent len) }
{
    le::fields::put_u64(out, 0, number);
    le::fields::put_u64(out, places::PARENT_AT, parent);
    le::fields::put_u16(out, places::NAME_LENGTH_AT, len);
}

// The places of records, one behind the other (R119, R120).
#[derive(Drop)]
pub struct Records<'a> {
    pub b: &'a [u8],
    pub at: usize,
    pub left: usize,
    ghost whole: { end_at b.now left at ≤ length b.now },
}

// The places of the first records (R119, R120).
pub fn first_records(b: &[u8], count: usize) -> Records<'_>
    requires { end_at b.now count 0 ≤ length b.now }
    ensures { places_at result.b.now result.left result.at ≡ places_at b.now count 0 }
{
    Records {
        b,
        at: 0,
        left: count,
    }
}

impl<'a> Iterator for Records<'a> {
    type Item = usize;

    ghost next_gives = { YieldsFirst (λ r. places_at r.b.now r.left r.at) };

    ghost remaining = { item_count (λ r. places_at r.b.now r.left r.at) };

    fn next(&mut self) -> Option<usize> {
        let at = self.at;
        self.left = self.left.checked_sub(1)?;
        self.at = record_end(self.b, at);
        Some(at)
    }
}
