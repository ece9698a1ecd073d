// The bytes that a host lends: the layout rule's test, creation, and the calls on the header alone (docs/LAYOUT.md).
#![tactic(auto)]

ghost use Rattle.std.specs.Prelude.{◌≡◌, cond, true, false, [], ◌∷◌, ◌≤◌, length, MatchResult};
ghost use Rattle.le.specs.Mem.{write, bytes_of};
ghost use Rattle.rules.specs.Create.{too_small, bad_options};
ghost use Rattle.tables.specs.Layout.{mark, table_at, tags_at, flags_field, mark_field};
ghost use Rattle.tables.specs.Laid.{laid};
ghost use Rattle.tables.specs.Write.{put_header, set_removal};
ghost use Rattle.call_form.specs.Form.{answered_by, Does};
ghost use Rattle.storage.specs.Creation.{creation_of, created_code, tag_bytes, empty_slots, create_mem, Creates};
ghost use Rattle.vfs_options.specs.Given.{options_in};
ghost use Rattle.storage.specs.Answers.{removal_told, remove_call, initialized_told, initialized_call, options_told, options_call};

use rules::codes::{VfsError, VfsResult};
use vfs_options::VfsOptions;

pub mod inner;

// The bytes `GALDOVAR`.
const MARK: u64 = 5927113483044536647;

// Whether N is outside its limits or the bytes are too few for it (R9, R20).
fn is_small(bytes: usize, n: u64) -> bool
    ensures { result ≡ too_small bytes n }
{
    if n < 1 || (rules::MAX_NODES as u64) < n {
        return true;
    }
    (bytes as u64) < 512 * n + (tables::places::TABLE as u64)
}

// Whether an option bit is outside the mask or a flag above bit 5 (R28, R29).
fn has_bad_options(known: u64, o: VfsOptions) -> bool
    ensures { result ≡ bad_options known (options_in o) }
{
    inner::is_unknown(known, o) || rules::FLAGS <= o.flags
}

// Whether the bytes keep the layout rule: tests of the header alone (R20, R21, R22).
pub fn is_laid(s: &[u8]) -> bool
    ensures { result ≡ laid s.now }
{
    s.len() >= tables::places::TABLE
        && le::fields::get_u64(s, tables::places::MARK_AT) == MARK
        && !is_small(s.len(), le::fields::get_u64(s, tables::places::CAPACITY_AT))
        && le::fields::get_u64(s, tables::places::COUNT_AT)
            < le::fields::get_u64(s, tables::places::CAPACITY_AT)
        && rules::PSEUDOFS_NEXT_INODE <= le::fields::get_u64(s, tables::places::NEXT_AT)
        && le::fields::get_u64(s, tables::places::NEXT_AT) <= rules::NUMBERS
        && !has_bad_options(
            le::fields::get_u64(s, tables::places::KNOWN_AT),
            inner::options_in(s),
        )
        && !id_map::is_bad(tables::header::mapping(s))
}

// SMALL where the bytes break the layout rule (R19).
pub fn check_laid(s: &[u8]) -> VfsResult<()>
    ensures { MatchResult result (λ _. laid s.now ≡ true)
        (λ e. (e ≡ VfsError.Small) × (laid s.now ≡ false)) }
{
    if is_laid(s) {
        return Ok(());
    }
    Err(VfsError::Small)
}

// The tags, one behind the other in their column.
fn put_tags(s: &mut [u8], tags: &[u32])
    requires tags_len_bound { length tags.now ≤ 256 }
    requires table_at_in_bounds { table_at ≤ length s.old }
    ensures { s.new ≡ write s.old tags_at (tag_bytes tags.now) }
{
    for (k, tag) in tags.iter().enumerate() {
        le::fields::put_u32(s, tables::places::tag_at(k), *tag);
    }
}

// The slots of a new instance: all empty (R31).
fn put_slots(s: &mut [u8])
    requires { table_at ≤ length s.old }
    ensures { s.new ≡ empty_slots s.old }
{
    let t = index::new();
    le::runs::copy_at(s, tables::places::OCCUPANCY_AT, &t.used);
    put_tags(s, &t.tags);
}

// The mark, N, no node, the first number, and the option bits.
fn put_words(s: &mut [u8], n: u64, known: u64, in_opts: u64, out_opts: u64)
    requires { table_at ≤ length s.old }
    ensures { s.new ≡ put_header mark_field (bytes_of 8 mark ∷ bytes_of 8 n ∷ bytes_of 8 0 ∷ bytes_of 8 2 ∷ bytes_of 8 known ∷ bytes_of 8 in_opts ∷ bytes_of 8 out_opts ∷ []) s.old }
{
    le::fields::put_u64(s, tables::places::MARK_AT, MARK);
    le::fields::put_u64(s, tables::places::CAPACITY_AT, n);
    le::fields::put_u64(s, tables::places::COUNT_AT, 0);
    le::fields::put_u64(s, tables::places::NEXT_AT, rules::PSEUDOFS_NEXT_INODE);
    le::fields::put_u64(s, tables::places::KNOWN_AT, known);
    le::fields::put_u64(s, tables::places::IN_OPTS_AT, in_opts);
    le::fields::put_u64(s, tables::places::OUT_OPTS_AT, out_opts);
}

// The flags, counter 1, removal unset, not initialized, no mount on the root.
fn put_rest(s: &mut [u8], flags: u8)
    requires { table_at ≤ length s.old }
    ensures { s.new ≡ put_header flags_field (bytes_of 1 flags ∷ bytes_of 1 1 ∷ bytes_of 1 0 ∷ bytes_of 1 0 ∷ bytes_of 8 0 ∷ []) s.old }
{
    le::fields::put_u8(s, tables::places::FLAGS_AT, flags);
    le::fields::put_u8(s, tables::places::COUNTER_AT, rules::FIRST_COUNTER);
    le::fields::put_u8(s, tables::places::REMOVAL_AT, 0);
    le::fields::put_u8(s, tables::places::INITIALIZED_AT, 0);
    le::fields::put_u64(s, tables::places::ROOT_CELL_AT, 0);
}

// All that a new instance has in the bytes (R31 to R34).
fn put_new(s: &mut [u8], n: usize, known: u64, o: VfsOptions)
    requires { table_at ≤ length s.old }
    ensures { s.new ≡ create_mem (creation_of n known o) s.old }
{
    let id_mapping = o.id_mapping;
    put_slots(s);
    put_words(s, n as u64, known, o.in_opts, o.out_opts);
    tables::header::put_mapping(s, tables::places::MAPPING_AT, id_mapping);
    tables::header::put_mapping(s, tables::places::OWN_MAPPING_AT, id_mapping);
    put_rest(s, o.flags);
}

// A new instance of N nodes, whatever the bytes held: SMALL, then BADOPT, then BADMAP, or done (R19, R26 to R34).
pub fn create(s: &mut [u8], n: usize, known: u64, o: VfsOptions) -> VfsResult<()>
    ensures { Creates s.old (creation_of n known o) (created_code result) s.new }
{
    if is_small(s.len(), n as u64) {
        return Err(VfsError::Small);
    }
    if has_bad_options(known, o) {
        return Err(VfsError::BadOpt);
    }
    if id_map::is_bad(o.id_mapping) {
        return Err(VfsError::BadMap);
    }
    put_new(s, n, known, o);
    Ok(())
}

// From now on a done unmount also removes its node; the root always stays; SMALL before all else (R19, R32, R100).
pub fn set_remove_pseudo_root(s: &mut [u8]) -> VfsResult<()>
    ensures { Does s.old remove_call (removal_told result) s.new (cond (laid s.old) (set_removal s.old) s.old) }
{
    check_laid(s)?;
    tables::header::set_removes(s);
    Ok(())
}

// Whether the instance is initialized; SMALL before all else (R19, R33, R134).
pub fn initialized(s: &[u8]) -> VfsResult<bool>
    ensures { initialized_told result ≡ answered_by s.now initialized_call }
{
    check_laid(s)?;
    Ok(le::fields::get_u8(s, tables::places::INITIALIZED_AT) != 0)
}

// The options, with their own mapping; SMALL before all else (R19, R27, R33, R34).
pub fn options(s: &[u8]) -> VfsResult<VfsOptions>
    ensures { options_told result ≡ answered_by s.now options_call }
{
    check_laid(s)?;
    Ok(inner::options_in(s))
}
