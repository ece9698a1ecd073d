// The 256 index slots: which is held, and with which tag.
ghost use Rattle.std.specs.Prelude.{◌≡◌, true, false, ◌≤◌, length};
ghost use Rattle.rules.specs.Instance.{tag_in_slot};
ghost use Rattle.tables.specs.Layout.{table_at};
ghost use Rattle.tables.specs.View.{slot_at};
ghost use Rattle.tables.specs.Write.{set_held, set_tag, set_slot};

// The tag of slot k, if it is held (R56).
pub fn tag_of(s: &[u8], k: u8) -> Option<u32>
    requires { table_at ≤ length s.now }
    ensures { result ≡ tag_in_slot (slot_at s.now k) }
{
    let at = k as usize;
    if le::fields::get_u8(s, crate::places::held_at(at)) == index::EMPTY {
        return None;
    }
    Some(le::fields::get_u32(s, crate::places::tag_at(at)))
}

// Slot k is held, or not; its tag stays (R56).
pub fn set_held(s: &mut [u8], k: u8, held: bool)
    requires { table_at ≤ length s.old }
    ensures { s.new ≡ set_held k held s.old }
{
    let byte = if held { index::HELD } else { index::EMPTY };
    le::fields::put_u8(s, crate::places::held_at(k as usize), byte);
}

// Slot k has the tag; whether it is held stays (R56).
pub fn set_tag(s: &mut [u8], k: u8, tag: u32)
    requires { table_at ≤ length s.old }
    ensures { s.new ≡ set_tag k tag s.old }
{
    let at = crate::places::tag_at(k as usize);
    le::fields::put_u32(s, at, tag);
}

// Slot k holds the tag (R76).
pub fn hold(s: &mut [u8], k: u8, tag: u32)
    requires { table_at ≤ length s.old }
    ensures { s.new ≡ set_slot k true tag s.old }
{
    set_held(s, k, true);
    set_tag(s, k, tag);
}

// Slot k is empty, without a tag (R56).
pub fn free(s: &mut [u8], k: u8)
    requires { table_at ≤ length s.old }
    ensures { s.new ≡ set_slot k false 0 s.old }
{
    set_held(s, k, false);
    set_tag(s, k, index::NO_TAG);
}
