// Ids: one range mapped out and back, by a difference that wraps in 32 bits on purpose.
#![tactic(auto)]

ghost use Rattle.std.specs.Prelude.{◌≡◌};
ghost use Rattle.rules.specs.Ids.{bad_mapping, wrapped, unwrapped};
ghost use Rattle.id_map.specs.Mapping.{mapping_of};

// One range of ids: the start inside, the start outside, and how many; range 0 means no mapping (R27, R112).
#[derive(Clone, Copy, Debug, Default, PartialEq, Eq)]
pub struct IdMapping {
    pub internal: u32,
    pub external: u32,
    pub range: u32,
}

// Out: an id in the internal range moves to the external one, any other stays (R113, R115, R117).
pub fn map_out(m: IdMapping, id: u32) -> u32
    ensures { result ≡ wrapped (mapping_of m) id }
{
    if m.internal <= id && id - m.internal < m.range {
        id.wrapping_add(m.external.wrapping_sub(m.internal))
    } else {
        id
    }
}

// Back: the same mapping the other way round (R114, R115, R117).
pub fn map_back(m: IdMapping, id: u32) -> u32
    ensures { result ≡ unwrapped (mapping_of m) id }
{
    let turned = IdMapping {
        internal: m.external,
        external: m.internal,
        range: m.range,
    };
    map_out(turned, id)
}

// BADMAP's test: a start plus the range is above 2^32 − 1 (R30).
pub fn is_bad(m: IdMapping) -> bool
    ensures { result ≡ bad_mapping (mapping_of m) }
{
    m.internal.checked_add(m.range).is_none() || m.external.checked_add(m.range).is_none()
}
