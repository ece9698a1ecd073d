// Creation, the setting of `remove_pseudo_root`, and what the header alone answers.
ghost use Rattle.std.specs.Prelude.{◌≡◌, cond, not, eqb};
ghost use Rattle.rules.specs.Instance.{Instance};
ghost use Rattle.rules.specs.Lookup.{remap_rule};
ghost use Rattle.tables.specs.Laid.{laid};
ghost use Rattle.tables.specs.Write.{set_removal};
ghost use Rattle.call_form.specs.Form.{answered_by, DoesBy};
ghost use Rattle.storage.specs.Answers.{remove_call, initialized_call, options_call};
ghost use Rattle.storage.specs.Creation.{Creates};
ghost use Rattle.flat.specs.Flat.{code_numbers, initialized_numbers, options_numbers, ids_numbers};
ghost use Rattle.gateway.specs.Calls.{creation_by};

use flat::{CodeAnswer, IdsAnswer, InitializedAnswer, OptionsAnswer};
use id_map::IdMapping;
use vfs_options::VfsOptions;

// A new instance of N nodes, whatever the bytes held: SMALL, then BADOPT, then BADMAP, or done (R19, R26 to R34).
pub fn galdovar_create(
    storage: &mut [u8],
    n: usize,
    known: u64,
    in_opts: u64,
    out_opts: u64,
    flags: u8,
    internal: u32,
    external: u32,
    range: u32,
) -> CodeAnswer
    ensures { Creates storage.old (creation_by n known in_opts out_opts flags internal external range) result.code storage.new }
{
    let id_mapping = IdMapping {
        internal,
        external,
        range,
    };
    let o = VfsOptions {
        in_opts,
        out_opts,
        id_mapping,
        flags,
    };
    flat_instance::created(storage::create(storage, n, known, o))
}

// From now on a done unmount also removes its node; the root always stays (R32, R100).
pub fn galdovar_set_remove_pseudo_root(storage: &mut [u8]) -> CodeAnswer
    ensures { DoesBy code_numbers storage.old remove_call result storage.new (cond (laid storage.old) (set_removal storage.old) storage.old) }
{
    flat_instance::removal(storage::set_remove_pseudo_root(storage))
}

// Whether the instance is initialized (R33, R134).
pub fn galdovar_initialized(storage: &[u8]) -> InitializedAnswer
    ensures { result ≡ initialized_numbers (answered_by storage.now initialized_call) }
{
    flat_instance::initialized(storage::initialized(storage))
}

// The options, with their own mapping (R27, R33, R34).
pub fn galdovar_options(storage: &[u8]) -> OptionsAnswer
    ensures { result ≡ options_numbers (answered_by storage.now options_call) }
{
    flat_instance::options(storage::options(storage))
}

// The ids of an attribute by the mapping in force: out, from the internal range to the external one, where `outward` is not 0; else back (R113, R114, R118).
pub fn galdovar_remap_attr_id(storage: &[u8], uid: u32, gid: u32, outward: u32) -> IdsAnswer
    ensures { result ≡ ids_numbers (answered_by storage.now (λ (i : Instance). remap_rule i (not (eqb outward 0)) uid gid)) }
{
    flat_queries::remapped(vfs_query::remap_attr_id(storage, uid, gid, outward != 0))
}
