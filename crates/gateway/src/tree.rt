// The tree: walk, lookup across mounts, and listing.
ghost use Rattle.std.specs.Prelude.{◌≡◌};
ghost use Rattle.rules.specs.Instance.{Instance};
ghost use Rattle.rules.specs.Reached.{walk_rule};
ghost use Rattle.rules.specs.Lookup.{lookup_rule};
ghost use Rattle.call_form.specs.Form.{answered_by, WritesBy};
ghost use Rattle.listing.specs.Listed.{listing};
ghost use Rattle.flat.specs.Flat.{walk_numbers, lookup_numbers, wrote_numbers};

use flat::{LookupAnswer, WalkAnswer, WroteAnswer};
use inode::NodeNumber;

// The node that a path leads to, from the root, or none; INVAL for a path with a fault (R36, R46, R47).
pub fn galdovar_path_walk(storage: &[u8], path: &[u8]) -> WalkAnswer
    ensures { result ≡ walk_numbers (answered_by storage.now (λ (i : Instance). walk_rule i path.now)) }
{
    flat_queries::walked(pseudo_fs::path_walk(storage, path))
}

// In a directory of the tree by a name: the root entry of the mount on what is found, or its pseudo entry (R57 to R60, R108 to R111).
pub fn galdovar_lookup(storage: &[u8], parent: u64, name: &[u8]) -> LookupAnswer
    ensures { result ≡ lookup_numbers (answered_by storage.now (λ (i : Instance). lookup_rule i parent name.now)) }
{
    flat_queries::looked(vfs_query::lookup(storage, NodeNumber(parent), name))
}

// Lists the children of a node from an offset on into the lent bytes, whole records within `size` only (R63 to R66).
pub fn galdovar_readdir(
    storage: &[u8],
    node: u64,
    size: u32,
    offset: u64,
    out: &mut [u8],
) -> WroteAnswer
    ensures { WritesBy wrote_numbers storage.now (listing node size offset out.old) out.old result out.new }
{
    flat_bytes::listed(listing::readdir(storage, NodeNumber(node), size, offset, out))
}
