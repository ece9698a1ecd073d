// Calls without an instance: conversion, ids by a given mapping, the component check, and the allocator's step (R24).
ghost use Rattle.std.specs.Prelude.{◌≡◌};
ghost use Rattle.rules.specs.Numbers.{convert};
ghost use Rattle.rules.specs.Ids.{wrapped, unwrapped, mapping_by};
ghost use Rattle.inode.specs.Converted.{convert_code};
ghost use Rattle.path.specs.Checks.{check_code};
ghost use Rattle.index.specs.Take.{Steps};
ghost use Rattle.flat.specs.Flat.{code_alone, inode_numbers};

use flat::{CodeAnswer, InodeAnswer};
use id_map::IdMapping;
use index::{AllocateAnswer, FsIndexes};
use inode::BackendNumber;

// The full number of a backend's number under its index, or INODE (R7).
pub fn galdovar_convert_inode(fs_idx: u8, number: u64) -> InodeAnswer
    ensures { result ≡ inode_numbers (convert_code number) (convert fs_idx number) }
{
    flat_instance::converted(inode::convert_inode(fs_idx, BackendNumber(number)))
}

// Out by a given mapping: an id in the internal range moves to the external one, any other stays (R113, R115, R117).
pub fn galdovar_map_out(internal: u32, external: u32, range: u32, id: u32) -> u32
    ensures { result ≡ wrapped (mapping_by internal external range) id }
{
    let m = IdMapping {
        internal,
        external,
        range,
    };
    id_map::map_out(m, id)
}

// Back by a given mapping: the same the other way round (R114, R115, R117).
pub fn galdovar_map_back(internal: u32, external: u32, range: u32, id: u32) -> u32
    ensures { result ≡ unwrapped (mapping_by internal external range) id }
{
    let m = IdMapping {
        internal,
        external,
        range,
    };
    id_map::map_back(m, id)
}

// The check of one component: `.`, `..`, a slash or a byte 0 is INVAL (R61, R62).
pub fn galdovar_validate_path_component(name: &[u8]) -> CodeAnswer
    ensures { result ≡ code_alone (check_code name.now) }
{
    flat_instance::checked(path::names::validate_path_component(name))
}

// The allocator's step: the slots and the counter are lent together, and both are changed in place (R90).
pub fn galdovar_allocate_in(t: &mut FsIndexes, tag: u32) -> AllocateAnswer
    ensures { Steps t.old tag result t.new }
{
    index::take(&mut t.used, &mut t.tags, &mut t.next_super, tag)
}
