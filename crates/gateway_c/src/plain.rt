// Calls without an instance: conversion, ids by a given mapping, the component check, and the allocator's step (R24).
ghost use Rattle.std.specs.Prelude.{◌≡◌};
ghost use Rattle.rules.specs.Numbers.{convert};
ghost use Rattle.rules.specs.Ids.{wrapped, unwrapped, mapping_by};
ghost use Rattle.inode.specs.Converted.{convert_code};
ghost use Rattle.path.specs.Checks.{check_code};
ghost use Rattle.index.specs.Take.{Steps};
ghost use Rattle.flat.specs.Flat.{code_alone, inode_numbers};

use flat::{CodeAnswer, InodeAnswer};
use index::{AllocateAnswer, FsIndexes};

// The full number of a backend's number under its index, or INODE (R7).
#[unsafe(no_mangle)]
pub extern "C" fn galdovar_convert_inode(fs_idx: u8, number: u64) -> InodeAnswer
    ensures { result ≡ inode_numbers (convert_code number) (convert fs_idx number) }
{
    gateway::plain::galdovar_convert_inode(fs_idx, number)
}

// Out by a given mapping: an id in the internal range moves to the external one, any other stays (R113, R115, R117).
#[unsafe(no_mangle)]
pub extern "C" fn galdovar_map_out(internal: u32, external: u32, range: u32, id: u32) -> u32
    ensures { result ≡ wrapped (mapping_by internal external range) id }
{
    gateway::plain::galdovar_map_out(internal, external, range, id)
}

// Back by a given mapping: the same the other way round (R114, R115, R117).
#[unsafe(no_mangle)]
pub extern "C" fn galdovar_map_back(internal: u32, external: u32, range: u32, id: u32) -> u32
    ensures { result ≡ unwrapped (mapping_by internal external range) id }
{
    gateway::plain::galdovar_map_back(internal, external, range, id)
}

// The check of one component: `.`, `..`, a slash or a byte 0 is INVAL (R61, R62).
#[unsafe(no_mangle)]
pub extern "C" fn galdovar_validate_path_component(name: &[u8]) -> CodeAnswer
    ensures { result ≡ code_alone (check_code name.now) }
{
    gateway::plain::galdovar_validate_path_component(name)
}

// The allocator's step: the slots and the counter are lent together, and both are changed in place (R90).
#[unsafe(no_mangle)]
pub extern "C" fn galdovar_allocate_in(t: &mut FsIndexes, tag: u32) -> AllocateAnswer
    ensures { Steps t.old tag result t.new }
{
    gateway::plain::galdovar_allocate_in(t, tag)
}
