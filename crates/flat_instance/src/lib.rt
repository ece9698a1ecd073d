// The answers of the calls on an instance as a whole, and of those without one, as structs of plain numbers: an enum does not cross to C, its numbers do. A refusal has zeros in every field but the count (R16).
#![tactic(auto)]

ghost use Rattle.std.specs.Prelude.{◌≡◌};
ghost use Rattle.rules.specs.Codes.{result_code};
ghost use Rattle.inode.specs.Converted.{full_of};
ghost use Rattle.storage.specs.Creation.{created_code};
ghost use Rattle.storage.specs.Answers.{removal_told, initialized_told, options_told};
ghost use Rattle.flat.specs.Flat.{code_alone, code_numbers, initialized_numbers, options_numbers, inode_numbers};

use flat::{CodeAnswer, InitializedAnswer, InodeAnswer, OptionsAnswer};
use inode::VfsInode;
use rules::codes::{DONE, VfsResult};
use vfs_options::VfsOptions;

// What a creation answers, as its number (R26).
pub fn created(creation: VfsResult<()>) -> CodeAnswer
    ensures { result ≡ code_alone (created_code creation) }
{
    CodeAnswer::from(creation)
}

// What the setting of `remove_pseudo_root` answers, as its number (R32).
pub fn removal(setting: VfsResult<()>) -> CodeAnswer
    ensures { result ≡ code_numbers (removal_told setting) }
{
    CodeAnswer::from(setting)
}

// What the query of `initialized` answers, as numbers (R33).
pub fn initialized(a: VfsResult<bool>) -> InitializedAnswer
    ensures { result ≡ initialized_numbers (initialized_told a) }
{
    match a {
        Ok(is) => InitializedAnswer {
            code: DONE,
            initialized: u32::from(is),
        },
        Err(e) => InitializedAnswer {
            code: e.code(),
            ..Default::default()
        },
    }
}

// What the query of the options answers, as numbers (R27, R33, R34).
pub fn options(a: VfsResult<VfsOptions>) -> OptionsAnswer
    ensures { result ≡ options_numbers (options_told a) }
{
    match a {
        Ok(o) => OptionsAnswer {
            code: DONE,
            flags: u32::from(o.flags),
            in_opts: o.in_opts,
            out_opts: o.out_opts,
            internal: o.id_mapping.internal,
            external: o.id_mapping.external,
            range: o.id_mapping.range,
        },
        Err(e) => OptionsAnswer {
            code: e.code(),
            ..Default::default()
        },
    }
}

// What a conversion answers, as numbers (R7).
#[tactic(auto, unfolding(inode::specs::Converted::full_of))]
pub fn converted(a: VfsResult<VfsInode>) -> InodeAnswer
    ensures { result ≡ inode_numbers (result_code a) (full_of a) }
{
    match a {
        Ok(full) => InodeAnswer {
            code: DONE,
            inode: full.0,
        },
        Err(e) => InodeAnswer {
            code: e.code(),
            ..Default::default()
        },
    }
}

// What the component check answers, as its number (R61).
pub fn checked(check: VfsResult<()>) -> CodeAnswer
    ensures { result ≡ code_alone (result_code check) }
{
    CodeAnswer::from(check)
}
