// The structs of plain numbers that the calls answer to C: an enum does not cross, its numbers do. A refusal is the default, zeros, but for its number and the count (R16).
#![tactic(auto)]

ghost use Rattle.std.specs.Prelude.{◌≡◌};
ghost use Rattle.rules.specs.Codes.{result_code};
ghost use Rattle.flat.specs.Flat.{code_alone, wrote_numbers, wrote_told};

use rules::codes::{DONE, VfsResult};

// The answer of a call that has no values.
#[repr(C)]
#[derive(Clone, Copy, Default)]
pub struct CodeAnswer {
    pub code: u32,
}

impl From<VfsResult<()>> for CodeAnswer {
    ghost from_gives = { λ a r. r ≡ code_alone (result_code a) };

    // Of a call that is done or refused: its number (R15).
    fn from(a: VfsResult<()>) -> CodeAnswer {
        match a {
            Ok(()) => CodeAnswer { code: DONE },
            Err(e) => CodeAnswer { code: e.code() },
        }
    }
}

// Whether the instance is initialized: 1, or 0 (R33).
#[repr(C)]
#[derive(Clone, Copy, Default)]
pub struct InitializedAnswer {
    pub code: u32,
    pub initialized: u32,
}

// The options, with their own mapping (R27, R33, R34).
#[repr(C)]
#[derive(Clone, Copy, Default)]
pub struct OptionsAnswer {
    pub code: u32,
    pub flags: u32,
    pub in_opts: u64,
    pub out_opts: u64,
    pub internal: u32,
    pub external: u32,
    pub range: u32,
}

// Of a mount: the index, the count of visited indexes, and the tag replaced where has_replaced is 1 (R75, R78, R79).
#[repr(C)]
#[derive(Clone, Copy, Default)]
pub struct MountAnswer {
    pub code: u32,
    pub fs_idx: u32,
    pub count: u32,
    pub has_replaced: u32,
    pub replaced: u32,
}

// Of a restored mount: the tag replaced on the node and the tag displaced from the slot, each where its has_ field is 1 (R93).
#[repr(C)]
#[derive(Clone, Copy, Default)]
pub struct RestoreMountAnswer {
    pub code: u32,
    pub has_replaced: u32,
    pub replaced: u32,
    pub has_displaced: u32,
    pub displaced: u32,
}

// Of an unmount: the node, its parent, and the tag released where has_released is 1 (R97).
#[repr(C)]
#[derive(Clone, Copy, Default)]
pub struct UmountAnswer {
    pub code: u32,
    pub has_released: u32,
    pub node: u64,
    pub parent: u64,
    pub released: u32,
}

// Of a root query: tag and index where has_backend is 1 (R103, R104).
#[repr(C)]
#[derive(Clone, Copy, Default)]
pub struct RootfsAnswer {
    pub code: u32,
    pub has_backend: u32,
    pub tag: u32,
    pub fs_idx: u32,
}

// Of a walk: the node where has_node is 1 (R46, R47).
#[repr(C)]
#[derive(Clone, Copy, Default)]
pub struct WalkAnswer {
    pub code: u32,
    pub has_node: u32,
    pub node: u64,
}

// Of routing: to the tree, with the node's number; or, where to_backend is 1, to a backend, with its tag, its index and its own number (R105, R106).
#[repr(C)]
#[derive(Clone, Copy, Default)]
pub struct RouteAnswer {
    pub code: u32,
    pub to_backend: u32,
    pub tag: u32,
    pub fs_idx: u32,
    pub number: u64,
}

// Of a lookup: the full number and the attributes of what was found (R13, R108, R109).
#[repr(C)]
#[derive(Clone, Copy, Default)]
pub struct LookupAnswer {
    pub code: u32,
    pub mode: u32,
    pub inode: u64,
    pub uid: u32,
    pub gid: u32,
    pub blksize: u32,
}

// Of a listing and of a save: how many bytes were written (R66, R125).
#[repr(C)]
#[derive(Clone, Copy, Default)]
pub struct WroteAnswer {
    pub code: u32,
    pub written: u64,
}

impl From<VfsResult<usize>> for WroteAnswer {
    ghost from_gives = { λ a r. r ≡ wrote_numbers (wrote_told a) };

    // Of a call that wrote bytes, or was refused and wrote none (R15, R17).
    fn from(a: VfsResult<usize>) -> WroteAnswer {
        match a {
            Ok(n) => WroteAnswer {
                code: DONE,
                written: n as u64,
            },
            Err(e) => WroteAnswer {
                code: e.code(),
                ..Default::default()
            },
        }
    }
}

// Ids after mapping (R118).
#[repr(C)]
#[derive(Clone, Copy, Default)]
pub struct IdsAnswer {
    pub code: u32,
    pub uid: u32,
    pub gid: u32,
}

// Of a conversion: the full number (R7).
#[repr(C)]
#[derive(Clone, Copy, Default)]
pub struct InodeAnswer {
    pub code: u32,
    pub inode: u64,
}
