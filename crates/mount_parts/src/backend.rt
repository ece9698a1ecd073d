// The backend of a mount request.
use inode::BackendNumber;

// A backend as a request brings it: its tag, its root and largest numbers, and its root's ids and mode (R3).
#[derive(Clone, Copy)]
pub struct Backend {
    pub tag: u32,
    pub root: BackendNumber,
    pub largest: u64,
    pub uid: u32,
    pub gid: u32,
    pub mode: u32,
}
