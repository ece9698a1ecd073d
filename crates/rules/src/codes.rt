// Why a call is refused, and the numbers of the answers (R15).
ghost use Rattle.std.specs.Prelude.{◌≡◌};
ghost use Rattle.rules.specs.Codes.{code_of};

// The number of an answer that is done.
pub const DONE: u32 = 0;

// Why a call is refused: each refusal by its number.
#[derive(Clone, Copy, Debug, PartialEq, Eq)]
pub enum VfsError {
    NoEnt = 1,
    Inval = 2,
    TooLong = 3,
    Inode = 4,
    Full = 5,
    NoRoom = 6,
    NotFound = 7,
    BadIndex = 8,
    BadMap = 9,
    BadSave = 10,
    NotFresh = 11,
    Small = 12,
    BadOpt = 13,
}

// What a call answers that may be refused.
pub type VfsResult<T> = Result<T, VfsError>;

impl VfsError {
    // The number of the refusal (R15).
    pub fn code(self) -> u32
        ensures { result ≡ code_of self }
    {
        self as u32
    }
}
