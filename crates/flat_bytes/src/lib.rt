// The answers of listing, save and state restore as structs of plain numbers: an enum does not cross to C, its numbers do. A refusal has zeros in every field but the count (R16).
#![tactic(auto)]

ghost use Rattle.std.specs.Prelude.{◌≡◌};
ghost use Rattle.listing.specs.Listed.{listed_told};
ghost use Rattle.persist.specs.Saving.{saved_told};
ghost use Rattle.persist.specs.StateRestoring.{state_restored_told};
ghost use Rattle.flat.specs.Flat.{code_numbers, wrote_numbers};

use flat::{CodeAnswer, WroteAnswer};
use rules::codes::VfsResult;

// What a listing answers, as numbers (R63, R66).
pub fn listed(listing: VfsResult<usize>) -> WroteAnswer
    ensures { result ≡ wrote_numbers (listed_told listing) }
{
    WroteAnswer::from(listing)
}

// What a save answers, as numbers (R125).
pub fn saved(save: VfsResult<usize>) -> WroteAnswer
    ensures { result ≡ wrote_numbers (saved_told save) }
{
    WroteAnswer::from(save)
}

// What a state restore answers, as its number (R128).
pub fn state_restored(restore: VfsResult<()>) -> CodeAnswer
    ensures { result ≡ code_numbers (state_restored_told restore) }
{
    CodeAnswer::from(restore)
}
