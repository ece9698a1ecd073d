// Saved state: save and restore.
ghost use Rattle.call_form.specs.Form.{WritesBy, DoesBy};
ghost use Rattle.persist.specs.Saving.{saving};
ghost use Rattle.persist.specs.StateRestoring.{restoring_state, restore_state_mem};
ghost use Rattle.flat.specs.Flat.{code_numbers, wrote_numbers};

use flat::{CodeAnswer, WroteAnswer};

// Saves the instance at the start of the lent bytes: SMALL where these are too few, else how many were written (R119 to R127).
pub fn galdovar_save_to_bytes(storage: &[u8], out: &mut [u8]) -> WroteAnswer
    ensures { WritesBy wrote_numbers storage.now (saving out.old) out.old result out.new }
{
    flat_bytes::saved(persist::saving::save_to_bytes(storage, out))
}

// NOTFRESH, BADSAVE, BADOPT, NOROOM, or the state of the bytes in place of the instance's own (R128 to R134).
pub fn galdovar_restore_from_bytes(storage: &mut [u8], bytes: &[u8]) -> CodeAnswer
    ensures { DoesBy code_numbers storage.old (restoring_state bytes.now) result storage.new (restore_state_mem bytes.now storage.old) }
{
    flat_bytes::state_restored(persist::state_restoring::restore_from_bytes(storage, bytes))
}
