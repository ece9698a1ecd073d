// No code: no answer depends on what stands behind the bytes of an instance, and no call changes it (R23), proved of the bytes that each call leaves.
#![tactic(auto)]
