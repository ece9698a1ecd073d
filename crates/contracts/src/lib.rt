// No code: every step that the contract of a call or of an export allows is one that the theorems on bytes speak of; and what follows from answers alone.
#![tactic(auto)]
