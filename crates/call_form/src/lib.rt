// No code: the common form of the contracts of calls on an instance in lent bytes.
#![tactic(auto)]
