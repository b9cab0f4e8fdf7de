// The ledger: definitions of what a validator must know and answer, call by call; no code.
#![tactic(auto)]
