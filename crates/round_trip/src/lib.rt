// The whole job: measured, encoded, opened and played. No code: its theorems are about the calls' definitions.
#![tactic(auto)]
