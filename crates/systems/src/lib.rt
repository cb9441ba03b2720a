// Systems whose instances are numbered, and their solutions: definitions and laws in specs/, and no code.
#![tactic(auto)]
