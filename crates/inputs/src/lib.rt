// What a text says as a process and a formula: definitions and laws in specs/, and no code.
#![tactic(auto)]
