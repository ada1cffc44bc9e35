// Request 2026-06 is a theorem about the rules' list (rules, specs/Undo.antt): specs/Claim.antt states it. No code.

#![tactic(auto)]
