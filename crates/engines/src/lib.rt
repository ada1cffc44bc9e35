// Request 2026-05: a theorem about the rules' two engines, over every list of calls. specs/Claim.antt states it; there is no code here.

#![tactic(auto)]
