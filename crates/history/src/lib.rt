// Demand 3 is a theorem about the rules' step, which `device::call` is proved equal to: specs/Claim.antt states it. No code.

#![tactic(auto)]
