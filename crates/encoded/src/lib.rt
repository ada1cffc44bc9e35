// Laws of what `Encode` of the rules writes: what look-up finds in it, and that decoding gives the entry back. No code.

#![tactic(auto)]
