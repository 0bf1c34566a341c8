// From costs to levels: each formula, written once. The definitions are in specs/, their laws in proofs/.
#![tactic(auto)]
