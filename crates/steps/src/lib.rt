// The list of row steps is mathematics alone: its definitions are in specs/, its laws in proofs/.

#![tactic(auto)]
