// The three demands on one page: proofs/Main.antt. There is no code here.
#![tactic(auto)]
