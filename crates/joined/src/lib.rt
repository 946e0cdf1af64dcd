// The joined card (02, #101): its bytes are defined in specs/, and what it asks is proved in proofs/. There is no code here.
#![tactic(auto)]
