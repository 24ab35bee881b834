// No code: that a call reads and writes no byte of a port's share but those of the port's ring. The claim is in specs/, its proof in proofs/.
#![tactic(auto)]
