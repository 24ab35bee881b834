// No code: the two halves of a ring together, the guest's and the backend's (section 16 of docs/RULES.md). The claim stands in specs/Claim.antt.
#![tactic(auto)]
