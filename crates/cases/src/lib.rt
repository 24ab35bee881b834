// Histories of calls on whole buffers, computed from the model's definitions by the checker: proofs/Run.antt. There is no code here, and a crate of their own
// spares every check of the model their seconds.
#![tactic(auto)]
