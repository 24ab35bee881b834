// No code: what holds of every list of calls, as Rattle makes them (specs/Run.antt), and that every call has an outcome which keeps its promise; and that a plan's extents can be joined.
#![tactic(auto)]
