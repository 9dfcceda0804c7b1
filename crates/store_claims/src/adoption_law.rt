// For which stores and other parts there is a valid kernel, and what a check of a store has to find. The functions do nothing: their
// contracts are the laws.
pub mod claim_laws;
pub mod laws;
pub mod pass_laws;
