// Owned words: which words of a store belong to what is there, and their exchange.

pub mod laws;
