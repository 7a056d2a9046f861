//! The rows of the tables of Extended JSON, each computed on the definitions themselves: which tree
//! means which value (`proofs/Meanings`), why a tree means nothing (`proofs/Faults`), where its first
//! fault is (`proofs/Places`), and the tree of a value in both forms (`proofs/Trees`);
//! `proofs/Standards`, `proofs/Spellings` and `proofs/Dates` have the texts that other standards say,
//! `proofs/Words` the words for a hasher, `proofs/Displays` texts of values, and `proofs/Orders` what
//! a text means and a value is written as with the order of keys, with finite doubles too, of which
//! `proofs/Decimals` has a text. A definition that is changed together with its code is rejected here.
#![tactic(auto)]
