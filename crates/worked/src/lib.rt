// Document 01's worked cases, proved of the definitions: the table of cases in specs/, its one theorem in proofs/. This crate has no function.
#![tactic(auto)]
