//! The commands of the shell as values of the definitions, for the grammar that reads them and the plain answers that
//! they get. It has no code of its own.
#![tactic(auto)]
