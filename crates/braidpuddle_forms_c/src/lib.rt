// The exports of braidpuddle_forms for C and Rust: each calls the function of the same name there, and says its clauses again. The compiler exports nothing
// of a library, and builds a crate as a library or as a static library, not as both.
#![tactic(auto)]

mod form;
mod host;
mod keys;
