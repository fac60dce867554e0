//! Byte forms: how values are written as bytes and read back. What a form is, with its laws, stands in specs/Form.antt; the
//! number form in specs/Number.antt. The code here reads and writes numbers, raw bytes and optional numbers; the forms of keys,
//! packets and records are made of these.
#![tactic(auto)]

pub mod form;
pub mod lone;
pub mod number;
pub mod numbers;
pub mod optional;
pub mod place;
pub mod raw;
pub mod refusal;
pub mod stop;
