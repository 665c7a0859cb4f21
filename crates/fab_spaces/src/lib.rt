//! The rules of names: what is used is declared, what is declared is declared once, and principals
//! are of the kind that their place needs. Each function answers the first of the fault so far and
//! of the faults in its part.
#![tactic(auto)]

pub mod doubled;
pub mod roles;
pub mod unknown;
