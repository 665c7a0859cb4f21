//! Workers, the machine of all nodes, its runs, and what integrity says of them, by definitions. They
//! stand in `specs`; no code is here.
#![tactic(auto)]
