// A store of equal cells with reference counts, in two makes, behind one interface.
#![tactic(auto)]

pub mod calls;
pub mod cell;
pub mod content;
pub mod fault;
pub mod hold;
pub mod interface;
pub mod laws;
pub mod lowering;
pub mod roots;
pub mod stores;
pub mod table;
pub mod tally;
