// The preprocessor behind a table of rights (request #105): every entry takes the table and the role first and gives row 22, with nothing changed, where
// a right that it needs is withheld; otherwise the entry of the same name below runs. `build` needs no role.
#![tactic(auto)]

pub mod calls;
pub mod getters;
pub mod queries;
pub mod rights;
pub mod snapshots;
