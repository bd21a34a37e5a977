// The book of a sale, histories of calls and the books they reach. Theorems only.
#![tactic(auto)]

pub mod laws;
