// The equilibrium price of any book, found by two bisections.
#![tactic(auto)]

mod bisections;
mod indications;
mod markets;
mod quantities;
mod searches;

pub use indications::Indication;
pub use searches::{equilibrium_price, indication};
