// Tests of the clearing note at its boundaries, through its public calls.
#![tactic(auto)]

#[cfg(test)]
mod figures;
#[cfg(test)]
mod notes;
#[cfg(test)]
mod reading;
#[cfg(test)]
mod writing;
