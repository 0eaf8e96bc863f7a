// Tests of the reader of lines at the boundaries of its rules, through its public calls.
#![tactic(auto)]

#[cfg(test)]
mod forms;
#[cfg(test)]
mod reads;
#[cfg(test)]
mod refusals;
