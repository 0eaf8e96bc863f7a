// Every make of book on the same scripted calls, and what books are made of.
#![tactic(auto)]

#[cfg(test)]
mod bodies;
#[cfg(test)]
mod cutting;
#[cfg(test)]
mod entering;
#[cfg(test)]
mod intakes;
#[cfg(test)]
mod ladders;
#[cfg(test)]
mod limits;
#[cfg(test)]
mod numbers;
#[cfg(test)]
mod orders;
#[cfg(test)]
mod ranks;
#[cfg(test)]
mod surveys;
#[cfg(test)]
mod tables;
#[cfg(test)]
mod tops;
