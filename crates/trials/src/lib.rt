// Trials: the examples and the limits of the rules in docs/, run through the libraries. There is nothing here to call.
#![tactic(auto)]

#[cfg(test)]
mod commands;
#[cfg(test)]
mod frames;
#[cfg(test)]
mod helps;
#[cfg(test)]
mod houses;
#[cfg(test)]
mod listings;
#[cfg(test)]
mod modes;
#[cfg(test)]
mod readings;
#[cfg(test)]
mod stretches;
