// Examples of datagrams at every edge: each is proved to be safe and then run, and a check that fails ends its run.
#![tactic(auto)]

#[cfg(test)]
mod accepted;
#[cfg(test)]
mod refused;
