// Examples of captures and their sheets at every edge: each is proved to be safe and then run, and a check that fails ends its run.
#![tactic(auto)]

#[cfg(test)]
mod records;
#[cfg(test)]
mod sheets;
#[cfg(test)]
mod windows;
