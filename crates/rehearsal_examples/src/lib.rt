// Examples of scripts and transcripts: each is proved to be safe and then run, and a check that fails ends its run.
#![tactic(auto)]

#[cfg(test)]
mod rehearsals;
#[cfg(test)]
mod scripts;
#[cfg(test)]
mod transcripts;
