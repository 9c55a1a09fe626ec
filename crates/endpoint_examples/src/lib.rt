// Examples of an endpoint, run: the worked example of docs/ENDPOINT.md, its edges, and the last number that it gives.
#![tactic(auto)]

#[cfg(test)]
mod tests;
