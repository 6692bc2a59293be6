// Runs of the bench on several caches.
#![tactic(auto)]

#[cfg(test)]
mod tests;
