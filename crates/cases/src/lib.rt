// Tests of stored rounds and of lists of banks, case by case.
#![tactic(auto)]

#[cfg(test)]
mod tests;
