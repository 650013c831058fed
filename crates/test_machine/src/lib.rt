//! The machine beside the plain program: tests alone, in which both run the same programs within the same budgets, examples and
//! programs made by a generator with a fixed seed. They stand apart from `md_machine`, so that nothing else waits for `md_plain`.
#![tactic(auto)]

#[cfg(test)]
mod tests;
