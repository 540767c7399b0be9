/// A command of the program, with its numbers.
#[derive(Clone, Copy, Debug, PartialEq, Eq)]
pub enum Command {
    /// `run`: a scenario is read and run.
    Run,
    /// `race`: a scenario is read and run by threads.
    Race,
    /// `live N`: so many readings of the machine's clocks are taken, 1 to 1,000.
    Live(u64),
    /// `stress SEED N`: a scenario of `n` ops, 1 to 100,000, is made from a seed, 0 to 999,999,999, and run.
    Stress { seed: u64, n: u64 },
}
