ghost use Rattle.std.specs.Prelude.{◌≡◌, ◌≤◌, IfOk};
ghost use Rattle.ert_scenario.specs.Scenarios.{plan_of};
ghost use Rattle.ert_program.specs.{Generated.generated, Steps.{next_ops, first}};

use crate::generator::Generator;
use ert_defs::{Mode, NoMemory, Reading, SCENARIO_LOOKS, Settings};
use ert_ops::Op;
use ert_scenario::Scenario;
use std::alloc::{AllocError, Global};

const SETTINGS: Settings = Settings {
    mode: Mode::Multi,
    correction: false,
    start: 0,
    schedulers: 4,
    processes: 8,
    slots: 4_096,
    looks: SCENARIO_LOOKS,
    callers: 1,
    first: Reading { mono: 0, sys: 0 },
};

/// The scenario of a seed with `n` ops, at most 100,000: ticks, starts, cancels, reads, turns and receives,
/// as the draws of the seed choose.
pub fn generate(alloc: Global, seed: u64, n: u64) -> Result<Scenario, NoMemory>
    requires { n ≤ 100000 }
    ensures { IfOk result (λ s. plan_of s ≡ generated seed n) }
{
    Ok(Scenario {
        settings: SETTINGS,
        ops: ops_of(alloc, seed, n)?,
        race: None,
    })
}

fn ops_of(alloc: Global, seed: u64, n: u64) -> Result<Vec<Op>, AllocError>
    requires { n ≤ 100000 }
    ensures { IfOk result (λ v. v.items ≡ next_ops n (first seed)) }
{
    let mut generator = Generator::new(seed);
    let mut ops = Vec::with_capacity(alloc, n as usize)?;
    'ops: for made in 0..n {
        ops.push(generator.next_op())?;
    }
    Ok(ops)
}
