//! Laws of the definitions, each the contract of a function with no body. A caller calls the function to
//! bring its law into reach; the call costs nothing.

ghost use Rattle.std.specs.Prelude.{◌≡◌, ◌<◌, ◌⊎◌, ℕ, suc, Bool, true, false, List, All, Some, IfSome, is_some};
ghost use Rattle.ert_defs.specs.{Settings.IsChecked, declared.settings.Settings.Settings};
ghost use Rattle.ert_ops.specs.{Labels.AreOps, Races.{Race as ARace, IsRace}, Ranges.{IsOpInRange, AreOpsInRange}, declared.op.Op.Op as AnOp};
ghost use Rattle.serde_json.specs.Data.{Data};
ghost use Rattle.ert_scenario.specs.{Acceptance.{IsRunnable, IsRaceable, plan_alone, plan_with}, Doers.{IsKeepersOp, AreCallersAlone}, Kinds.FoundOrFault, Migration.{IsOfFormat, migrated}, Places.{HasShapeFault, HasRangeFault, IsTooMuch}};
ghost use Rattle.ert_scenario.specs.{Places.{IsLeast, IsNowhere, raw_at, GivesRawOps, IsStartAt}, Scenarios.{Plan, IsValue, IsScenario, HasRefusal, verdict_of}, declared.scenario.ScenarioErr.ScenarioErr as Refusal};

use crate::limits::{
    MOST_CALLERS, MOST_LISTS, MOST_OPS, MOST_PROCESSES, MOST_SCHEDULERS, MOST_SLOTS,
    MOST_SLOTS_IN_ALL, MOST_TURNS,
};
use crate::scenario::ScenarioErr;
use ert_defs::SCENARIO_LOOKS;

/// The limits of scenarios. How many slots a start of one looks at is a limit of services (`ert_defs`).
pub fn limits_are_fixed()
    ensures schedulers { MOST_SCHEDULERS ≡ 64 }
    ensures processes { MOST_PROCESSES ≡ 1024 }
    ensures slots { MOST_SLOTS ≡ 65536 }
    ensures slots_in_all { MOST_SLOTS_IN_ALL ≡ 262144 }
    ensures lists { MOST_LISTS ≡ 16 }
    ensures callers { MOST_CALLERS ≡ 17 }
    ensures turns { MOST_TURNS ≡ 10000 }
    ensures ops { MOST_OPS ≡ 100000 }
{}

/// Bytes are a scenario or have a refusal, never both, and at most one of each: with `some_verdict`,
/// exactly one of all. So it is where a race is wanted, and where none is.
pub fn one_verdict()
    ensures never_both { (race : Bool) (bytes : List ℕ) (plan : Plan) (e : Refusal)
        → IsScenario race bytes plan → HasRefusal race bytes e → ⊥ }
    ensures one_scenario { (race : Bool) (bytes : List ℕ) (plan other : Plan)
        → IsScenario race bytes plan → IsScenario race bytes other → plan ≡ other }
    ensures one_refusal { (race : Bool) (bytes : List ℕ) (e other : Refusal)
        → HasRefusal race bytes e → HasRefusal race bytes other → e ≡ other }
{}

/// All bytes are a scenario or have a refusal.
pub fn some_verdict()
    ensures { (race : Bool) (bytes : List ℕ)
        → ((plan : Plan) × IsScenario race bytes plan) ⊎ ((e : Refusal) × HasRefusal race bytes e) }
{}

/// What holds of every scenario: a service can be opened with its settings, where a start looks at
/// `SCENARIO_LOOKS` slots, the arguments of its ops are in range there, no two starts have one label, and there
/// are at most 100,000 ops. It has a race exactly where one is wanted: its threads may do their ops, no two
/// starts of all lists have one label, the list of the clock's thread has such ops alone as that thread does,
/// and those of callers such as callers do.
pub fn scenarios_are_valid()
    ensures settings { (race : Bool) (bytes : List ℕ) (plan : Plan)
        → IsScenario race bytes plan → IsChecked plan.settings }
    ensures looks { (race : Bool) (bytes : List ℕ) (plan : Plan)
        → IsScenario race bytes plan → plan.settings.looks ≡ SCENARIO_LOOKS }
    ensures ops { (race : Bool) (bytes : List ℕ) (plan : Plan)
        → IsScenario race bytes plan → AreOpsInRange plan.settings plan.ops }
    ensures labels { (race : Bool) (bytes : List ℕ) (plan : Plan)
        → IsScenario race bytes plan → AreOps plan.ops }
    ensures wanted { (race : Bool) (bytes : List ℕ) (plan : Plan)
        → IsScenario race bytes plan → is_some plan.race ≡ race }
    ensures race { (race : Bool) (bytes : List ℕ) (plan : Plan)
        → IsScenario race bytes plan → IfSome plan.race (λ r. IsRace plan.settings plan.ops r) }
    ensures keeper { (race : Bool) (bytes : List ℕ) (plan : Plan)
        → IsScenario race bytes plan → IfSome plan.race (λ r. All IsKeepersOp r.keeper) }
    ensures callers { (race : Bool) (bytes : List ℕ) (plan : Plan)
        → IsScenario race bytes plan → IfSome plan.race (λ r. AreCallersAlone r.callers) }
    ensures one_caller { (bytes : List ℕ) (plan : Plan)
        → IsScenario false bytes plan → plan.settings.callers ≡ 1 }
{}

/// Which bytes are a scenario without a race, and which, apart from how faults are told: the fields give the settings, and
/// the list the ops.
pub fn scenarios_are_accepted()
    ensures accepted { (bytes : List ℕ) (plan : Plan)
        → IsScenario false bytes plan → IsRunnable bytes plan.settings plan.ops }
    ensures scenario { (bytes : List ℕ) (g : Settings) (ops : List AnOp)
        → IsRunnable bytes g ops → IsScenario false bytes (plan_alone g ops) }
    ensures alone { (bytes : List ℕ) (plan : Plan)
        → IsScenario false bytes plan → plan ≡ plan_alone plan.settings plan.ops }
{}

/// Which bytes are a scenario with a race, and which, in the same way: the fields give the settings, and the lists the ops of
/// the service and of each thread of the race.
pub fn races_are_accepted()
    ensures accepted { (bytes : List ℕ) (plan : Plan)
        → IsScenario true bytes plan → (race : ARace) × (plan.race ≡ Some race) × IsRaceable bytes plan.settings plan.ops race }
    ensures scenario { (bytes : List ℕ) (g : Settings) (ops : List AnOp) (race : ARace)
        → IsRaceable bytes g ops race → IsScenario true bytes (plan_with g ops race) }
{}

/// The places are the least ones, read off by index: a shape fault counts before a range fault wherever it
/// stands, each at the least place that has it, and a limit only where no place has a fault.
pub fn least_places()
    ensures shape { (race : Bool) (bytes : List ℕ) (d : Data) (place : ℕ) → IsValue bytes d
        → HasRefusal race bytes (ScenarioErr.Shape place) → IsLeast (HasShapeFault race d) place }

    ensures no_shape { (race : Bool) (bytes : List ℕ) (d : Data) (place : ℕ) → IsValue bytes d
        → HasRefusal race bytes (ScenarioErr.Range place) → IsNowhere (HasShapeFault race d) }
    ensures range { (race : Bool) (bytes : List ℕ) (d : Data) (place : ℕ) → IsValue bytes d
        → HasRefusal race bytes (ScenarioErr.Range place) → IsLeast (HasRangeFault race d) place }

    ensures faultless_limit { (race : Bool) (bytes : List ℕ) (d : Data) (place : ℕ) → IsValue bytes d
        → HasRefusal race bytes (ScenarioErr.Limit place)
        → IsNowhere (HasShapeFault race d) × IsNowhere (HasRangeFault race d) }
    ensures limit { (race : Bool) (bytes : List ℕ) (d : Data) (place : ℕ) → IsValue bytes d
        → HasRefusal race bytes (ScenarioErr.Limit place) → (place ≡ 0) × IsTooMuch race d }

    ensures faultless_scenario { (race : Bool) (bytes : List ℕ) (d : Data) (plan : Plan) → IsValue bytes d
        → IsScenario race bytes plan → IsNowhere (HasShapeFault race d) × IsNowhere (HasRangeFault race d) }
    ensures within_limits { (race : Bool) (bytes : List ℕ) (d : Data) (plan : Plan) → IsValue bytes d
        → IsScenario race bytes plan → IsTooMuch race d → ⊥ }
{}

/// A value of format 1 that is a scenario is the same one when it is migrated, and then its format is 2. So
/// they have one transcript.
pub fn migrated_is_the_same()
    ensures value { (race : Bool) (d : Data) (plan : Plan) → IsOfFormat 1 d → verdict_of race d ≡ Ok plan
        → verdict_of race (migrated d) ≡ Ok plan }
    ensures format { (race : Bool) (d : Data) (plan : Plan) → verdict_of race d ≡ Ok plan
        → IsOfFormat 2 (migrated d) }
    ensures text { (race : Bool) (bytes other : List ℕ) (d : Data) (plan : Plan) → IsValue bytes d
        → IsOfFormat 1 d → IsScenario race bytes plan → IsValue other (migrated d)
        → IsScenario race other plan }
{}

/// Where a service can be opened with the settings, an op whose arguments were read has a range fault exactly
/// where one of them is out of range, or where it is a start with the label of an earlier one, in whichever
/// list that stands.
pub fn range_faults_of_ops()
    ensures out_of_range { (race : Bool) (d : Data) (g : Settings) (raws : List (FoundOrFault AnOp)) (i : ℕ) (op : AnOp)
        → GivesRawOps race d g raws → raw_at raws i ≡ Some (Ok op) → (IsOpInRange g op → ⊥)
        → HasRangeFault race d (suc i) }
    ensures label_again { (race : Bool) (d : Data) (g : Settings) (raws : List (FoundOrFault AnOp)) (i j label : ℕ)
        → GivesRawOps race d g raws → j < i → IsStartAt raws j label → IsStartAt raws i label
        → HasRangeFault race d (suc i) }
    ensures no_other { (race : Bool) (d : Data) (g : Settings) (raws : List (FoundOrFault AnOp)) (i : ℕ) (op : AnOp)
        → GivesRawOps race d g raws → raw_at raws i ≡ Some (Ok op) → IsOpInRange g op
        → ((j label : ℕ) → j < i → IsStartAt raws j label → IsStartAt raws i label → ⊥)
        → HasRangeFault race d (suc i) → ⊥ }
{}
