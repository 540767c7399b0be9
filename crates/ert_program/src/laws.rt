//! Laws of the generated scenarios, each the contract of a function with no body. A caller calls the function
//! to bring its law into reach; the call costs nothing.

ghost use Rattle.std.specs.Prelude.{◌≡◌, ◌≤◌, ◌%◌, ℕ, [], ◌∷◌, length};
ghost use Rattle.ert_defs.specs.Settings.{IsChecked};
ghost use Rattle.ert_ops.specs.{Labels.AreOps, Ranges.AreOpsInRange, declared.op.Op.TheVariants.{Turn, Receive}};
ghost use Rattle.ert_program.specs.{Draws.{after, drawn}, Generated.generated};

/// What holds of every generated scenario of at most 100,000 ops: a service can be opened with its settings,
/// the arguments of its ops are in range there, no two starts have one label, and there are as many ops as
/// were asked for.
pub fn generated_scenarios_are_valid()
    ensures settings { (seed n : ℕ) → IsChecked (generated seed n).settings }
    ensures ops { (seed n : ℕ) → n ≤ 100000
        → AreOpsInRange (generated seed n).settings (generated seed n).ops }
    ensures labels { (seed n : ℕ) → n ≤ 100000 → AreOps (generated seed n).ops }
    ensures count { (seed n : ℕ) → length (generated seed n).ops ≡ n }
{}

/// The first draws of two seeds, and the ops that they choose.
pub fn first_draws()
    ensures state { after 1 ≡ 7806831264735756412 }
    ensures seed_1 { drawn 1 ≡ 908834774 }
    ensures choice_1 { drawn 1 % 8 ≡ 6 }
    ensures op_1 { (generated 1 1).ops ≡ Turn 1 ∷ [] }
    ensures seed_0 { drawn 0 ≡ 167951807 }
    ensures choice_0 { drawn 0 % 8 ≡ 7 }
    ensures op_0 { (generated 0 1).ops ≡ Receive 0 ∷ [] }
{}
