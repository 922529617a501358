//! Laws of loads.
ghost use Rattle.std.specs.Prelude.{◌≡◌, ◌+◌, ◌*◌, ◌≤◌, ℕ, All, length};
ghost use Rattle.script_text.specs.Ranges.{IsScript, all_jobs};
ghost use Rattle.script_text.specs.Weights.{total};
ghost use Rattle.load_maker.specs.Accesses.{HasParts};
ghost use Rattle.load_maker.specs.Load.{load_script};

/// Law: each load is a script, of its jobs and three of the operator. Each read and write has its parts, and the total
/// weight is bounded.
pub fn loads_are_scripts()
    ensures script { (n : ℕ) → IsScript (load_script n) }
    ensures jobs { (n : ℕ) → length (all_jobs (load_script n)) ≡ n + 3 }
    ensures parts { (n : ℕ) → All (λ job. HasParts (load_script n) job.task) (all_jobs (load_script n)) }
    ensures total { (n : ℕ) → total (load_script n) ≤ 8 * (64 * n + 16386) }
{}
