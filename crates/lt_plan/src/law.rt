ghost use Rattle.std.specs.Prelude.{ℕ, ◌+◌, ◌-◌, ◌^◌, ◌≤◌, List, length, take, drop};
ghost use Rattle.lt_plan.specs.Merging.{HasNoRun, GoTogether, first_bytes};
ghost use Rattle.lt_plan.specs.declared.tablets.Weigh.{Weigh};

/// Where nothing is to be merged, sizes halve: of `n` neighbours of one home that are together within the most bytes and
/// not empty, the first has at least `2 ^ n - 1` bytes.
pub fn unmerged_sizes_halve()
    ensures halve { (now : ℕ) (list : List Weigh) → HasNoRun now list → (i n : ℕ) → 1 ≤ n → i + n ≤ length list → GoTogether now (take n (drop i list)) → 2 ^ n - 1 ≤ first_bytes (drop i list) }
{}
