//! What stands at each index of a day.

ghost use Rattle.std.specs.Prelude.{◌≡◌, ℕ, ◌+◌, ◌<◌, Some, slice_get};
ghost use Rattle.gen_core.specs.declared.plan.DayPlan.{DayPlan};
ghost use Rattle.gen_core.specs.Generated.{day_record, listing, record_behind, session_records, generated};

/// A day has the Day record first, then the listing of each symbol, and then the records of the session, each as it is
/// drawn behind those before it. It does nothing.
pub fn a_day_by_indexes()
    ensures day { (plan : DayPlan) → slice_get (generated plan) 0 ≡ Some day_record }
    ensures listings { (plan : DayPlan) (symbol : ℕ) → symbol < plan.symbols → slice_get (generated plan) (1 + symbol) ≡ Some (listing symbol) }
    ensures session { (plan : DayPlan) (k : ℕ) → k < plan.records → slice_get (generated plan) (1 + plan.symbols + k) ≡ Some (record_behind plan (session_records plan k) k) }
{}
