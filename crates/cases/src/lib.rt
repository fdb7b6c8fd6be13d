// The worked cases of the rules, as one table with one proof.
#![tactic(auto)]

ghost use Rattle.std.specs.Prelude.{◌≡◌, length};
ghost use Rattle.std.specs.List.{AllByRecursion};
ghost use Rattle.cases.specs.Table.{table, Right};

// How many cases the table has. Each is right by the definitions that the contracts cite.
pub fn worked_cases() -> usize
    ensures count { result ≡ length table }
    ensures right { AllByRecursion Right table }
{
    12
}
