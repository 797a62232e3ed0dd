// What the definitions imply, apart from any call.
ghost use Rattle.c_rows.specs.Costs.{NoneIsCheaper};

/// Where no plan meets the rows and one more, that some costs are at most a bound, each plan that
/// meets the rows costs at least the bound and 1. So one that costs just this is a cheapest.
pub fn none_is_cheaper()
    ensures { NoneIsCheaper }
{}
