// Sums of symbols: what holds of them in every lawful alphabet. The lemmas in proofs/ are for every code.
#![tactic(auto)]

ghost use Rattle.sums.specs.Theorems.{EqualSymbolsCancel, OrderIsFree};

/// A symbol summed as often as there are symbols is 0.
pub fn equal_symbols_cancel()
    ensures { EqualSymbolsCancel }
{}

/// A sum of symbols is the same in another order.
pub fn order_is_free()
    ensures { OrderIsFree }
{}
