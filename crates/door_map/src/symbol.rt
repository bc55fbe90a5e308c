// What a lookup found, handed over at the C door.
ghost use Rattle.std.specs.Prelude.{◌≡◌};
ghost use Rattle.door_map.specs.Symbol.{found_in, symbol_in};

// Hands a symbol over: `found` becomes 1 and `symbol` the symbol, or both 0.
pub(crate) fn hand_symbol(answer: Option<u32>, found: &mut u32, symbol: &mut u32)
    ensures { (found.new ≡ found_in answer) × (symbol.new ≡ symbol_in answer) }
{
    *found = u32::from(answer.is_some());
    *symbol = answer.unwrap_or(0);
}
