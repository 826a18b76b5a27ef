// Symbols, the digits and the capitals, and their values.
ghost use Rattle.std.specs.Prelude.{◌≡◌, ◌<◌};
ghost use Rattle.check_characters.specs.Symbol.{value_of, symbol_of};

// The value of a symbol; 0 for any other byte.
#[tactic(auto, unfolding(crate::specs::Symbol::value_of))]
pub fn value(b: u8) -> u8
    ensures { result ≡ value_of b }
{
    if text::is_digit(b) {
        return b - b'0';
    }
    if text::is_capital(b) {
        return b - b'A' + 10;
    }
    0
}

// The symbol of a value.
#[tactic(auto, unfolding(crate::specs::Symbol::symbol_of))]
pub fn symbol_of(v: u8) -> u8
    requires { v < 36 }
    ensures { result ≡ symbol_of v }
{
    if v < 10 {
        return b'0' + v;
    }
    b'A' + (v - 10)
}
