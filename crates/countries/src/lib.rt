// The list of countries that a caller lends: pairs of capitals, one behind the other.
#![tactic(auto)]

ghost use Rattle.std.specs.Prelude.{◌≡◌};
ghost use Rattle.countries.specs.List.{is_paired, is_listed};

// Whether the list is one of pairs: its length is not odd.
#[tactic(auto, unfolding(crate::specs::List::is_paired))]
pub fn is_paired(countries: &[u8]) -> bool
    ensures { result ≡ is_paired countries.now }
{
    countries.len() % 2 == 0
}

// Whether a pair of the list is this country.
pub fn is_listed(countries: &[u8], country: &[u8]) -> bool
    ensures { result ≡ is_listed countries.now country.now }
{
    countries
        .chunks_exact(2)
        .any(|pair| text::equal(pair, country))
}
