// The two versions of a file: the number that names each, and the numeral that its header has.
ghost use Rattle.std.specs.Prelude.{◌≡◌};
ghost use Rattle.records.specs.Version.{is_version, version_numbered};

#[derive(Clone, Copy, Debug, PartialEq, Eq)]
pub enum Version {
    // Document 01's field rules.
    Five,
    // Document 002's field tables, and document 01 where they give nothing.
    Seven,
}

// The version that a number names.
#[tactic(auto, unfolding(crate::specs::Version::version_numbered))]
pub fn version_numbered(number: u32) -> Option<Version>
    ensures { result ≡ version_numbered number }
{
    match number {
        5 => Some(Version::Five),
        7 => Some(Version::Seven),
        _ => None,
    }
}

// Whether a field is this version's numeral.
#[tactic(auto, unfolding(crate::specs::Version::is_version))]
pub fn is_version(version: Version, field: &[u8]) -> bool
    ensures { result ≡ is_version version field.now }
{
    match version {
        Version::Five => text::equal(field, b"5"),
        Version::Seven => text::equal(field, b"7"),
    }
}
