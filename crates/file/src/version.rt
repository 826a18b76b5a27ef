// The version of a file, which its header decides.
ghost use Rattle.std.specs.Prelude.{◌≡◌};
ghost use Rattle.file.specs.Version.{version_in, version_of};

use line::field_in;
use records::Version;

// The version whose rules hold for the file.
#[tactic(auto, using(crate::proofs::Versions::version_there))]
pub fn version_of(file: &[u8]) -> Version
    ensures { result ≡ version_of file.now }
{
    version_in(line::text_at(file, 0))
}

// The version that the text of a first line names: 7 only on a header that says so.
#[tactic(auto, using(crate::proofs::Versions::no_header, crate::proofs::Versions::header_seven, crate::proofs::Versions::header_other))]
fn version_in(line: &[u8]) -> Version
    ensures { result ≡ version_in line.now }
{
    if text::equal(field_in(line, 0), b"010")
        && records::is_version(Version::Seven, field_in(line, 6))
    {
        return Version::Seven;
    }
    Version::Five
}
