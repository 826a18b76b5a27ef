// The calls on DPD numbers and their carry, IBANs and identcodes.
ghost use Rattle.peliranopi.specs.Calls.{NumberTells, IssueTells, CarryTells, IbanTells, IdentcodeTells, PartsTells};
ghost use Rattle.peliranopi.specs.Calls.{DayTells, IssueIdentcodeTells};

#[unsafe(no_mangle)]
pub extern "C" fn peliranopi_check_number(symbols: &[u8], kind: &mut u32, place: &mut usize) -> u32
    ensures { NumberTells symbols.now result kind.new place.new }
{
    peliranopi::peliranopi_check_number(symbols, kind, place)
}

#[unsafe(no_mangle)]
pub extern "C" fn peliranopi_check_numbers(
    numbers: &[u8],
    answers: &mut [u8],
    passed: &mut usize,
    place: &mut usize,
) -> u32
    ensures { DayTells numbers.now answers.old result passed.new place.new answers.new }
{
    peliranopi::peliranopi_check_numbers(numbers, answers, passed, place)
}

#[unsafe(no_mangle)]
pub extern "C" fn peliranopi_issue_number(
    body: &[u8],
    output: &mut [u8],
    written: &mut usize,
    place: &mut usize,
) -> u32
    ensures { IssueTells body.now output.old result written.new place.new output.new }
{
    peliranopi::peliranopi_issue_number(body, output, written, place)
}

#[unsafe(no_mangle)]
pub extern "C" fn peliranopi_next_carry(
    carry: u32,
    key: u8,
    next: &mut u32,
    place: &mut usize,
) -> u32
    ensures { CarryTells carry key result next.new place.new }
{
    peliranopi::peliranopi_next_carry(carry, key, next, place)
}

#[unsafe(no_mangle)]
pub extern "C" fn peliranopi_check_iban(symbols: &[u8], place: &mut usize) -> u32
    ensures { IbanTells symbols.now result place.new }
{
    peliranopi::peliranopi_check_iban(symbols, place)
}

#[unsafe(no_mangle)]
pub extern "C" fn peliranopi_check_identcode(code: &[u8], place: &mut usize) -> u32
    ensures { IdentcodeTells code.now result place.new }
{
    peliranopi::peliranopi_check_identcode(code, place)
}

// The header has the twelve numbers as a struct of six parts.
#[unsafe(no_mangle)]
pub extern "C" fn peliranopi_read_identcode(
    code: &[u8],
    parts: &mut [usize; 12],
    place: &mut usize,
) -> u32
    ensures { PartsTells code.now result parts.new place.new }
{
    peliranopi::peliranopi_read_identcode(code, parts, place)
}

#[unsafe(no_mangle)]
pub extern "C" fn peliranopi_issue_identcode(
    body: &[u8],
    output: &mut [u8],
    written: &mut usize,
    place: &mut usize,
) -> u32
    ensures { IssueIdentcodeTells body.now output.old result
        written.new place.new output.new }
{
    peliranopi::peliranopi_issue_identcode(body, output, written, place)
}
