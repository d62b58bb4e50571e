//! The numbers of command lines.

ghost use Rattle.std.specs.Prelude.{◌≡◌, if◌then◌else◌, Some, None};
ghost use Rattle.script_spec.specs.Text.{decimal_value};
ghost use Rattle.command_lines.specs.Commands.{is_numeral, number_of};

/// The most digits that a number of a command line may have.
pub const MOST_DIGITS: usize = 10;

/// The number of 1 to 10 decimal digits.
#[tactic(auto, unfolding(script_spec::specs::Text::decimal_value))]
fn numeral(word: &[u8]) -> Option<u64>
    ensures value { result ≡ (if is_numeral word.now then Some (decimal_value word.now) else None) }
{
    if word.is_empty() || word.len() > MOST_DIGITS {
        return None;
    }
    let mut value = 0;
    for digit in word {
        if !digit.is_ascii_digit() {
            return None;
        }
        value = value * 10 + u64::from(*digit - b'0');
    }
    Some(value)
}

/// The number of 1 to 10 decimal digits, zeros in front among them, where it lies in this range.
pub(crate) fn number_of(word: &[u8], lowest: u32, highest: u32) -> Option<u32>
    ensures value { result ≡ number_of lowest highest word.now }
{
    match numeral(word) {
        Some(number) if number >= u64::from(lowest) && number <= u64::from(highest) => {
            Some(number as u32)
        }
        _ => None,
    }
}
