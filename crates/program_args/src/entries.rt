//! The value of `--make`: the number of entries of a generated e820 table, which replaces the zero
//! page. `made` of `e820_table` requires a number within these bounds, so they are checked here.

ghost use Rattle.std.specs.Prelude.{◌≡◌, IfSome};
ghost use Rattle.std.specs.Option.{option_copied};
ghost use Rattle.program_args.specs.Entries.{IsEntryCount, are_digits, entry_count_in, made_entry_count};

/// The least number of entries of a generated table.
const FEWEST_ENTRIES: u32 = 2;

/// The greatest number of entries of a generated table.
const MOST_ENTRIES: u32 = 3000;

/// Returns the number of entries of the generated table, from the value of `--make`. Returns
/// `Some(None)` if `--make` isn't given (`value` is `None`), and `None` if its value isn't a number
/// from 2 to 3000.
pub fn made_entry_count(value: Option<&str>) -> Option<Option<u32>>
    ensures value { result ≡ made_entry_count (option_copied value.entry) }
    ensures facts { IfSome result (λ made. IfSome made IsEntryCount) }
{
    match value {
        Some(text) => Some(Some(entry_count_in(text)?)),
        None => Some(None),
    }
}

/// Returns the number that the decimal digits of `text` give, or `None` if `text` isn't a number
/// from 2 to 3000.
fn entry_count_in(text: &str) -> Option<u32>
    ensures value { result ≡ entry_count_in text.now }
    ensures facts { IfSome result IsEntryCount }
{
    if !are_digits(text) {
        return None;
    }
    let Ok(count) = text.parse::<u32>() else {
        return None;
    };
    if (FEWEST_ENTRIES..=MOST_ENTRIES).contains(&count) {
        Some(count)
    } else {
        None
    }
}

/// Tests whether all bytes of the text are decimal digits. True for the empty text.
fn are_digits(text: &str) -> bool
    ensures { result ≡ are_digits text.now }
{
    text.bytes().all(|byte| byte.is_ascii_digit())
}
