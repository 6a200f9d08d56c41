ghost use Rattle.std.specs.Prelude.{◌≡◌, ◌<◌, ◌≤◌, ◌^◌, IfSome, IfOk, IfErr, true, false};
ghost use Rattle.std.specs.List.{list_all};
ghost use Rattle.brace_words.specs.Values.{is_name, is_number, is_fate, is_loss, is_link, is_absent_or, is_set, number_in};
ghost use Rattle.brace_words.specs.inner.Getters.{found_in};

use crate::LineFault;
use brace_num::{NoMemory, Text, read_count};
use clap::ArgMatches;
use std::alloc::Global;

/// The name that stands for an option, if any. Usage where it is empty.
pub(crate) fn name_of(
    alloc: Global,
    matches: &ArgMatches<'_>,
    option: &str,
) -> Result<Option<Text>, LineFault>
    ensures name { IfOk result (λ name. name ≡ found_in matches.now option.now) }
    ensures taken { IfOk result (λ name.
        is_absent_or is_name (found_in matches.now option.now) ≡ true) }
    ensures usage { IfErr result (λ fault. fault ≡ LineFault.Usage
        → is_absent_or is_name (found_in matches.now option.now) ≡ false) }
{
    match matches.get_str(option) {
        None => Ok(None),
        Some("") => Err(LineFault::Usage),
        Some(name) => Ok(Some(text_of(alloc, name)?)),
    }
}

/// The letters that stand for an option, if any. Usage where they are no link.
pub(crate) fn link_of(
    alloc: Global,
    matches: &ArgMatches<'_>,
    option: &str,
) -> Result<Option<Text>, LineFault>
    ensures letters { IfOk result (λ letters. letters ≡ found_in matches.now option.now) }
    ensures link { IfOk result (λ letters. IfSome letters (λ text. is_link text ≡ true)) }
    ensures taken { IfOk result (λ letters.
        is_absent_or is_link (found_in matches.now option.now) ≡ true) }
    ensures usage { IfErr result (λ fault. fault ≡ LineFault.Usage
        → is_absent_or is_link (found_in matches.now option.now) ≡ false) }
{
    match matches.get_str(option) {
        None => Ok(None),
        Some(letters) if is_link(letters) => Ok(Some(text_of(alloc, letters)?)),
        Some(_) => Err(LineFault::Usage),
    }
}

/// Whether a text is 1 to 16 letters of a link, not all of them losses.
fn is_link(text: &str) -> bool
    ensures { result ≡ is_link text.now }
{
    let letters = text.as_bytes();
    letters.len() <= 16 && are_fates(letters) && !are_losses(letters)
}

fn are_fates(letters: &[u8]) -> bool
    ensures { result ≡ list_all is_fate letters.now }
{
    letters.iter().all(|letter| is_fate(*letter))
}

fn are_losses(letters: &[u8]) -> bool
    ensures { result ≡ list_all is_loss letters.now }
{
    letters.iter().all(|letter| *letter == b'l')
}

fn is_fate(letter: u8) -> bool
    ensures { result ≡ is_fate letter }
{
    matches!(letter, b'l' | b'd' | b't' | b'a')
}

fn text_of(alloc: Global, name: &str) -> Result<Text, NoMemory>
    ensures { IfOk result (λ text. text ≡ name.now) }
{
    Ok(Text::from_string(String::from_str(alloc, name)?))
}

/// The number from `least` to `most` that stands for an option, if any. Usage where it is none.
pub(crate) fn number_of(
    matches: &ArgMatches<'_>,
    option: &str,
    least: u64,
    most: u64,
) -> Result<Option<u64>, LineFault>
    ensures number { IfOk result (λ n. n ≡ number_in (found_in matches.now) option.now) }
    ensures bounds { IfOk result (λ n. IfSome n (λ n. (least ≤ n) × (n ≤ most))) }
    ensures taken { IfOk result (λ n.
        is_absent_or (is_number least most) (found_in matches.now option.now) ≡ true) }
    ensures usage { IfErr result (λ fault. fault ≡ LineFault.Usage
        → is_absent_or (is_number least most) (found_in matches.now option.now) ≡ false) }
{
    let Some(digits) = matches.get_str(option) else {
        return Ok(None);
    };
    match read_count(digits.as_bytes()) {
        Some(n) if least <= n && n <= most => Ok(Some(n)),
        _ => Err(LineFault::Usage),
    }
}

/// The same number, where 32 bits hold it.
pub(crate) fn small(number: Option<u64>) -> Option<u32>
    requires { IfSome number (λ n. n < 2 ^ 32) }
    ensures { result ≡ number }
{
    match number {
        Some(n) => Some(n as u32),
        None => None,
    }
}

/// Whether a flag stands.
pub(crate) fn is_set(matches: &ArgMatches<'_>, flag: &str) -> bool
    ensures { result ≡ is_set (found_in matches.now) flag.now }
{
    matches!(matches.get_str(flag), Some("true"))
}
