//! The arguments of a call, word by word.

ghost use Rattle.std.specs.Prelude.{◌≡◌, map, ◌<◌, ◌≤◌, ◌^◌, Result, Ok, Err, true, length};
ghost use Rattle.std.specs.Str.Parse.{digits_value};
ghost use Rattle.std.specs.Char.{is_ascii_digit};
ghost use Rattle.std.specs.List.{list_all};
ghost use Rattle.script_model.specs.Reading.{word_at, has_leading_zero, number_of, offset_of, number_at, offset_at, data_at, whence_at, open_mode_at, mode_at, context_at, both, earlier, rank, only_one, only_two, only_three, one_word, two_words, three_words};
ghost use Rattle.call_script.specs.Gives.{Gives};

use crate::words::find_word;
use apex_types::{Context, Mode, OpenMode, Token, Whence};
use hex::FromHexError;
use script_model::LineFault;
use std::alloc::Global;

/// The place of a fault in the order in which faults count.
fn rank(fault: LineFault) -> u8
    ensures { result ≡ rank fault }
{
    match fault {
        LineFault::OutOfMemory => 0,
        LineFault::NotAscii => 2,
        LineFault::UnknownPartition => 3,
        LineFault::UnknownCall => 4,
        LineFault::WrongArguments => 5,
        LineFault::BadNumber => 6,
        LineFault::BadData => 7,
    }
}

/// Of two faults the one that counts.
fn earlier(a: LineFault, b: LineFault) -> LineFault
    ensures { result ≡ earlier a b }
{
    if rank(a) <= rank(b) { a } else { b }
}

/// Two arguments that were read, or the fault that counts.
fn both<A: Drop, B: Drop>(
    a: Result<A, LineFault>,
    b: Result<B, LineFault>,
) -> Result<(A, B), LineFault>
    ensures { result ≡ both a b }
{
    match (a, b) {
        (Ok(a), Ok(b)) => Ok((a, b)),
        (Ok(_), Err(g)) => Err(g),
        (Err(f), Ok(_)) => Err(f),
        (Err(f), Err(g)) => Err(earlier(f, g)),
    }
}

/// The one argument.
pub fn one<'a>(arguments: &[&'a [u8]]) -> Result<&'a [u8], LineFault>
    ensures { Gives (λ w. w.now) result (only_one (map (λ w. w.now) arguments.now)) }
{
    match arguments {
        [a] => Ok(*a),
        _ => Err(LineFault::WrongArguments),
    }
}

/// The two arguments.
fn two<'a>(arguments: &[&'a [u8]]) -> Result<(&'a [u8], &'a [u8]), LineFault>
    ensures { Gives (λ w. (w.0.now, w.1.now)) result (only_two (map (λ w. w.now) arguments.now)) }
{
    match arguments {
        [a, b] => Ok((*a, *b)),
        _ => Err(LineFault::WrongArguments),
    }
}

/// The three arguments.
fn three<'a>(arguments: &[&'a [u8]]) -> Result<(&'a [u8], &'a [u8], &'a [u8]), LineFault>
    ensures { Gives (λ w. (w.0.now, w.1.now, w.2.now)) result (only_three (map (λ w. w.now) arguments.now)) }
{
    match arguments {
        [a, b, c] => Ok((*a, *b, *c)),
        _ => Err(LineFault::WrongArguments),
    }
}

/// The token of some bytes.
fn token(alloc: Global, bytes: &[u8]) -> Result<Token, LineFault>
    ensures { Gives (λ t. t) result (Ok bytes.now) }
{
    match Token::read(alloc, bytes) {
        Ok(token) => Ok(token),
        Err(_) => Err(LineFault::OutOfMemory),
    }
}

/// A path or a name: any word.
fn path(alloc: Global, word: &[u8]) -> Result<Token, LineFault>
    ensures { Gives (λ t. t) result (word_at word.now) }
{
    if word.is_empty() {
        return Err(LineFault::WrongArguments);
    }
    token(alloc, word)
}

/// Some data: pairs of hexadecimal digits, or a dot for none.
fn bytes(alloc: Global, word: &[u8]) -> Result<Token, LineFault>
    ensures { Gives (λ t. t) result (data_at word.now) }
{
    if word.is_empty() {
        return Err(LineFault::WrongArguments);
    }
    if word == b".".as_slice() {
        return token(alloc, &[]);
    }
    match hex::decode(alloc, word) {
        Ok(bytes) => token(alloc, &bytes),
        Err(FromHexError::OutOfMemory) => Err(LineFault::OutOfMemory),
        Err(_) => Err(LineFault::BadData),
    }
}

/// One path.
pub fn one_path(alloc: Global, arguments: &[&[u8]]) -> Result<Token, LineFault>
    ensures { Gives (λ t. t) result (one_word word_at (map (λ w. w.now) arguments.now)) }
{
    let word = one(arguments)?;
    path(alloc, word)
}

/// One number.
pub fn one_number(arguments: &[&[u8]]) -> Result<u32, LineFault>
    ensures { Gives (λ n. n) result (one_word number_at (map (λ w. w.now) arguments.now)) }
{
    let word = one(arguments)?;
    number(word)
}

/// A path and an open mode.
pub fn path_and_mode(alloc: Global, arguments: &[&[u8]]) -> Result<(Token, OpenMode), LineFault>
    ensures { Gives (λ x. x) result (two_words word_at open_mode_at (map (λ w. w.now) arguments.now)) }
{
    let (a, b) = two(arguments)?;
    both(path(alloc, a), open_mode(b))
}

/// Two paths.
pub fn two_paths(alloc: Global, arguments: &[&[u8]]) -> Result<(Token, Token), LineFault>
    ensures { Gives (λ x. x) result (two_words word_at word_at (map (λ w. w.now) arguments.now)) }
{
    let (a, b) = two(arguments)?;
    both(path(alloc, a), path(alloc, b))
}

/// Two numbers.
pub fn two_numbers(arguments: &[&[u8]]) -> Result<(u32, u32), LineFault>
    ensures { Gives (λ x. x) result (two_words number_at number_at (map (λ w. w.now) arguments.now)) }
{
    let (a, b) = two(arguments)?;
    both(number(a), number(b))
}

/// A number and some data.
pub fn number_and_bytes(alloc: Global, arguments: &[&[u8]]) -> Result<(u32, Token), LineFault>
    ensures { Gives (λ x. x) result (two_words number_at data_at (map (λ w. w.now) arguments.now)) }
{
    let (a, b) = two(arguments)?;
    both(number(a), bytes(alloc, b))
}

/// A number, an offset and what it counts from.
pub fn number_and_offset(arguments: &[&[u8]]) -> Result<((u32, i64), Whence), LineFault>
    ensures { Gives (λ x. x) result (three_words number_at offset_at whence_at (map (λ w. w.now) arguments.now)) }
{
    let (a, b, c) = three(arguments)?;
    both(both(number(a), offset(b)), whence(c))
}

/// The value of some decimal digits.
fn digits_value(digits: &[u8]) -> u64
    requires short { length digits.now ≤ 10 }
    requires digits { list_all is_ascii_digit digits.now ≡ true }
    ensures { result ≡ digits_value 10 digits.now }
{
    let mut value: u64 = 0;
    for digit in digits {
        value = value * 10 + (*digit - b'0') as u64;
    }
    value
}

/// Whether these are decimal digits alone.
fn are_digits(word: &[u8]) -> bool
    ensures { result ≡ list_all is_ascii_digit word.now }
{
    word.iter().all(|b| b.is_ascii_digit())
}

/// Whether a zero stands before other bytes.
fn has_leading_zero(word: &[u8]) -> bool
    ensures { result ≡ has_leading_zero word.now }
{
    match word.first() {
        Some(b) => *b == b'0' && word.len() != 1,
        None => false,
    }
}

/// The number that a word spells: `0`, or one to ten digits without a leading zero, at most 4,294,967,295.
#[tactic(auto, unfolding(script_model::specs::Reading::number_of))]
pub fn number_of(word: &[u8]) -> Option<u32>
    ensures { result ≡ number_of word.now }
{
    if word.is_empty() {
        return None;
    }
    if word.len() > 10 {
        return None;
    }
    if !are_digits(word) {
        return None;
    }
    if has_leading_zero(word) {
        return None;
    }
    let value = digits_value(word);
    if value > u32::MAX as u64 {
        return None;
    }
    Some(value as u32)
}

/// A number.
pub fn number(word: &[u8]) -> Result<u32, LineFault>
    ensures { result ≡ number_at word.now }
{
    if word.is_empty() {
        return Err(LineFault::WrongArguments);
    }
    match number_of(word) {
        Some(number) => Ok(number),
        None => Err(LineFault::BadNumber),
    }
}

/// The offset that a word spells: a number, or a minus sign and a number other than 0.
fn offset_of(word: &[u8]) -> Option<i64>
    ensures { result ≡ offset_of word.now }
{
    match word {
        [] => None,
        [b'-', digits @ ..] => match number_of(digits) {
            Some(0) => None,
            Some(number) => Some(-(number as i64)),
            None => None,
        },
        _ => match number_of(word) {
            Some(number) => Some(number as i64),
            None => None,
        },
    }
}

/// An offset.
fn offset(word: &[u8]) -> Result<i64, LineFault>
    ensures { result ≡ offset_at word.now }
{
    if word.is_empty() {
        return Err(LineFault::WrongArguments);
    }
    match offset_of(word) {
        Some(offset) => Ok(offset),
        None => Err(LineFault::BadNumber),
    }
}

/// The word of a whence.
fn whence(word: &[u8]) -> Result<Whence, LineFault>
    ensures { result ≡ whence_at word.now }
{
    let whences: [(&[u8], Whence); 3] = [
        (b"SEEK_SET", Whence::Set),
        (b"SEEK_CUR", Whence::Cur),
        (b"SEEK_END", Whence::End),
    ];
    match find_word(&whences, word) {
        Some(whence) => Ok(whence),
        None => Err(LineFault::WrongArguments),
    }
}

/// The word of a mode.
fn mode(word: &[u8]) -> Result<Mode, LineFault>
    ensures { result ≡ mode_at word.now }
{
    let modes: [(&[u8], Mode); 4] = [
        (b"IDLE", Mode::Idle),
        (b"COLD_START", Mode::ColdStart),
        (b"WARM_START", Mode::WarmStart),
        (b"NORMAL", Mode::Normal),
    ];
    match find_word(&modes, word) {
        Some(mode) => Ok(mode),
        None => Err(LineFault::WrongArguments),
    }
}

/// The word of an open mode.
fn open_mode(word: &[u8]) -> Result<OpenMode, LineFault>
    ensures { result ≡ open_mode_at word.now }
{
    let modes: [(&[u8], OpenMode); 2] = [
        (b"READ_ONLY", OpenMode::ReadOnly),
        (b"READ_WRITE", OpenMode::ReadWrite),
    ];
    match find_word(&modes, word) {
        Some(mode) => Ok(mode),
        None => Err(LineFault::WrongArguments),
    }
}

/// The word of a context.
fn context(word: &[u8]) -> Result<Context, LineFault>
    ensures { result ≡ context_at word.now }
{
    let contexts: [(&[u8], Context); 3] = [
        (b"ORDINARY", Context::Ordinary),
        (b"HANDLER", Context::Handler),
        (b"LOCKED", Context::Locked),
    ];
    match find_word(&contexts, word) {
        Some(context) => Ok(context),
        None => Err(LineFault::WrongArguments),
    }
}

/// A mode.
pub fn one_mode(arguments: &[&[u8]]) -> Result<Mode, LineFault>
    ensures { Gives (λ m. m) result (one_word mode_at (map (λ w. w.now) arguments.now)) }
{
    let word = one(arguments)?;
    mode(word)
}

/// A context.
pub fn one_context(arguments: &[&[u8]]) -> Result<Context, LineFault>
    ensures { Gives (λ m. m) result (one_word context_at (map (λ w. w.now) arguments.now)) }
{
    let word = one(arguments)?;
    context(word)
}
