//! What an argument or a field is read as: a function for each kind of value, and those that join them.

ghost use Rattle.std.specs.Prelude.{◌≡◌, map, option_map};
ghost use Rattle.std.specs.List.{list_all};
ghost use Rattle.serde_json.specs.View.{view};
ghost use Rattle.ert_defs.specs.Mails.{first_of, others_of};
ghost use Rattle.ert_scenario.specs.Kinds.{found_map, read_both, of_kind, if_in_range, integer, word_from, word, non_negative_from, non_negative, unsigned_integer, boolean, text, listed, items_in, is_array, arrays, end, one_word};
ghost use Rattle.ert_scenario.specs.Kinds.{two_words, reading_from, listed_reading};

use crate::fault::Fault;
use ert_defs::Reading;
use serde_json::Value;

/// Two readings together: a shape fault of either counts before a range fault of the other.
#[tactic(auto, unfolding(crate::specs::Kinds::read_both))]
pub(crate) fn both<A: Drop, B: Drop>(
    first: Result<A, Fault>,
    second: Result<B, Fault>,
) -> Result<(A, B), Fault>
    ensures { result ≡ read_both first second }
{
    match first {
        Ok(a) => second.map(|b| (a, b)),
        Err(Fault::Shape) => Err(Fault::Shape),
        Err(Fault::Range) => Err(second.err().unwrap_or(Fault::Range)),
    }
}

/// A value that isn't of the kind is a shape fault.
#[tactic(auto, unfolding(crate::specs::Kinds::of_kind))]
fn of_kind<T: Drop>(value: Option<T>) -> Result<T, Fault>
    ensures { result ≡ of_kind value }
{
    value.ok_or(Fault::Shape)
}

/// A value outside its range is a range fault.
#[tactic(auto, unfolding(crate::specs::Kinds::if_in_range))]
pub(crate) fn in_range<T: Drop>(fits: bool, value: T) -> Result<T, Fault>
    ensures { result ≡ if_in_range fits value }
{
    if fits { Ok(value) } else { Err(Fault::Range) }
}

/// An integer of 64 bits. A number with a fraction or an exponent is none.
#[tactic(auto, unfolding(crate::specs::Kinds::integer))]
pub(crate) fn integer(value: Option<&Value>) -> Result<i64, Fault>
    ensures { result ≡ integer (option_map (λ v. view v.now) value.entry) }
{
    of_kind(value.and_then(Value::as_i64))
}

/// A natural below 2^32: an integer outside of that is a range fault.
#[tactic(auto, unfolding(crate::specs::Kinds::word))]
pub(crate) fn word(value: Option<&Value>) -> Result<u32, Fault>
    ensures { result ≡ word (option_map (λ v. view v.now) value.entry) }
{
    word_of(integer(value)?)
}

/// The same of an integer.
#[tactic(auto, using(crate::proofs::Wholes::word_fits, crate::proofs::Wholes::word_misses))]
fn word_of(number: i64) -> Result<u32, Fault>
    ensures { result ≡ word_from number }
{
    let Ok(word) = u32::try_from(number) else {
        return Err(Fault::Range);
    };
    Ok(word)
}

/// A natural below 2^64. A number with a fraction or an exponent is none.
#[tactic(auto, unfolding(crate::specs::Kinds::unsigned_integer))]
pub(crate) fn natural(value: Option<&Value>) -> Result<u64, Fault>
    ensures { result ≡ unsigned_integer (option_map (λ v. view v.now) value.entry) }
{
    of_kind(value.and_then(Value::as_u64))
}

/// A value that is there.
#[tactic(auto, unfolding(crate::specs::Kinds::of_kind))]
pub(crate) fn present(value: Option<&Value>) -> Result<&Value, Fault>
    ensures { found_map (λ v. view v.now) result ≡ of_kind (option_map (λ v. view v.now) value.entry) }
{
    match value {
        Some(value) => Ok(value),
        None => Err(Fault::Shape),
    }
}

/// An integer that counts something: a negative one is a range fault.
#[tactic(auto, unfolding(crate::specs::Kinds::non_negative))]
pub(crate) fn count_of(value: Option<&Value>) -> Result<u64, Fault>
    ensures { result ≡ non_negative (option_map (λ v. view v.now) value.entry) }
{
    natural_of(integer(value)?)
}

/// The same of an integer.
fn natural_of(number: i64) -> Result<u64, Fault>
    ensures { result ≡ non_negative_from number }
{
    let Ok(natural) = u64::try_from(number) else {
        return Err(Fault::Range);
    };
    Ok(natural)
}

/// `true` or `false`.
#[tactic(auto, unfolding(crate::specs::Kinds::boolean))]
pub(crate) fn boolean(value: Option<&Value>) -> Result<bool, Fault>
    ensures { result ≡ boolean (option_map (λ v. view v.now) value.entry) }
{
    of_kind(value.and_then(Value::as_bool))
}

/// The items of an array.
#[tactic(auto, using(crate::proofs::Listed::list_of_items), unfolding(crate::specs::Kinds::listed, crate::specs::Kinds::of_kind))]
pub(crate) fn listed(value: Option<&Value>) -> Result<&[Value], Fault>
    ensures { found_map (λ items. map view items.now) result
        ≡ listed (option_map (λ v. view v.now) value.entry) }
{
    match value.and_then(Value::as_array) {
        Some(items) => Ok(items.as_slice()),
        None => Err(Fault::Shape),
    }
}

/// The items of a value that is an array; others have none.
pub(crate) fn items_in(value: &Value) -> &[Value]
    ensures { map view result.now ≡ items_in (view value.now) }
{
    match listed(Some(value)) {
        Ok(items) => items,
        Err(_) => &[],
    }
}

/// The items of an array, each of which is an array.
#[tactic(auto, using(crate::proofs::Listed::all_arrays), unfolding(crate::specs::Kinds::arrays))]
pub(crate) fn arrays(value: Option<&Value>) -> Result<&[Value], Fault>
    ensures { found_map (λ items. map view items.now) result
        ≡ arrays (option_map (λ v. view v.now) value.entry) }
{
    let lists = listed(value)?;
    if are_arrays(lists) {
        Ok(lists)
    } else {
        Err(Fault::Shape)
    }
}

/// Whether each value is an array.
fn are_arrays(values: &[Value]) -> bool
    ensures { result ≡ list_all (λ v. is_array (view v)) values.now }
{
    values.iter().all(|value| value.is_array())
}

/// The text of a string.
#[tactic(auto, unfolding(crate::specs::Kinds::text, crate::specs::Kinds::of_kind))]
pub(crate) fn text(value: Option<&Value>) -> Result<&str, Fault>
    ensures { found_map (λ s. s.now) result ≡ text (option_map (λ v. view v.now) value.entry) }
{
    of_kind(value.and_then(Value::as_str))
}

/// The next argument, and those after it.
pub(crate) fn next(args: &[Value]) -> (Option<&Value>, &[Value])
    ensures first { option_map (λ v. view v.now) result.0 ≡ first_of (map view args.now) }
    ensures others { map view result.1.now ≡ others_of (map view args.now) }
{
    match args {
        [first, others @ ..] => (Some(first), others),
        [] => (None, args),
    }
}

/// One argument alone, a natural below 2^32.
pub(crate) fn one_word(args: &[Value]) -> Result<u32, Fault>
    ensures { result ≡ one_word (map view args.now) }
{
    let (value, args) = next(args);
    let (number, ()) = both(word(value), end(args))?;
    Ok(number)
}

/// Two such arguments.
pub(crate) fn two_words(args: &[Value]) -> Result<(u32, u32), Fault>
    ensures { result ≡ two_words (map view args.now) }
{
    let (first, args) = next(args);
    let (second, args) = next(args);
    let (first, (second, ())) = both(word(first), both(word(second), end(args)))?;
    Ok((first, second))
}

/// No further argument.
#[tactic(auto, unfolding(crate::specs::Kinds::end))]
pub(crate) fn end(args: &[Value]) -> Result<(), Fault>
    ensures { result ≡ end (map view args.now) }
{
    if args.is_empty() {
        Ok(())
    } else {
        Err(Fault::Shape)
    }
}

/// An array of two integers, as a reading that may be out of range.
pub(crate) fn reading(value: Option<&Value>) -> Result<Reading, Fault>
    ensures { result ≡ listed_reading (option_map (λ v. view v.now) value.entry) }
{
    reading_from(listed(value)?)
}

/// Two integers and no more, as a reading that may be out of range.
#[tactic(auto, unfolding(crate::specs::Kinds::reading_from))]
pub(crate) fn reading_from(items: &[Value]) -> Result<Reading, Fault>
    ensures { result ≡ reading_from (map view items.now) }
{
    let (mono, items) = next(items);
    let (sys, items) = next(items);
    let (mono, (sys, ())) = both(integer(mono), both(integer(sys), end(items)))?;
    Ok(Reading { mono, sys })
}
