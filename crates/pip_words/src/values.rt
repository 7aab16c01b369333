ghost use Rattle.std.specs.Prelude.{◌≡◌, ◌≤◌, IfSome, codes, map, option_map};
ghost use Rattle.pip_model.specs.Limits.{most_params};
ghost use Rattle.clap.specs.Words.{rows_of, found_of};
ghost use Rattle.pip_words.specs.Words.{Gives, parameters_of, walk_of, budget_of, flag_of, limit_of, needed_of};

use crate::command::WalkOptions;
use crate::names;
use crate::number::{parameter, short_number};
use crate::parameter_vector::ParameterVector;
use crate::refusal::WordsRefusal;
use clap::ArgMatches;
use pip_problem::{Limits, MOST_PARAMETERS};
use std::alloc::Global;

const MOST_PIVOTS: u64 = 1_000_000_000;

const MOST_CUTS: u64 = 1_000_000;

const MOST_SPLITS: u64 = 1_000_000;

const MOST_NESTING: u64 = 200;

// The vector of these texts.
pub(crate) fn parameters(alloc: Global, texts: &[&str]) -> Result<ParameterVector, WordsRefusal>
    ensures { Gives (λ vector. vector) (parameters_of (map (λ text. text.now) texts.now)) result }
{
    if texts.len() > MOST_PARAMETERS {
        return Err(WordsRefusal::Usage);
    }
    let mut entries = Vec::new(alloc);
    for text in texts {
        match parameter(text.as_bytes()) {
            Some(value) => entries.push(value)?,
            None => return Err(WordsRefusal::Usage),
        }
    }
    Ok(ParameterVector::from_entries(entries))
}

// The required number of parameters.
pub(crate) fn parameter_count(matches: &ArgMatches<'_>) -> Option<usize>
    ensures value { result ≡ needed_of (codes "parameters") most_params (rows_of (found_of matches.now)) }
    ensures few { IfSome result (λ n. n ≤ most_params) }
{
    let count = required_number(matches, names::PARAMETERS, MOST_PARAMETERS as u64)?;
    Some(count as usize)
}

// The number of parameters and the budgets of a walk.
pub(crate) fn walk(matches: &ArgMatches<'_>) -> Option<WalkOptions>
    ensures { option_map (λ o. (o.params, o.limits)) result ≡ walk_of (rows_of (found_of matches.now)) }
{
    let params = parameter_count(matches)?;
    let limits = limits(matches)?;
    Some(WalkOptions { params, limits })
}

// The budgets of the options, each its standard where it is not given.
pub(crate) fn limits(matches: &ArgMatches<'_>) -> Option<Limits>
    ensures { result ≡ budget_of (rows_of (found_of matches.now)) }
{
    let standard = Limits::standard();
    let pivots = limit(matches, names::PIVOTS, MOST_PIVOTS, standard.pivots())?;
    let cuts = limit(matches, names::CUTS, MOST_CUTS, standard.cuts())?;
    let splits = limit(matches, names::SPLITS, MOST_SPLITS, standard.splits())?;
    let nesting = limit(matches, names::NESTING, MOST_NESTING, standard.nesting())?;
    Some(Limits::new(pivots, cuts, splits, nesting))
}

// The number of a required argument.
#[tactic(auto, using(crate::proofs::Rows::value_rows))]
pub(crate) fn required_number(matches: &ArgMatches<'_>, name: &str, most: u64) -> Option<u64>
    ensures value { result ≡ needed_of name.now most (rows_of (found_of matches.now)) }
    ensures within { IfSome result (λ n. n ≤ most) }
{
    short_number(matches.get_str(name)?.as_bytes(), most)
}

// The flag is given.
#[tactic(auto, using(crate::proofs::Rows::value_rows))]
pub(crate) fn is_set(matches: &ArgMatches<'_>, name: &str) -> bool
    ensures { result ≡ flag_of name.now (rows_of (found_of matches.now)) }
{
    match matches.get_str(name) {
        Some(text) => text == "true",
        None => false,
    }
}

// The number of an option, or its default.
#[tactic(auto, using(crate::proofs::Rows::value_rows))]
fn limit(matches: &ArgMatches<'_>, name: &str, most: u64, default: u64) -> Option<u64>
    requires { default ≤ most }
    ensures value { result ≡ limit_of name.now most default (rows_of (found_of matches.now)) }
    ensures within { IfSome result (λ n. n ≤ most) }
{
    match matches.get_str(name) {
        Some(text) => short_number(text.as_bytes(), most),
        None => Some(default),
    }
}
