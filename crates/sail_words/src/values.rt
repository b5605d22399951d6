//! The values that clap found, as its definition of a parse tells them.
ghost use Rattle.std.specs.Prelude.{◌≡◌, map, option_map};
ghost use Rattle.clap.specs.Words.{rows_of, found_of, first_of, all_of};

use clap::ArgMatches;

/// The value of an option, if it was given.
pub fn value_of<'a>(values: &ArgMatches<'a>, name: &str) -> Option<&'a str>
    ensures { option_map (λ value. value.now) result ≡ first_of name.now (rows_of (found_of values.now)) }
{
    values.get_str(name)
}

/// All words of an argument, if there are any.
pub fn values_of<'v, 'a>(values: &'v ArgMatches<'a>, name: &str) -> Option<&'v [&'a str]>
    ensures { option_map (λ all. map (λ value. value.now) all.now) result ≡ all_of name.now (rows_of (found_of values.now)) }
{
    values.get_strs(name)
}
