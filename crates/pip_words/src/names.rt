// The names of arguments, by which these are built and read.

pub(crate) const SIMPLIFY: &str = "simplify";

pub(crate) const POLYLIB: &str = "polylib";

pub(crate) const CERTIFICATE: &str = "certificate";

pub(crate) const PIVOTS: &str = "pivots";

pub(crate) const CUTS: &str = "cuts";

pub(crate) const SPLITS: &str = "splits";

pub(crate) const NESTING: &str = "nesting";

pub(crate) const PARAMETER: &str = "parameter";

pub(crate) const PARAMETERS: &str = "parameters";

pub(crate) const SEED: &str = "seed";

pub(crate) const COUNT: &str = "count";
