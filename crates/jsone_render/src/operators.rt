//! The operators of templates.
ghost use Rattle.std.specs.Prelude.{◌≡◌, Ok};
ghost use Rattle.std.specs.Map.{lookup};
ghost use Rattle.std.specs.Str.{bytes_eq};
ghost use Rattle.jsone_render.specs.Forms.{operator_names, key_of};

/// An operator.
#[derive(Clone, Copy, PartialEq, Eq)]
pub enum Operator {
    Eval,
    Json,
    If,
    Switch,
    Match,
    Let,
    Map,
    Reduce,
    Find,
    Flatten,
    FlattenDeep,
    Merge,
    MergeDeep,
    Sort,
    Reverse,
    FromNow,
}

impl Operator {
    /// The operator that this key is, if there is one.
    pub fn from_key(key: &str) -> Option<Operator>
        ensures { result ≡ lookup (bytes_eq key.now) operator_names }
    {
        match key {
            "$eval" => Some(Operator::Eval),
            "$json" => Some(Operator::Json),
            "$if" => Some(Operator::If),
            "$switch" => Some(Operator::Switch),
            "$match" => Some(Operator::Match),
            "$let" => Some(Operator::Let),
            "$map" => Some(Operator::Map),
            "$reduce" => Some(Operator::Reduce),
            "$find" => Some(Operator::Find),
            "$flatten" => Some(Operator::Flatten),
            "$flattenDeep" => Some(Operator::FlattenDeep),
            "$merge" => Some(Operator::Merge),
            "$mergeDeep" => Some(Operator::MergeDeep),
            "$sort" => Some(Operator::Sort),
            "$reverse" => Some(Operator::Reverse),
            "$fromNow" => Some(Operator::FromNow),
            _ => None,
        }
    }

    /// Its own key.
    pub fn key(self) -> &'static str
        ensures { result.now ≡ key_of self }
    {
        match self {
            Operator::Eval => "$eval",
            Operator::Json => "$json",
            Operator::If => "$if",
            Operator::Switch => "$switch",
            Operator::Match => "$match",
            Operator::Let => "$let",
            Operator::Map => "$map",
            Operator::Reduce => "$reduce",
            Operator::Find => "$find",
            Operator::Flatten => "$flatten",
            Operator::FlattenDeep => "$flattenDeep",
            Operator::Merge => "$merge",
            Operator::MergeDeep => "$mergeDeep",
            Operator::Sort => "$sort",
            Operator::Reverse => "$reverse",
            Operator::FromNow => "$fromNow",
        }
    }
}
