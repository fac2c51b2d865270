// The keys of all commands.
ghost use Rattle.std.specs.Prelude.{◌≡◌};
ghost use Rattle.lrp_words.specs.Entries.{key_name};

/// A key of some command.
#[derive(Clone, Copy, PartialEq, Eq)]
pub enum Key {
    Db,
    Query,
    Edits,
    Cap,
    Plan,
    From,
    To,
    Limit,
    After,
    Form,
    Tense,
    Wide,
    Canon,
    As,
    Civil,
    Show,
    Kept,
    Seed,
    Size,
}

impl Key {
    /// How the key is spelled.
    pub fn name(self) -> &'static str
        ensures { result.now ≡ key_name self }
    {
        match self {
            Key::Db => "db",
            Key::Query => "query",
            Key::Edits => "edits",
            Key::Cap => "cap",
            Key::Plan => "plan",
            Key::From => "from",
            Key::To => "to",
            Key::Limit => "limit",
            Key::After => "after",
            Key::Form => "form",
            Key::Tense => "tense",
            Key::Wide => "wide",
            Key::Canon => "canon",
            Key::As => "as",
            Key::Civil => "civil",
            Key::Show => "show",
            Key::Kept => "kept",
            Key::Seed => "seed",
            Key::Size => "size",
        }
    }
}
