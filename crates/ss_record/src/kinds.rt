//! The kinds of bookmark items.

ghost use Rattle.std.specs.Prelude.{◌≡◌};
ghost use Rattle.ss_record.specs.Kinds.{is_folder, kind_name, kind_of};

/// What a bookmark item is, as its record's `type` says (Firefox's bookmark records).
#[derive(Clone, Copy, PartialEq, Eq, Debug)]
pub enum Kind {
    Bookmark,
    Query,
    Folder,
    Livemark,
    Separator,
}

impl Kind {
    /// The kind that a record's `type` names.
    #[tactic(auto, unfolding(crate::specs::Kinds::kind_of))]
    pub fn from_name(name: &str) -> Option<Kind>
        ensures { result ≡ kind_of name.now }
    {
        match name {
            "bookmark" => Some(Kind::Bookmark),
            "query" => Some(Kind::Query),
            "folder" => Some(Kind::Folder),
            "livemark" => Some(Kind::Livemark),
            "separator" => Some(Kind::Separator),
            _ => None,
        }
    }

    /// What a record's `type` says of an item of this kind.
    pub fn name(self) -> &'static str
        ensures { result.now ≡ kind_name self }
    {
        match self {
            Kind::Bookmark => "bookmark",
            Kind::Query => "query",
            Kind::Folder => "folder",
            Kind::Livemark => "livemark",
            Kind::Separator => "separator",
        }
    }

    /// Whether an item of this kind can have children; a livemark has none.
    pub fn is_folder(self) -> bool
        ensures { result ≡ is_folder self }
    {
        matches!(self, Kind::Folder)
    }
}
